//! Dumps that are refused, by the first thing that is wrong.

use crate::calls::{DUMP, answer, recorded};
use crate::dumps::{changed, closed, cut, put_in};
use std::test::Fail;
use tm_dump::DumpFault;
use tm_prog::Status;

#[test]
fn of_36_bytes_or_fewer_none_is_a_dump(rt: HostRuntime) -> Result<(), Fail> {
    let alloc = rt.alloc();
    let dump = recorded(&rt, alloc)?;
    for length in 0..37 {
        let status = answer(&rt, alloc, cut(&rt, &dump, length))?;
        assert_eq!(rt; status, Status::Dump(DumpFault::Magic), "{length}");
    }
    Ok(())
}

#[test]
fn a_dump_that_is_cut_has_another_digest(rt: HostRuntime) -> Result<(), Fail> {
    let alloc = rt.alloc();
    let dump = recorded(&rt, alloc)?;
    for length in 37..DUMP {
        let status = answer(&rt, alloc, cut(&rt, &dump, length))?;
        let refused = matches!(&status, Status::Dump(DumpFault::Digest { .. }));
        assert!(rt; refused, "{length}: {status:?}");
    }
    Ok(())
}

#[test]
fn a_dump_that_ends_early_is_refused_by_the_field_it_lacks(rt: HostRuntime) -> Result<(), Fail> {
    let alloc = rt.alloc();
    let dump = recorded(&rt, alloc)?;
    for (length, place) in [(36, 5), (46, 46)] {
        let bytes = closed(alloc, cut(&rt, &dump, length))?;
        let status = answer(&rt, alloc, &bytes)?;
        assert_eq!(rt;
            status,
            Status::Dump(DumpFault::Field { place }),
            "{length}"
        );
    }
    Ok(())
}

#[test]
fn a_field_that_breaks_its_rule_is_refused_by_its_place(rt: HostRuntime) -> Result<(), Fail> {
    let alloc = rt.alloc();
    let dump = recorded(&rt, alloc)?;
    for (at, byte, place) in [
        (37, 2, 37),
        (38, 3, 116),
        (44, 0x20, 38),
        (47, 0, 47),
        (93, 0x10, 91),
        (457, 0, 457),
        (458, 1, 458),
    ] {
        let bytes = changed(&rt, alloc, &dump, &[(at, byte)])?;
        let bytes = closed(alloc, &bytes)?;
        let status = answer(&rt, alloc, &bytes)?;
        assert_eq!(rt; status, Status::Dump(DumpFault::Field { place }), "{at}");
    }
    Ok(())
}

#[test]
fn a_byte_after_the_last_field_is_refused(rt: HostRuntime) -> Result<(), Fail> {
    let alloc = rt.alloc();
    let dump = recorded(&rt, alloc)?;
    let bytes = changed(&rt, alloc, &dump, &[])?;
    let bytes = put_in(&rt, alloc, &bytes, 476, &[0])?;
    let bytes = closed(alloc, &bytes)?;
    assert_eq!(rt;
        answer(&rt, alloc, &bytes)?,
        Status::Dump(DumpFault::Extra { place: 476 })
    );
    Ok(())
}
