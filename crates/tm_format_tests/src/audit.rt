//! The text of an audit.

use std::test::Fail;
use tm_audit::{AUDIT_ROOM, write_audit};
use tm_irq::Audit;

#[test]
fn audits_are_written(rt: HostRuntime) -> Result<(), Fail> {
    let mut audit = Audit {
        raised: [0; 16],
        joined: [0; 16],
        taken: [0; 16],
        pending: [0; 16],
    };
    let mut text = Vec::new(rt.alloc());
    write_audit(2, &audit, &mut text)?;
    assert_eq!(rt; text.as_slice(), b"slices 2\n".as_slice());
    audit.raised[3] = 5;
    audit.joined[3] = 3;
    audit.taken[3] = 1;
    audit.pending[3] = 1;
    let mut text = Vec::new(rt.alloc());
    write_audit(1, &audit, &mut text)?;
    assert_eq!(rt;
        text.as_slice(),
        b"slices 1\nline 3 raised 5 joined 3 taken 1 pending 1\n".as_slice()
    );
    let full = Audit {
        raised: [u64::MAX; 16],
        joined: [u64::MAX; 16],
        taken: [u64::MAX; 16],
        pending: [u64::MAX; 16],
    };
    let mut text = Vec::new(rt.alloc());
    write_audit(u32::MAX, &full, &mut text)?;
    assert!(rt; text.len() <= AUDIT_ROOM);
    Ok(())
}
