//! The texts of the faults.

use std::test::Fail;
use tm_io::{Failed, GetFault, PutFault};

#[test]
fn each_fault_has_its_text(rt: HostRuntime) -> Result<(), Fail> {
    let text = format!(in rt.alloc();
        "{}, {}, {}",
        GetFault::Failed,
        GetFault::TooLong,
        GetFault::Memory
    )?;
    assert_eq!(rt; text.as_str(), "can't be read, too long, out of memory");
    let text = format!(in rt.alloc(); "{}, {}", PutFault::Failed, Failed)?;
    assert_eq!(rt;
        text.as_str(),
        "can't be written, the output takes no more bytes"
    );
    Ok(())
}
