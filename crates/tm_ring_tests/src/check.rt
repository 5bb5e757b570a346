//! That checkpoints are kept at the limits, what is kept of a few, and that threads may share them.

use std::alloc::Global;
use std::process::Abort;
use std::test::Fail;
use tm_check::{CheckRef, Checks};
use tm_marker::Body;

fn assert_shared<T: Send + Sync>() {}

#[test]
fn threads_may_share_checkpoints() {
    assert_shared::<Checks>();
}

/// Pushes a checkpoint whose body has a number at the pc, x1, x31 and the last data word.
fn push(
    rt: &impl Abort,
    alloc: Global,
    checks: &mut Checks,
    number: u32,
    data_no: u64,
    control_no: u64,
) -> Result<(), Fail> {
    let words = checks.data_words();
    let mut body = Body::new(alloc, words)?;
    body.pc = number;
    body.regs[0] = number;
    body.regs[30] = number;
    assert!(rt; words > 0);
    body.set_word(words - 1, number);
    assert!(rt; checks.total() < 1 << 53);
    checks.push(&body, data_no, control_no);
    Ok(())
}

/// Whether the checkpoint of an epoch is kept with these numbers, and a body that has a number at the
/// pc, x1, x31 and the last data word, by reading and by restoring.
fn is_kept(
    rt: &impl Abort,
    alloc: Global,
    checks: &Checks,
    want: CheckRef,
    number: u32,
) -> Result<(), Fail> {
    let at = checks.with_epoch(want.epoch).expect(rt, "kept");
    assert_eq!(rt; at, want);
    let words = checks.data_words();
    assert!(rt; 1 < words && words < 1 << 20);
    for place in [0, 1, 31, 31 + words] {
        assert!(rt; place < 32 + words);
        assert_eq!(rt; checks.read(&at, place), number, "at {place}");
    }
    let mut body = Body::new(alloc, words)?;
    checks.restore(&at, &mut body);
    assert_eq!(rt;
        (body.pc, body.regs[0], body.regs[30]),
        (number, number, number)
    );
    assert_eq!(rt; body.words.as_slice().last().copied(), Some(number));
    Ok(())
}

#[test]
fn the_last_two_of_three(rt: HostRuntime) -> Result<(), Fail> {
    let mut checks = Checks::new(rt.alloc(), 2, 4)?;
    assert!(rt; checks.is_empty());
    push(&rt, rt.alloc(), &mut checks, 10, 0, 0)?;
    push(&rt, rt.alloc(), &mut checks, 20, 5, 1)?;
    push(&rt, rt.alloc(), &mut checks, 30, 9, 2)?;
    assert_eq!(rt; (checks.total(), checks.len(), checks.cap()), (3, 2, 2));
    assert!(rt; checks.with_epoch(0).is_none());
    assert!(rt; checks.with_epoch(3).is_none());
    for (epoch, data_no, control_no, number) in [(1, 5, 1, 20), (2, 9, 2, 30)] {
        let want = CheckRef {
            epoch,
            data_no,
            control_no,
        };
        is_kept(&rt, rt.alloc(), &checks, want, number)?;
    }
    Ok(())
}

#[test]
fn a_copy(rt: HostRuntime) -> Result<(), Fail> {
    let mut checks = Checks::starting(rt.alloc(), 2, 4, 7)?;
    push(&rt, rt.alloc(), &mut checks, 40, 3, 2)?;
    let mut copy = Checks::new(rt.alloc(), 2, 4)?;
    push(&rt, rt.alloc(), &mut copy, 1, 0, 0)?;
    push(&rt, rt.alloc(), &mut copy, 2, 0, 0)?;
    assert_eq!(rt; copy.cap(), checks.cap());
    assert_eq!(rt; copy.data_words(), checks.data_words());
    copy.copy_from(&checks);
    assert_eq!(rt; (copy.total(), copy.len()), (8, 1));
    assert!(rt; copy.with_epoch(6).is_none());
    let want = CheckRef {
        epoch: 7,
        data_no: 3,
        control_no: 2,
    };
    is_kept(&rt, rt.alloc(), &copy, want, 40)
}

#[test]
fn the_most_checkpoints_of_the_most_words(rt: HostRuntime) -> Result<(), Fail> {
    let mut checks = Checks::starting(rt.alloc(), 64, 16_384, (1 << 53) - 65)?;
    for number in 0..65 {
        push(&rt, rt.alloc(), &mut checks, number, 0, 0)?;
    }
    assert_eq!(rt; (checks.total(), checks.len()), (1 << 53, 64));
    assert!(rt; checks.with_epoch((1 << 53) - 65).is_none());
    for (epoch, number) in [((1 << 53) - 64, 1), ((1 << 53) - 1, 64)] {
        let want = CheckRef {
            epoch,
            data_no: 0,
            control_no: 0,
        };
        is_kept(&rt, rt.alloc(), &checks, want, number)?;
    }
    Ok(())
}
