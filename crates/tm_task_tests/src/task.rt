//! Instructions and answers, against values worked by hand.

ghost use Rattle.std.specs.Prelude.{◌<◌, ◌≤◌, length, IfOk};

mod cases;
mod multiply;

use cases::{ARITHMETIC, Case, LOADS, OTHERS, STORES, TEXT_END, TRANSFERS, WORDS, Want};
use std::alloc::Global;
use std::process::Abort;
use std::test::Fail;
use tm_marker::{DataEntry, Marker};
use tm_rv::{Code, Set};
use tm_task::{Cause, Stepped, Task};

/// The text of these words.
fn code_of(alloc: Global, words: &[u32]) -> Result<Code, Fail>
    requires some { 0 < length words.now }
    requires few { length words.now ≤ 16384 }
    ensures { IfOk result (λ code. (0 < length code.words) × (length code.words ≤ 16384)) }
{
    let mut code = Code::new(alloc, Set::Mul);
    code.extend(words)?;
    Ok(code)
}

/// A call at address 0 gives a0 to a4 their values; then the case's instruction is executed.
fn check(rt: &impl Abort, alloc: Global, cases: &[Case]) -> Result<(), Fail> {
    for &(name, word, x, y, want) in cases {
        let text = code_of(alloc, &[0x0000_0073, word, TEXT_END[0], TEXT_END[1]])?;
        let mut task = Task::new(alloc, 0, &WORDS)?;
        let Stepped::Call(0) = task.step(&text) else {
            return Err("the text begins with a call")?;
        };
        task.answer(&DataEntry {
            service: 1,
            status: x,
            words: [y, 0x0c0c_0c0c, 0x0d0d_0d0d, 0x0e0e_0e0e],
        });

        let mut regs = [0; 31];
        regs[1] = 0x1000_0010;
        regs[9] = x;
        regs[10] = y;
        regs[11] = 0x0c0c_0c0c;
        regs[12] = 0x0d0d_0d0d;
        regs[13] = 0x0e0e_0e0e;
        let mut words = WORDS;
        let (answer, pc, count) = match want {
            Want::A2(value) => {
                regs[11] = value;
                (Stepped::Ran, 8, 0)
            }
            Want::A0(value) => {
                regs[9] = value;
                (Stepped::Ran, 8, 0)
            }
            Want::Stored(index, value) => {
                assert!(rt; index < 4);
                words[index] = value;
                (Stepped::Ran, 8, 0)
            }
            Want::Went(pc, count) => (Stepped::Ran, pc, count),
            Want::LinkA2(pc, count) => {
                regs[11] = 8;
                (Stepped::Ran, pc, count)
            }
            Want::LinkA0(pc, count) => {
                regs[9] = 8;
                (Stepped::Ran, pc, count)
            }
            Want::Call(service) => (Stepped::Call(service), 4, 0),
            Want::Fault(cause) => (Stepped::Fault(cause), 4, 0),
        };

        assert_eq!(rt; task.step(&text), answer, "{name}, with {x:#x} and {y:#x}");
        assert_eq!(rt;
            task.marker(),
            Marker {
                epoch: 0,
                count,
                pc
            },
            "{name}, with {x:#x} and {y:#x}"
        );
        let body = task.body();
        assert_eq!(rt; body.regs, regs, "{name}, with {x:#x} and {y:#x}");
        assert_eq!(rt;
            body.words.as_slice(),
            words.as_slice(),
            "{name}, with {x:#x} and {y:#x}"
        );
    }
    Ok(())
}

#[test]
fn arithmetic(rt: HostRuntime) -> Result<(), Fail> {
    check(&rt, rt.alloc(), &ARITHMETIC)
}

#[test]
fn transfers(rt: HostRuntime) -> Result<(), Fail> {
    check(&rt, rt.alloc(), &TRANSFERS)
}

#[test]
fn loads(rt: HostRuntime) -> Result<(), Fail> {
    check(&rt, rt.alloc(), &LOADS)
}

#[test]
fn stores(rt: HostRuntime) -> Result<(), Fail> {
    check(&rt, rt.alloc(), &STORES)
}

#[test]
fn others(rt: HostRuntime) -> Result<(), Fail> {
    check(&rt, rt.alloc(), &OTHERS)
}

/// A jump to an aligned address past the text is done; only the next step faults.
#[test]
fn jumps_past_the_text(rt: HostRuntime) -> Result<(), Fail> {
    // jal a2, 0x800
    let text = code_of(rt.alloc(), &[0x0010_066f])?;
    let mut task = Task::new(rt.alloc(), 0, &WORDS)?;
    assert_eq!(rt; task.step(&text), Stepped::Ran);
    for _ in 0..2 {
        let at = Marker {
            epoch: 0,
            count: 0,
            pc: 0x800,
        };
        assert_eq!(rt; task.marker(), at);
        assert_eq!(rt; task.body().regs[11], 4);
        assert_eq!(rt; task.step(&text), Stepped::Fault(Cause::Fetch));
    }
    Ok(())
}

#[test]
fn runs_off_the_text(rt: HostRuntime) -> Result<(), Fail> {
    // fence
    let text = code_of(rt.alloc(), &[0x0000_000f, 0x0000_000f])?;
    let mut task = Task::new(rt.alloc(), 4, &WORDS)?;
    assert_eq!(rt; task.step(&text), Stepped::Ran);
    assert_eq!(rt; task.step(&text), Stepped::Fault(Cause::Fetch));
    Ok(())
}

#[test]
fn calls_by_a7(rt: HostRuntime) -> Result<(), Fail> {
    let cases = [
        (0, 0),
        (1, 1),
        (20, 20),
        (254, 254),
        (255, 255),
        (256, 255),
        (257, 255),
        (2047, 255),
    ];
    for (number, service) in cases {
        // addi a7, x0, number; ecall
        let text = code_of(rt.alloc(), &[(number << 20) + 0x893, 0x0000_0073])?;
        let mut task = Task::new(rt.alloc(), 0, &WORDS)?;
        assert_eq!(rt; task.step(&text), Stepped::Ran);
        assert_eq!(rt; task.step(&text), Stepped::Call(service), "at {number}");
        assert_eq!(rt; task.marker().pc, 4);
    }
    Ok(())
}

#[test]
fn an_epoch_ends_at_its_last_count(rt: HostRuntime) -> Result<(), Fail> {
    // jal x0, 0
    let text = code_of(rt.alloc(), &[0x0000_006f])?;
    let mut task = Task::new(rt.alloc(), 0, &WORDS)?;
    for count in 0..1_048_575 {
        assert_eq!(rt;
            task.marker(),
            Marker {
                epoch: 0,
                count,
                pc: 0
            }
        );
        assert_eq!(rt; task.step(&text), Stepped::Ran);
    }
    assert_eq!(rt;
        task.marker(),
        Marker {
            epoch: 0,
            count: 1_048_575,
            pc: 0
        }
    );
    assert_eq!(rt; task.step(&text), Stepped::Forced);
    assert_eq!(rt;
        task.marker(),
        Marker {
            epoch: 1,
            count: 0,
            pc: 0
        }
    );
    assert_eq!(rt; task.step(&text), Stepped::Ran);
    assert_eq!(rt;
        task.marker(),
        Marker {
            epoch: 1,
            count: 1,
            pc: 0
        }
    );
    Ok(())
}

/// Several instructions stop before a call, before a fault, and where an epoch is about to end.
#[test]
fn goes_on_as_far_as_it_may(rt: HostRuntime) -> Result<(), Fail> {
    // addi a7, x0, 7; addi a0, a0, 1; ecall; jal x0, -8
    let text = code_of(
        rt.alloc(),
        &[0x0070_0893, 0x0015_0513, 0x0000_0073, 0xff9f_f06f],
    )?;
    let mut task = Task::new(rt.alloc(), 0, &WORDS)?;
    assert_eq!(rt; task.advance(&text, 1), 1);
    assert_eq!(rt; task.advance(&text, 0), 0);
    assert_eq!(rt; task.advance(&text, 9), 1);
    assert_eq!(rt; task.marker().pc, 8);
    assert_eq!(rt; task.advance(&text, 9), 0);
    assert_eq!(rt; task.step(&text), Stepped::Call(7));

    // fence, and nothing after it
    let text = code_of(rt.alloc(), &[0x0000_000f])?;
    let mut task = Task::new(rt.alloc(), 0, &WORDS)?;
    assert_eq!(rt; task.advance(&text, 9), 1);
    assert_eq!(rt; task.step(&text), Stepped::Fault(Cause::Fetch));

    // jal x0, 0
    let text = code_of(rt.alloc(), &[0x0000_006f])?;
    let mut task = Task::new(rt.alloc(), 0, &WORDS)?;
    assert_eq!(rt; task.advance(&text, 2_000_000), 1_048_575);
    assert_eq!(rt; task.step(&text), Stepped::Forced);
    assert_eq!(rt; task.advance(&text, 3), 3);
    assert_eq!(rt; task.marker().count, 3);
    Ok(())
}

/// A task becomes another, and stands where a body is put.
#[test]
fn becomes_another(rt: HostRuntime) -> Result<(), Fail> {
    // addi a0, x0, 5; sw a0, 4(x5); jal x0, 0
    let text = code_of(rt.alloc(), &[0x0050_0513, 0x00a2_a223, 0x0000_006f])?;
    let mut task = Task::new(rt.alloc(), 0, &WORDS)?;
    assert_eq!(rt; task.advance(&text, 1), 1);
    let mut other = Task::new(rt.alloc(), 8, &WORDS)?;
    assert_eq!(rt; other.advance(&text, 2), 2);

    assert!(rt; other.body().words.len() == task.body().words.len());
    other.copy_from(&task);
    assert_eq!(rt; other.marker(), task.marker());
    assert_eq!(rt; other.body().regs, task.body().regs);

    let body = tm_marker::Body::new(rt.alloc(), 4)?;
    assert!(rt; body.words.len() == task.body().words.len());
    task.load(&body, 9);
    let start = Marker {
        epoch: 9,
        count: 0,
        pc: 0,
    };
    assert_eq!(rt; task.marker(), start);
    assert_eq!(rt; task.body().words.as_slice(), [0; 4].as_slice());
    Ok(())
}

/// Which answers begin an epoch, and which start the task anew.
#[test]
fn answers(rt: HostRuntime) -> Result<(), Fail> {
    let boot = {
        let mut regs = [0; 31];
        regs[1] = 0x1000_0010;
        regs
    };
    // 0: ecall; 4: fence; 8: jal x0, -8
    let text = code_of(rt.alloc(), &[0x0000_0073, 0x0000_000f, 0xff9f_f06f])?;
    for (service, status, anew, epoch) in [
        (1, 0, false, 0),
        (2, 0, true, 1),
        (2, 6, false, 0),
        (3, 0, true, 1),
        (3, 4, false, 0),
        (11, 0, false, 1),
        (11, 1, false, 0),
        (4, 0, false, 0),
        (20, 0, false, 0),
    ] {
        let mut task = Task::new(rt.alloc(), 8, &WORDS)?;
        assert_eq!(rt; task.body().regs, boot);
        assert_eq!(rt; task.step(&text), Stepped::Ran);
        assert_eq!(rt;
            task.marker(),
            Marker {
                epoch: 0,
                count: 1,
                pc: 0
            }
        );
        let Stepped::Call(0) = task.step(&text) else {
            return Err("the text calls at 0")?;
        };
        task.answer(&DataEntry {
            service,
            status,
            words: [5, 6, 7, 8],
        });

        let count = 1 - epoch as u32;
        let pc = if anew { 8 } else { 4 };
        let args = if anew {
            [0; 6]
        } else {
            [status, 5, 6, 7, 8, 0]
        };
        let mut regs = boot;
        regs[9..15].copy_from_slice(&args);
        assert_eq!(rt;
            task.marker(),
            Marker { epoch, count, pc },
            "after {service}"
        );
        assert_eq!(rt; task.args(), args, "after {service}");
        assert_eq!(rt; task.body().regs, regs, "after {service}");
        assert_eq!(rt;
            task.body().words.as_slice(),
            WORDS.as_slice(),
            "after {service}"
        );
    }
    Ok(())
}

#[test]
fn causes_have_their_numbers(rt: HostRuntime) {
    use Cause::{Break, Fetch, Illegal, Range, Target, TextWrite, Unaligned};
    let causes = [Fetch, Illegal, Target, Unaligned, Range, TextWrite, Break];
    for (cause, number) in causes.into_iter().zip(1..8) {
        assert_eq!(rt; cause.number(), number);
    }
}
