//! A run of three tasks, worked by hand, and in `services` a table of calls.

ghost use Rattle.std.specs.Prelude.{◌≡◌, IfOk};
ghost use Rattle.tm_kernel.specs.Spec.{IsKernelSpec};

mod services;

use std::alloc::{AllocError, Global};
use std::test::Fail;
use tm_kernel::{Action, Kernel, KernelSpec, Need, TaskSpec};
use tm_marker::{Items, Kind, NOBODY};

/// What is done before a rescheduling.
#[derive(Clone, Copy, Debug)]
enum Deed {
    /// An arrival of the mask's lines.
    Lines(u16),
    /// A call of the running task: the service, its first argument, the status, and the need.
    Call(u8, u32, u32, Need),
}

/// A deed, and what stands after the rescheduling: the three states, and who runs.
#[derive(Clone, Copy, Debug)]
struct Row(Deed, [u8; 3], u8);

const ENDS: Need = Need::Leaves(Kind::Ends);

const ROWS: [Row; 12] = [
    Row(Deed::Lines(0), [2, 0, 1], 0),
    Row(Deed::Call(1, 1, 0, Need::Goes), [1, 2, 1], 1),
    Row(Deed::Call(1, 0, 4, Need::Goes), [1, 2, 1], 1),
    Row(Deed::Call(1, 1, 4, Need::Goes), [1, 2, 1], 1),
    Row(Deed::Call(1, 3, 3, Need::Goes), [1, 2, 1], 1),
    Row(Deed::Call(21, 0, 5, Need::Goes), [1, 2, 1], 1),
    Row(Deed::Call(2, 0, 0, ENDS), [2, 0, 1], 0),
    Row(Deed::Lines(0b10_0011), [1, 2, 1], 1),
    Row(Deed::Call(2, 0, 0, ENDS), [2, 0, 1], 0),
    Row(Deed::Call(2, 0, 0, ENDS), [0, 0, 2], 2),
    Row(Deed::Call(2, 0, 0, ENDS), [0, 0, 0], NOBODY),
    Row(Deed::Lines(0b110), [0, 0, 2], 2),
];

fn task(extended: bool, priority: u8, auto: bool) -> TaskSpec
    ensures { result ≡ record { extended = extended; priority = priority; auto = auto } }
{
    TaskSpec {
        extended,
        priority,
        auto,
    }
}

fn spec(alloc: Global) -> Result<KernelSpec, AllocError>
    ensures { IfOk result IsKernelSpec }
{
    let tasks = vec![in alloc;
        task(false, 5, true),
        task(false, 9, false),
        task(false, 2, true),
    ]?;
    Ok(KernelSpec {
        tasks: Items::from(tasks),
        users: Items::new(alloc),
        alarms: Items::new(alloc),
        boxes: Items::new(alloc),
        lines: [
            Action::Activate(1),
            Action::Activate(2),
            Action::Tick,
            Action::Nothing,
            Action::Event(0, 1),
            Action::Activate(0),
            Action::Nothing,
            Action::Nothing,
            Action::Nothing,
            Action::Nothing,
            Action::Nothing,
            Action::Nothing,
            Action::Nothing,
            Action::Nothing,
            Action::Nothing,
            Action::Nothing,
        ],
    })
}

#[test]
fn runs_three_tasks(rt: HostRuntime) -> Result<(), Fail> {
    let spec = spec(rt.alloc())?;
    let mut kernel = Kernel::new(rt.alloc(), &spec)?;
    assert_eq!(rt; kernel.pick(), 0);
    for Row(deed, states, running) in ROWS {
        match deed {
            Deed::Lines(mask) => kernel.arrive(u32::from(mask), [0; 4]),
            Deed::Call(service, argument, status, need) => {
                let caller = kernel.running();
                assert!(rt; usize::from(caller) < kernel.tasks());
                let answer = kernel.call(caller, service, [argument, 0, 0, 0, 0, 0]);
                assert_eq!(rt; answer.entry.service, service, "at {deed:?}");
                assert_eq!(rt; answer.entry.status, status, "at {deed:?}");
                assert_eq!(rt; answer.need, need, "at {deed:?}");
            }
        }
        kernel.reschedule();
        assert_eq!(rt; kernel.tasks(), 3);
        assert_eq!(rt;
            [kernel.state(0), kernel.state(1), kernel.state(2)],
            states,
            "at {deed:?}"
        );
        assert_eq!(rt; kernel.running(), running, "at {deed:?}");
        assert_eq!(rt; kernel.pick(), running, "at {deed:?}");
        assert_eq!(rt; kernel.ended(), 0);
    }
    assert!(rt; kernel.running() != NOBODY);
    kernel.stop(true);
    assert_eq!(rt; kernel.tasks(), 3);
    assert_eq!(rt;
        (kernel.running(), kernel.ended(), kernel.state(2)),
        (NOBODY, 1, 1)
    );
    Ok(())
}
