//! That windows are made at their limits, what each call adds, and that threads may share them.

ghost use Rattle.std.specs.Prelude.{◌≡◌, IfOk};
ghost use Rattle.tm_marker.specs.Shape.{IsShape};
ghost use Rattle.tm_log.specs.Window.{IsWindow};

use std::alloc::{AllocError, Global};
use std::process::Abort;
use std::test::Fail;
use tm_log::{Caps, NOBODY, Shape, Window};
use tm_marker::{Body, DataEntry, Items, Kind, Marker, OutputEntry, Switch};

fn assert_shared<T: Send + Sync>() {}

#[test]
fn threads_may_share_a_window() {
    assert_shared::<Window>();
}

const SWITCH: Switch = Switch {
    from: NOBODY,
    kind: Kind::Idle,
    from_at: Marker::ZERO,
    to: 1,
    to_at: Marker::ZERO,
};

const OUTPUT: OutputEntry = OutputEntry {
    task: 1,
    port: 2,
    value: 9,
};

const ENTRY: DataEntry = DataEntry {
    service: 3,
    status: 0,
    words: [1, 2, 3, 4],
};

/// Two tasks, of one and of three data words, with small buffers.
fn small_shape(alloc: Global) -> Result<Shape, AllocError>
    ensures { IfOk result IsShape }
{
    let caps = Caps {
        control: 2,
        logs: 3,
        outputs: 4,
        checks: 5,
    };
    Ok(Shape {
        image: [7; 32],
        caps,
        words: Items::from(Vec::from_slice(alloc, &[1, 3])?),
    })
}

/// Sixteen tasks of the most data words, with the largest buffers.
fn largest_shape(alloc: Global) -> Result<Shape, AllocError>
    ensures { IfOk result IsShape }
{
    let caps = Caps {
        control: 65_536,
        logs: 65_536,
        outputs: 65_536,
        checks: 64,
    };
    Ok(Shape {
        image: [7; 32],
        caps,
        words: Items::from(vec![in alloc; 16_384; 16]?),
    })
}

/// Writes one item into each list, for the second task where a list is a task's.
fn fill(rt: &impl Abort, window: &mut Window, body: &Body)
    ensures { window.new.shape ≡ window.old.shape }
{
    assert!(rt; window.tasks() == 2);
    assert!(rt; window.control().total() < 9 && window.outputs().total() < 9);
    assert!(rt; window.log(1).total() < 9);
    let checks = window.checks(1);
    assert!(rt; checks.total() < 9);
    assert!(rt; checks.data_words() as usize == body.words.len());
    window.push_control(SWITCH);
    window.push_output(OUTPUT);
    window.push_entry(1, ENTRY);
    window.push_check(1, body, 6, 8);
    window.set_running(1, 0);
    window.set_task(
        1,
        Marker {
            epoch: 4,
            count: 5,
            pc: 8,
        },
        2,
    );
}

/// That one item stands in each list of the second task, and none in those of the first.
fn is_filled(rt: &impl Abort, window: &Window) {
    assert!(rt; window.tasks() == 2);
    assert_eq!(rt; window.image(), &[7; 32]);
    assert_eq!(rt; window.control().get(0).copied(), Some(SWITCH));
    assert_eq!(rt; window.outputs().get(0).copied(), Some(OUTPUT));
    assert_eq!(rt;
        (window.log(0).total(), window.log(1).get(0).copied()),
        (0, Some(ENTRY))
    );
    assert_eq!(rt;
        (window.checks(0).total(), window.checks(1).total()),
        (0, 1)
    );
    let tail = window.tail();
    assert_eq!(rt; (tail.running, tail.ended), (1, 0));
    assert_eq!(rt;
        tail.at.as_slice(),
        [
            Marker::ZERO,
            Marker {
                epoch: 4,
                count: 5,
                pc: 8
            }
        ]
        .as_slice()
    );
    assert_eq!(rt; tail.state.as_slice(), [0, 2].as_slice());
}

#[test]
fn each_list_gains_one_item(rt: HostRuntime) -> Result<(), Fail> {
    let shape = small_shape(rt.alloc())?;
    let mut window = Window::new(rt.alloc(), &shape)?;
    assert_eq!(rt; window.tail().running, NOBODY);
    let body = Body::new(rt.alloc(), 3)?;
    fill(&rt, &mut window, &body);
    is_filled(&rt, &window);
    let mut copy = Window::new(rt.alloc(), &shape)?;
    copy.copy_from(&window);
    is_filled(&rt, &copy);
    // 38 + 8 + 35 * 2 + 8 + 6 * 4 + 2 + 17 * 2 + 32, and for each task 16 + 21 * 3 + 5 * (144 + 4 * words)
    assert_eq!(rt; copy.dump_bound(), 216 + 819 + 859);
    Ok(())
}

#[test]
fn the_largest_window(rt: HostRuntime) -> Result<(), Fail> {
    let shape = largest_shape(rt.alloc())?;
    let window = Window::new(rt.alloc(), &shape)?;
    assert_eq!(rt; window.tasks(), 16);
    assert_eq!(rt; window.dump_bound(), 91_964_008);
    Ok(())
}
