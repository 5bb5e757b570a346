//! Windows built by hand, as runs leave them, and from which points they can be replayed.

ghost use Rattle.std.specs.Prelude.{◌<◌, ◌≤◌, IfOk};
ghost use Rattle.tm_marker.specs.Shape.{IsCaps, IsShape};

use std::alloc::{AllocError, Global};
use std::process::Abort;
use std::test::Fail;
use std::thread::Threads;
use tm_log::Window;
use tm_marker::{Body, Caps, DataEntry, Items, Kind, Marker, NOBODY, Shape, Switch};
use tm_points::{Lost, accepts, points};

/// The shape of so many tasks of one data word.
fn shape_of(alloc: Global, tasks: usize, caps: Caps) -> Result<Shape, AllocError>
    requires some { 0 < tasks }
    requires few { tasks ≤ 16 }
    requires caps { IsCaps caps }
    ensures { IfOk result IsShape }
{
    Ok(Shape {
        image: [7; 32],
        caps,
        words: Items::from(vec![in alloc; 1; tasks]?),
    })
}

/// The marker of an epoch, a count and a pc.
fn at(epoch: u64, count: u32, pc: u32) -> Marker {
    Marker { epoch, count, pc }
}

/// Adds a control entry that switches to a task.
fn switch(rt: &impl Abort, window: &mut Window, to: u8, to_at: Marker) {
    assert!(rt; window.control().total() < 99);
    window.push_control(Switch {
        from: NOBODY,
        kind: Kind::Idle,
        from_at: Marker::ZERO,
        to,
        to_at,
    });
}

/// Adds so many data entries of a task.
fn answer(rt: &impl Abort, window: &mut Window, task: u8, number: u32) {
    for _ in 0..number {
        assert!(rt; task < window.tasks());
        assert!(rt; window.log(task).total() < 99);
        window.push_entry(
            task,
            DataEntry {
                service: 18,
                status: 0,
                words: [0; 4],
            },
        );
    }
}

/// Adds checkpoints of a task, taken after these numbers of data entries.
fn check(
    rt: &impl Abort,
    alloc: Global,
    window: &mut Window,
    task: u8,
    data_numbers: &[u64],
) -> Result<(), Fail> {
    let body = Body::new(alloc, 1)?;
    for &data_number in data_numbers {
        assert!(rt; task < window.tasks());
        let checks = window.checks(task);
        assert!(rt; checks.total() < 99);
        assert!(rt; checks.data_words() as usize == body.words.len());
        window.push_check(task, &body, data_number, 0);
    }
    Ok(())
}

/// Makes a task stand at a marker at the last moment.
fn stand(rt: &impl Abort, window: &mut Window, task: u8, at: Marker) {
    assert!(rt; task < window.tasks());
    window.set_task(task, at, 1);
}

/// That the finder answers this at each of some points.
fn tells(rt: &impl Abort, window: &Window, points: &[u64], want: Result<(), Lost>) {
    for &point in points {
        assert_eq!(rt; accepts(window, point), want, "at {point}");
    }
}

/// That these are the accepted points.
fn lists(
    rt: &(impl Abort + Threads + Sync),
    alloc: Global,
    window: &Window,
    want: &[u64],
) -> Result<(), Fail> {
    let found = points(rt, alloc, window)?;
    assert_eq!(rt; found.as_slice(), want);
    Ok(())
}

/// A task terminates itself and leaves nobody: all is kept.
#[test]
fn a_short_run(rt: HostRuntime) -> Result<(), Fail> {
    let mut window = Window::new(rt.alloc(), &shape_of(rt.alloc(), 1, Caps::DEFAULT)?)?;
    check(&rt, rt.alloc(), &mut window, 0, &[0, 1])?;
    switch(&rt, &mut window, 0, at(0, 0, 0));
    answer(&rt, &mut window, 0, 1);
    switch(&rt, &mut window, NOBODY, Marker::ZERO);
    stand(&rt, &mut window, 0, at(1, 0, 0));
    tells(&rt, &window, &[0, 1, 2], Ok(()));
    tells(&rt, &window, &[3], Err(Lost::Unknown { total: 2 }));
    lists(&rt, rt.alloc(), &window, &[0, 1, 2])
}

/// A task is preempted again and again by another, whose checkpoints are `checks` at most.
fn preempted(rt: &impl Abort, alloc: Global, checks: u32) -> Result<Window, Fail>
    requires some { 0 < checks }
    requires few { checks ≤ 64 }
{
    let caps = Caps {
        control: 4,
        logs: 256,
        outputs: 256,
        checks,
    };
    let mut window = Window::new(alloc, &shape_of(alloc, 2, caps)?)?;
    check(rt, alloc, &mut window, 0, &[0])?;
    check(rt, alloc, &mut window, 1, &[0, 1, 2, 3, 4])?;
    answer(rt, &mut window, 1, 4);
    switch(rt, &mut window, 0, at(0, 0, 0));
    for epoch in 0..4 {
        switch(rt, &mut window, 1, at(epoch, 0, 0));
        switch(rt, &mut window, 0, at(0, 5, 0));
    }
    switch(rt, &mut window, 1, at(4, 0, 0));
    stand(rt, &mut window, 0, at(0, 5, 0));
    stand(rt, &mut window, 1, at(4, 0, 0));
    Ok(window)
}

#[test]
fn four_of_ten_control_entries(rt: HostRuntime) -> Result<(), Fail> {
    let window = preempted(&rt, rt.alloc(), 4)?;
    tells(&rt, &window, &[0, 6], Err(Lost::Control { first: 7 }));
    tells(&rt, &window, &[7, 8, 9, 10], Ok(()));
    tells(&rt, &window, &[11], Err(Lost::Unknown { total: 10 }));
    lists(&rt, rt.alloc(), &window, &[7, 8, 9, 10])
}

#[test]
fn a_task_that_runs_next_in_a_dropped_epoch(rt: HostRuntime) -> Result<(), Fail> {
    let window = preempted(&rt, rt.alloc(), 1)?;
    tells(
        &rt,
        &window,
        &[7, 8],
        Err(Lost::Check { task: 1, epoch: 3 }),
    );
    tells(&rt, &window, &[9, 10], Ok(()));
    lists(&rt, rt.alloc(), &window, &[9, 10])
}

/// A task begins its second epoch, and one checkpoint is kept.
#[test]
fn one_of_two_checkpoints(rt: HostRuntime) -> Result<(), Fail> {
    let caps = Caps {
        checks: 1,
        ..Caps::DEFAULT
    };
    let mut window = Window::new(rt.alloc(), &shape_of(rt.alloc(), 1, caps)?)?;
    check(&rt, rt.alloc(), &mut window, 0, &[0, 0])?;
    switch(&rt, &mut window, 0, at(0, 0, 0));
    stand(&rt, &mut window, 0, at(1, 0, 0));
    tells(
        &rt,
        &window,
        &[0, 1],
        Err(Lost::Check { task: 0, epoch: 0 }),
    );
    lists(&rt, rt.alloc(), &window, &[])
}

/// Three calls of a task in one epoch, of whose data entries two are kept.
#[test]
fn two_of_three_data_entries(rt: HostRuntime) -> Result<(), Fail> {
    let caps = Caps {
        logs: 2,
        ..Caps::DEFAULT
    };
    let mut window = Window::new(rt.alloc(), &shape_of(rt.alloc(), 1, caps)?)?;
    check(&rt, rt.alloc(), &mut window, 0, &[0])?;
    switch(&rt, &mut window, 0, at(0, 0, 0));
    answer(&rt, &mut window, 0, 3);
    stand(&rt, &mut window, 0, at(0, 0, 16));
    let lost = Lost::Data {
        task: 0,
        needed: 0,
        first: 1,
    };
    tells(&rt, &window, &[0, 1], Err(lost));
    lists(&rt, rt.alloc(), &window, &[])
}

/// What is told at boot of two tasks: the first has lost the first of its three data entries and has
/// these checkpoints, of which one is kept, and the second has lost its first checkpoint.
fn lost_of_two(
    rt: &impl Abort,
    alloc: Global,
    data_numbers: &[u64],
) -> Result<Result<(), Lost>, Fail> {
    let caps = Caps {
        logs: 2,
        checks: 1,
        ..Caps::DEFAULT
    };
    let mut window = Window::new(alloc, &shape_of(alloc, 2, caps)?)?;
    answer(rt, &mut window, 0, 3);
    check(rt, alloc, &mut window, 0, data_numbers)?;
    check(rt, alloc, &mut window, 1, &[0, 0])?;
    Ok(accepts(&window, 0))
}

#[test]
fn of_two_tasks_that_lack_something(rt: HostRuntime) -> Result<(), Fail> {
    let dropped = Lost::Data {
        task: 0,
        needed: 0,
        first: 1,
    };
    for (data_numbers, lost) in [
        ([0].as_slice(), dropped),
        ([0, 0].as_slice(), Lost::Check { task: 0, epoch: 0 }),
        ([1].as_slice(), Lost::Check { task: 1, epoch: 0 }),
    ] {
        assert_eq!(rt; lost_of_two(&rt, rt.alloc(), data_numbers)?, Err(lost));
    }
    Ok(())
}
