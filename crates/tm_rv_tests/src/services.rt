//! Calls on ceilings and on alarms, with statuses worked by hand.

ghost use Rattle.std.specs.Prelude.{◌≡◌};

use std::test::Fail;
use tm_services::{Alarms, Ceilings, Left};

/// A call on the resources.
#[derive(Clone, Copy, Debug)]
enum Call {
    Get,
    Release,
}

/// A call by a task on a resource; then the status, the task's current priority, and whether it
/// holds a resource.
#[derive(Clone, Copy, Debug)]
struct Row(Call, u8, u32, u32, u8, bool);

const PRIORITIES: [u8; 16] = [3, 5, 6, 0, 0, 0, 0, 0, 0, 0, 0, 0, 0, 0, 0, 200];

const USERS: [u16; 16] = [0b11, 0b101, 0x8001, 0, 0, 0, 0, 0, 0, 0, 0, 0, 0, 0, 0, 0];

const ROWS: [Row; 17] = [
    Row(Call::Get, 0, 3, 3, 3, false),
    Row(Call::Get, 0, 256, 3, 3, false),
    Row(Call::Get, 2, 0, 1, 6, false),
    Row(Call::Release, 0, 0, 5, 3, false),
    Row(Call::Release, 0, 0xffff_ffff, 3, 3, false),
    Row(Call::Get, 0, 0, 0, 5, true),
    Row(Call::Get, 0, 0, 1, 5, true),
    Row(Call::Get, 1, 0, 1, 5, false),
    Row(Call::Get, 0, 1, 0, 6, true),
    Row(Call::Release, 0, 0, 5, 6, true),
    Row(Call::Release, 1, 0, 5, 5, false),
    Row(Call::Get, 0, 2, 0, 200, true),
    Row(Call::Release, 0, 2, 0, 6, true),
    Row(Call::Release, 0, 1, 0, 5, true),
    Row(Call::Get, 2, 1, 0, 6, true),
    Row(Call::Release, 0, 0, 0, 3, false),
    Row(Call::Get, 15, 2, 0, 200, true),
];

#[test]
fn three_tasks_share_resources(rt: HostRuntime) -> Result<(), Fail> {
    let mut ceilings = Ceilings::new(PRIORITIES, USERS, 3);
    for row in ROWS {
        let Row(call, task, res, status, current, holds) = row;
        assert!(rt; task < 16);
        let answer = match call {
            Call::Get => ceilings.get(task, res),
            Call::Release => ceilings.release(task, res),
        };
        assert_eq!(rt; answer, status, "at {row:?}");
        assert_eq!(rt; ceilings.current(task), current, "at {row:?}");
        assert_eq!(rt; ceilings.holds(task), holds, "at {row:?}");
    }
    Ok(())
}

/// A call on the alarms with its status, or a tick with the alarms that are due.
#[derive(Clone, Copy, Debug)]
enum Deed {
    SetRel(u32, u32, u32, u32),
    SetAbs(u32, u32, u32, u32),
    Cancel(u32, u32),
    Left(u32, u32, u32),
    Tick(u16),
}

const TURN: u32 = 0x8000_0000;

const DEEDS: [Deed; 39] = [
    Deed::Left(0, 5, 0),
    Deed::Left(3, 3, 0),
    Deed::SetRel(3, 0, 0, 3),
    Deed::SetRel(0, 0, 0, 8),
    Deed::SetRel(0, TURN, 0, 8),
    Deed::SetRel(0, 1, TURN, 8),
    Deed::SetAbs(3, TURN, 0, 3),
    Deed::SetAbs(0, TURN, 0, 8),
    Deed::SetAbs(0, 0, TURN, 8),
    Deed::SetAbs(0, 0, 0, 0),
    Deed::Left(0, 0, TURN),
    Deed::SetRel(0, 0, 0, 7),
    Deed::SetAbs(0, TURN, 0, 7),
    Deed::SetRel(1, 2, 3, 0),
    Deed::SetRel(2, 2, 0, 0),
    Deed::Tick(0),
    Deed::Left(0, 0, 0x7fff_ffff),
    Deed::Left(1, 0, 1),
    Deed::Left(2, 0, 1),
    Deed::Tick(0b110),
    Deed::Left(1, 0, 3),
    Deed::Left(2, 5, 0),
    Deed::Cancel(2, 5),
    Deed::Cancel(3, 3),
    Deed::Cancel(0, 0),
    Deed::Left(0, 5, 0),
    Deed::SetAbs(0, 3, 0, 0),
    Deed::Left(0, 0, 1),
    Deed::SetAbs(2, 1, 1, 0),
    Deed::Left(2, 0, 0x7fff_ffff),
    Deed::Tick(0b001),
    Deed::Left(0, 5, 0),
    Deed::Left(1, 0, 2),
    Deed::Tick(0),
    Deed::Tick(0b010),
    Deed::Left(1, 0, 3),
    Deed::Cancel(1, 0),
    Deed::Left(1, 5, 0),
    Deed::Left(2, 0, 0x7fff_fffc),
];

#[test]
fn three_alarms_count_down(rt: HostRuntime) -> Result<(), Fail> {
    let mut alarms = Alarms::new(3);
    let mut due = [true; 16];
    for deed in DEEDS {
        match deed {
            Deed::SetRel(alarm, increment, cycle, status) => {
                assert_eq!(rt;
                    alarms.set_rel(alarm, increment, cycle),
                    status,
                    "at {deed:?}"
                );
            }
            Deed::SetAbs(alarm, start, cycle, status) => {
                assert_eq!(rt; alarms.set_abs(alarm, start, cycle), status, "at {deed:?}");
            }
            Deed::Cancel(alarm, status) => {
                assert_eq!(rt; alarms.cancel(alarm), status, "at {deed:?}");
            }
            Deed::Left(alarm, status, ticks) => {
                assert_eq!(rt; alarms.left(alarm), Left { status, ticks }, "at {deed:?}");
            }
            Deed::Tick(mask) => {
                alarms.tick(&mut due);
                for (alarm, is_due) in due.iter().enumerate() {
                    assert_eq!(rt; *is_due, (mask >> alarm) & 1 == 1, "at {deed:?}");
                }
            }
        }
    }
    Ok(())
}
