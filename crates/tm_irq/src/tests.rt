//! What no clause says: that a take takes what was raised, that a latch has what was set last, and
//! that threads raise beside takes.
ghost use Rattle.std.specs.Prelude.{◌≡◌, ℕ, ◌<◌, ◌^◌, length, slice_index_or, vec_len, IsSome, IsSomeAnd};
ghost use Rattle.std.specs.Thread.{IsSync};
ghost use Rattle.tm_irq.specs.Lists.{DeviceLists};

use crate::{Bench, DeviceSeat, KernelSeat, Raised};
use std::test::Fail;
use std::thread;
use std::thread::{Threads, join_mut};

/// Raises a line by a device.
fn raise(bench: &mut Bench, device: usize, line: u8) -> Raised
    requires device { device < vec_len bench.old.devices }
    requires line { line < 16 }
    ensures kernel { bench.new.kernel ≡ bench.old.kernel }
    ensures devices { vec_len bench.new.devices ≡ vec_len bench.old.devices }
{
    bench.devices[device].raise(line)
}

/// Takes the lines that pend.
fn take(bench: &mut Bench) -> u32
    requires { IsSomeAnd bench.old.kernel (λ k. length k.takes < 2 ^ 47) }
    ensures kernel { IsSome bench.new.kernel }
    ensures devices { vec_len bench.new.devices ≡ vec_len bench.old.devices }
{
    let Some(kernel) = &mut bench.kernel else {
        unreachable!()
    };
    kernel.take()
}

#[test]
fn a_take_has_each_line_once(rt: HostRuntime) -> Result<(), Fail> {
    for (late, raised, pending) in [(false, 4, 0), (true, 5, 1)] {
        let mut bench = Bench::new(rt.alloc(), 8)?;
        let answers = [
            raise(&mut bench, 0, 3),
            raise(&mut bench, 0, 3),
            raise(&mut bench, 1, 3),
            raise(&mut bench, 1, 3),
        ];
        assert!(rt;
            answers
                == [
                    Raised::Fresh,
                    Raised::Joined,
                    Raised::Joined,
                    Raised::Joined
                ]
        );
        assert_eq!(rt; take(&mut bench), 8);
        if late {
            assert!(rt; raise(&mut bench, 0, 3) == Raised::Fresh);
        }
        let audit = bench.close();
        assert_eq!(rt; audit.raised[3], raised);
        assert_eq!(rt; audit.joined[3], 3);
        assert_eq!(rt; audit.taken[3], 1);
        assert_eq!(rt; audit.pending[3], pending);
        assert!(rt; bench.kernel.is_none() && bench.closed == Some(audit));
    }
    Ok(())
}

#[test]
fn a_latch_has_what_was_set_last(rt: HostRuntime) -> Result<(), Fail> {
    let mut bench = Bench::new(rt.alloc(), 8)?;
    bench.devices[0].set(2, 5);
    bench.devices[0].set(2, 9);
    let Some(kernel) = &mut bench.kernel else {
        unreachable!()
    };
    assert!(rt; kernel.latch() == [0, 0, 9, 0]);
    Ok(())
}

#[test]
fn a_glance_sees_the_lines_that_pend(rt: HostRuntime) -> Result<(), Fail> {
    let mut bench = Bench::new(rt.alloc(), 2)?;
    raise(&mut bench, 0, 3);
    raise(&mut bench, 1, 5);
    assert_eq!(rt; bench.devices[0].glance(), 40);
    assert_eq!(rt; bench.devices[1].glance(), 40);
    assert_eq!(rt; take(&mut bench), 40);
    assert_eq!(rt; bench.devices[1].glance(), 0);
    Ok(())
}

const RAISES: u32 = 10_000;

const TAKES: u64 = 2_000;

/// Raises line 5 so often.
fn raise_often(device: &mut DeviceSeat)
    ensures table { device.new.table ≡ device.old.table }
    ensures device { device.new.device ≡ device.old.device }
{
    for _ in 0..RAISES {
        device.raise(5);
    }
}

/// Takes so often, beside the raises.
fn take_often(kernel: &mut KernelSeat)
    requires { length kernel.old.takes < 2 ^ 40 }
    ensures table { kernel.new.table ≡ kernel.old.table }
    ensures devices { kernel.new.devices ≡ kernel.old.devices }
    ensures home { kernel.new.home ≡ kernel.old.home }
{
    for _ in 0..TAKES {
        kernel.take();
    }
}

/// Raises by every device in a thread of its own, beside takes.
fn run_all<R: Threads + Sync>(rt: &R, kernel: &mut KernelSeat, devices: &mut [DeviceSeat])
    requires { length kernel.old.takes < 2 ^ 40 }
    ensures kernel { (kernel.new.table ≡ kernel.old.table) × (kernel.new.devices ≡ kernel.old.devices) × (kernel.new.home ≡ kernel.old.home) }
    ensures devices { (i : ℕ) (d : DeviceLists) → i < length devices.old → ((slice_index_or devices.new i d).table ≡ (slice_index_or devices.old i d).table) × ((slice_index_or devices.new i d).device ≡ (slice_index_or devices.old i d).device) }
{
    join_mut(
        rt,
        &mut ||
            requires { length kernel.now.takes < 2 ^ 40 }
            ensures { (kernel.exit.now.table ≡ kernel.entry.now.table) × (kernel.exit.now.devices ≡ kernel.entry.now.devices) × (kernel.exit.now.home ≡ kernel.entry.now.home) }
        { take_often(kernel) },
        &mut ||
            requires { IsSync R.row }
            ensures { (i : ℕ) (d : DeviceLists) → i < length devices.entry.now → ((slice_index_or devices.exit.now i d).table ≡ (slice_index_or devices.entry.now i d).table) × ((slice_index_or devices.exit.now i d).device ≡ (slice_index_or devices.entry.now i d).device) }
        {
            thread::for_each_mut(rt, devices, 8, &|_, device| raise_often(device));
        },
    );
}

#[test]
fn what_eight_threads_raise_balances(rt: HostRuntime) -> Result<(), Fail> {
    let mut bench = Bench::new(rt.alloc(), 8)?;
    let Some(mut kernel) = bench.kernel.take() else {
        unreachable!()
    };
    run_all(&rt, &mut kernel, bench.devices.as_mut_slice());
    bench.kernel = Some(kernel);
    let audit = bench.close();
    assert_eq!(rt; audit.raised[5], 80_000);
    let taken = audit.taken[5].saturating_add(audit.pending[5]);
    assert_eq!(rt; audit.joined[5].saturating_add(taken), 80_000);
    assert!(rt; audit.taken[5] <= TAKES && audit.pending[5] <= 1);
    Ok(())
}
