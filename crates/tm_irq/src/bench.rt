//! The bench: a table of interrupt words, with the seats that share it.
ghost use Rattle.std.specs.Prelude.{◌≡◌, ℕ, ◌<◌, ◌≤◌, ◌^◌, [], ◌++◌, map, length, All, IfOk, IfSome, IsSome, IsSomeAnd, vec_len};
ghost use Rattle.std.specs.List.{range_with_len};
ghost use Rattle.std.proofs.Props.{props};
ghost use Rattle.tm_irq.specs.Views.{homes, no_deeds};
ghost use Rattle.tm_irq.specs.Lists.{KernelLists, DeviceLists, deeds_of, deeds_lists, AreSeats};
ghost use Rattle.tm_irq.specs.Audit.{IsAudit, IsSettled, TakesFit, LatchesFit, GlancesFit, Balances, raises_in};

use crate::audit::Audit;
use crate::device_seat::DeviceSeat;
use crate::kernel_seat::KernelSeat;
use std::alloc::{AllocError, Global};

/// The seats of one table. It is open where `kernel` is there; each device's seat stands at the
/// device's number. Closed, it has the audit, and keeps the seat that all others joined.
#[derive(Drop)]
pub struct Bench {
    pub kernel: Option<KernelSeat>,
    pub devices: Vec<DeviceSeat>,
    pub closed: Option<Audit>,
    joined: Option<KernelSeat>,
    ghost kept: { IfSome kernel (λ k. AreSeats k devices.items) } by { Prim.hlevel props },
}

impl Bench {
    ghost use Rattle.tm_irq.specs.Bench.{bench_lists};

    /// An open bench with 1 to 8 devices. Every list is empty, no line pends, and each port is 0.
    pub fn new(alloc: Global, devices: u8) -> Result<Bench, AllocError>
        requires some { 0 < devices }
        requires few { devices ≤ 8 }
        ensures kernel { IfOk result (λ b. IsSomeAnd b.kernel (λ k. (k.devices ≡ devices) × (k.takes ≡ []) × (k.latches ≡ []) × (k.home ≡ []))) }
        ensures count { IfOk result (λ b. vec_len b.devices ≡ devices) }
        ensures devices { IfOk result (λ b. All (λ d. (d.raises ≡ []) × (d.stores ≡ [])) b.devices.items) }
        ensures lists { IfOk result (λ b. bench_lists b ≡ record { takes = []; latches = []; deeds = homes devices }) }
        ensures closed { IfOk result (λ b. b.closed ≡ None) }
    {
        let mut kernel = KernelSeat::new(alloc, devices)?;
        let seats = part(alloc, &mut kernel, devices)?;
        Ok(Bench {
            kernel: Some(kernel),
            devices: seats,
            closed: None,
            joined: None,
        })
    }

    /// Joins every device's seat into the kernel's, looks once more at the lines that pend, and
    /// counts. Afterwards the bench is closed, and its lists are as before.
    pub fn close(&mut self) -> Audit
        requires { IsSome self.old.kernel }
        ensures shut { self.new.kernel ≡ None }
        ensures closed { self.new.closed ≡ Some result }
        ensures lists { bench_lists self.new ≡ bench_lists self.old }
        ensures counts { IsAudit result (bench_lists self.old).takes (bench_lists self.old).deeds }
        ensures takes { TakesFit (bench_lists self.old).takes (bench_lists self.old).deeds }
        ensures latches { LatchesFit (bench_lists self.old).latches (bench_lists self.old).deeds }
        ensures glances { GlancesFit (bench_lists self.old).deeds }
        ensures settled { (pending : ℕ) × IsSettled (bench_lists self.old).takes (bench_lists self.old).latches (bench_lists self.old).deeds pending }
        ensures balance { raises_in (bench_lists self.old).deeds < 2 ^ 64 → (line : ℕ) → line < 16 → Balances result line }
    {
        let Some(mut kernel) = self.kernel.take() else {
            unreachable!()
        };
        gather(&mut kernel, &mut self.devices);
        let audit = kernel.audit();
        self.closed = Some(audit);
        self.joined = Some(kernel);
        audit
    }
}

/// A seat for each device, which leaves home.
fn part(alloc: Global, kernel: &mut KernelSeat, devices: u8) -> Result<Vec<DeviceSeat>, AllocError>
    requires { kernel.old.home ≡ homes devices }
    ensures seats { IfOk result (λ seats. seats.items ≡ map (λ n. deeds_lists kernel.old.table (no_deeds n)) (range_with_len 0 devices)) }
    ensures kernel { IfOk result (λ _. kernel.new ≡ record kernel.old { home = [] }) }
{
    let mut seats = Vec::with_capacity(alloc, usize::from(devices))?;
    for _ in 0..devices {
        let seat = kernel.split()?;
        seats.push(seat)?;
    }
    Ok(seats)
}

/// Each device comes home, the last first.
fn gather(kernel: &mut KernelSeat, devices: &mut Vec<DeviceSeat>)
    requires { All (λ d. d.table ≡ kernel.old.table) devices.old.items }
    ensures kernel { kernel.new ≡ record kernel.old { home = map deeds_of devices.old.items ++ kernel.old.home } }
    ensures devices { devices.new.items ≡ [] }
{
    while let Some(device) = devices.pop() {
        kernel.join(device);
    }
}
