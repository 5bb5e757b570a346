//! The kernel's seat: it takes the lines that pend and latches the ports.
ghost use Rattle.std.specs.Prelude.{◌≡◌, ℕ, ◌<◌, ◌^◌, [], ◌∷◌, ◌++◌, length, IfOk, OnOk};
ghost use Rattle.tm_irq.specs.Views.{homes, no_deeds, other_deeds};
ghost use Rattle.tm_irq.specs.Audit.{AllHome, IsAudit, IsSettled};
ghost use Rattle.tm_irq.specs.Lists.{KernelLists, only, deeds_of, deeds_lists};
ghost use Rattle.tm_irq.specs.Seats.{Reads};

use crate::audit::Audit;
use crate::device_seat::DeviceSeat;
use crate::rule::{Board, EndingLatch, Homing, Latching, PORTS, Parting, Settling, Taking};
use crate::tally::Tally;
use crate::views::View;
use atomic_table::Seat;
use std::alloc::{AllocError, Global};
use std::marker::Model;
use std::sync::Arc;

/// The seat of the kernel. Contracts see its table, the number of the table's devices, the lists
/// `takes` and `latches` of what was done at it, and the deeds of the devices that are home with it.
#[derive(Drop)]
pub struct KernelSeat {
    table: Arc<Board>,
    seat: Seat<(), View>,
    number: u64,
    raised: Tally,
    joined: Tally,
    taken: Tally,
}

impl Model for KernelSeat {
    ghost use Rattle.std.specs.Arc.{arc_value};
    ghost use Rattle.tm_irq.specs.Lists.{KernelLists, kernel_lists};
    ghost use Rattle.tm_irq.specs.Seats.{IsKernelSeat};

    ghost Value = { KernelLists };

    ghost view = { λ s. kernel_lists s.seat };

    ghost invariant = { λ s. IsKernelSeat (arc_value s.table).shared.table_id s.seat s.number s.raised.counts s.joined.counts s.taken.counts };
}

impl KernelSeat {
    /// A new table, with every device home. No line pends and each port is 0.
    pub(crate) fn new(alloc: Global, devices: u8) -> Result<KernelSeat, AllocError>
        ensures { IfOk result (λ k. (k.devices ≡ devices) × (k.takes ≡ []) × (k.latches ≡ []) × (k.home ≡ homes devices)) }
    {
        let (table, seat) = Board::of_words(alloc, &[0; 5], &devices)?;
        let table = Arc::new(alloc, table)?;
        Ok(KernelSeat {
            table,
            seat,
            number: 0,
            raised: Tally::none(),
            joined: Tally::none(),
            taken: Tally::none(),
        })
    }

    /// The first device that is home gets a seat of its own.
    pub(crate) fn split(&mut self) -> Result<DeviceSeat, AllocError>
        requires { self.old.home ≡ no_deeds (only self.old.home).device ∷ other_deeds self.old.home }
        ensures seat { IfOk result (λ d. d ≡ deeds_lists self.old.table (no_deeds (only self.old.home).device)) }
        ensures home { OnOk result (self.new ≡ record self.old { home = other_deeds self.old.home }) }
    {
        let table = Arc::try_clone(&self.table)?;
        let seat = self.table.shared.split_seat::<Parting>(&mut self.seat);
        Ok(DeviceSeat {
            table,
            seat,
            raised: Tally::none(),
            joined: Tally::none(),
        })
    }

    /// A device comes home with its lists.
    pub(crate) fn join(&mut self, device: DeviceSeat)
        requires { device.table ≡ self.old.table }
        ensures { self.new ≡ record self.old { home = deeds_of device ∷ self.old.home } }
    {
        let DeviceSeat {
            table: _,
            seat,
            raised,
            joined,
        } = device;
        self.table.shared.join_seat::<Homing>(&mut self.seat, seat);
        self.raised.add_all(&raised);
        self.joined.add_all(&joined);
    }

    /// Takes the lines that pend, a mask below 65,536; none pends afterwards.
    pub fn take(&mut self) -> u32
        requires { length self.old.takes < 2 ^ 47 }
        ensures mask { result < 65536 }
        ensures takes { self.new.takes ≡ self.old.takes ++ result ∷ [] }
        ensures latches { self.new.latches ≡ self.old.latches }
        ensures home { self.new.home ≡ self.old.home }
        ensures devices { self.new.devices ≡ self.old.devices }
        ensures table { self.new.table ≡ self.old.table }
    {
        let number = self.number + 1;
        let found = self
            .table
            .shared
            .swap::<Taking>(&mut self.seat, 0, number * 65536);
        let mask = (found % 65536) as u32;
        self.number = number;
        self.taken.add_mask(mask);
        mask
    }

    /// Reads the four ports, one after the other.
    pub fn latch(&mut self) -> [u32; PORTS]
        ensures latches { self.new.latches ≡ self.old.latches ++ result ∷ [] }
        ensures takes { self.new.takes ≡ self.old.takes }
        ensures home { self.new.home ≡ self.old.home }
        ensures devices { self.new.devices ≡ self.old.devices }
        ensures table { self.new.table ≡ self.old.table }
    {
        let first = read_port(&self.table, &mut self.seat, 0);
        let second = read_port(&self.table, &mut self.seat, 1);
        let third = read_port(&self.table, &mut self.seat, 2);
        let last = read_last_port(&self.table, &mut self.seat);
        [first, second, third, last]
    }

    /// Counts the lists, with every device home.
    pub(crate) fn audit(&mut self) -> Audit
        requires { AllHome self.old.devices self.old.home }
        ensures lists { self.new ≡ self.old }
        ensures counts { IsAudit result self.old.takes self.old.home }
        ensures settled { (pending : ℕ) × IsSettled self.old.takes self.old.latches self.old.home pending }
    {
        let found = self.table.shared.load::<Settling>(&mut self.seat, 0);
        let mut pending = Tally::none();
        pending.add_mask((found % 65536) as u32);
        Audit {
            raised: self.raised.counts,
            joined: self.joined.counts,
            taken: self.taken.counts,
            pending: pending.counts,
        }
    }
}

/// Reads a port for a latch that goes on; so many ports were read for it before.
fn read_port(table: &Board, seat: &mut Seat<(), View>, port: usize) -> u32
    requires { Reads table.now.shared.table_id seat.old port }
    ensures same { (seat.new.table_id ≡ seat.old.table_id) × (seat.new.id ≡ seat.old.id) }
    ensures word { seat.new.me ≡ (record seat.old.me.0 { latching = seat.old.me.0.latching ++ result ∷ [] }, seat.old.me.1) }
{
    table.shared.load::<Latching>(seat, port + 1) as u32
}

/// Reads the last port of a latch.
fn read_last_port(table: &Board, seat: &mut Seat<(), View>) -> u32
    requires { Reads table.now.shared.table_id seat.old 3 }
    ensures same { (seat.new.table_id ≡ seat.old.table_id) × (seat.new.id ≡ seat.old.id) }
    ensures latch { seat.new.me ≡ (record seat.old.me.0 { latches = seat.old.me.0.latches ++ (seat.old.me.0.latching ++ result ∷ []) ∷ []; latching = [] }, seat.old.me.1) }
{
    table.shared.load::<EndingLatch>(seat, PORTS) as u32
}
