//! A device's seat: it raises lines, sets ports and looks at the lines that pend.
ghost use Rattle.std.specs.Prelude.{◌≡◌, ℕ, ◌<◌, [], ◌∷◌, ◌++◌};
ghost use Rattle.tm_irq.specs.Lists.{DeviceLists};
ghost use Rattle.tm_irq.specs.Raised.{is_joined_answer};

use crate::rule::{Board, Glancing, Raising, Setting};
use crate::tally::Tally;
use crate::views::View;
use atomic_table::Seat;
use std::marker::Model;
use std::sync::Arc;

/// What a raise found.
#[derive(Clone, Copy, PartialEq, Eq, Debug)]
pub enum Raised {
    /// The line's bit was clear, and the next take has the line because of this raise.
    Fresh,
    /// The line's bit was set already.
    Joined,
}

/// The seat of one device. Contracts see its table, the device's number, and the lists `raises`, `stores`
/// and `glances` of what was done at it.
#[derive(Drop)]
pub struct DeviceSeat {
    pub(crate) table: Arc<Board>,
    pub(crate) seat: Seat<(), View>,
    pub(crate) raised: Tally,
    pub(crate) joined: Tally,
}

impl Model for DeviceSeat {
    ghost use Rattle.std.specs.Arc.{arc_value};
    ghost use Rattle.tm_irq.specs.Lists.{DeviceLists, device_lists};
    ghost use Rattle.tm_irq.specs.Seats.{IsDeviceSeat};

    ghost Value = { DeviceLists };

    ghost view = { λ s. device_lists s.seat };

    ghost invariant = { λ s. IsDeviceSeat (arc_value s.table).shared.table_id s.seat s.raised.counts s.joined.counts };
}

impl DeviceSeat {
    /// Sets the bit of a line, below 16. The answer is `Joined` exactly where the bit was set already.
    pub fn raise(&mut self, line: u8) -> Raised
        requires { line < 16 }
        ensures raises { (number : ℕ) × (self.new.raises ≡ self.old.raises ++ record { line = line; joined = is_joined_answer result; number = number } ∷ []) }
        ensures stores { self.new.stores ≡ self.old.stores }
        ensures glances { self.new.glances ≡ self.old.glances }
        ensures device { self.new.device ≡ self.old.device }
        ensures table { self.new.table ≡ self.old.table }
    {
        let found = self
            .table
            .shared
            .fetch_or::<Raising>(&mut self.seat, 0, 1 << line);
        self.raised.add(line);
        if (found >> line) & 1 == 0 {
            return Raised::Fresh;
        }
        self.joined.add(line);
        Raised::Joined
    }

    /// Stores a value in a port, below 4.
    pub fn set(&mut self, port: u8, value: u32)
        requires { port < 4 }
        ensures stores { self.new.stores ≡ self.old.stores ++ record { port = port; value = value } ∷ [] }
        ensures raises { self.new.raises ≡ self.old.raises }
        ensures glances { self.new.glances ≡ self.old.glances }
        ensures device { self.new.device ≡ self.old.device }
        ensures table { self.new.table ≡ self.old.table }
    {
        self.table
            .shared
            .store::<Setting>(&mut self.seat, usize::from(port) + 1, u64::from(value));
    }

    /// The lines that pend, as a mask below 65,536.
    pub fn glance(&mut self) -> u32
        ensures mask { result < 65536 }
        ensures glances { (number : ℕ) × (self.new.glances ≡ self.old.glances ++ record { mask = result; number = number; before = self.old.raises } ∷ []) }
        ensures raises { self.new.raises ≡ self.old.raises }
        ensures stores { self.new.stores ≡ self.old.stores }
        ensures device { self.new.device ≡ self.old.device }
        ensures table { self.new.table ≡ self.old.table }
    {
        let found = self.table.shared.load::<Glancing>(&mut self.seat, 0);
        (found % 65536) as u32
    }
}
