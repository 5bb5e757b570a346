//! The table of five words under its rule, and a name for each kind of step.
use crate::views::View;
use atomic_table::{Join, Play, Split, Table, TableRule};
use std::alloc::Global;

/// The number of interrupt lines.
pub const LINES: usize = 16;

/// The number of input ports.
pub const PORTS: usize = 4;

/// Word 0 has the bits of the lines that pend in its low 16 bits, and above them the number of takes.
/// The ports are the words after it. The key is the number of devices.
pub(crate) type Board = Table<(), View, u8, Lines, Global>;

/// The rule of the five words.
pub struct Lines;

impl TableRule<(), View, u8> for Lines {
    ghost use Rattle.tm_irq.specs.Rule.{Keeps};
    ghost use Rattle.tm_irq.specs.Views.{kernel_view, homes};

    ghost holds = { Keeps };

    ghost first = { λ devices. kernel_view devices (homes devices) };
}

/// A raise of a line.
pub struct Raising;

impl Play<(), View> for Raising {
    ghost use Rattle.tm_irq.specs.Steps.{Raises};

    ghost then = { Raises };
}

/// A take of all lines that pend.
pub struct Taking;

impl Play<(), View> for Taking {
    ghost use Rattle.tm_irq.specs.Steps.{Takes};

    ghost then = { Takes };
}

/// A store in a port.
pub struct Setting;

impl Play<(), View> for Setting {
    ghost use Rattle.tm_irq.specs.Steps.{Sets};

    ghost then = { Sets };
}

/// A load of a port for a latch that goes on.
pub struct Latching;

impl Play<(), View> for Latching {
    ghost use Rattle.tm_irq.specs.Steps.{Latches};

    ghost then = { Latches };
}

/// The load of the last port of a latch.
pub struct EndingLatch;

impl Play<(), View> for EndingLatch {
    ghost use Rattle.tm_irq.specs.Steps.{EndsLatch};

    ghost then = { EndsLatch };
}

/// A load of word 0 that changes no word.
pub struct Glancing;

impl Play<(), View> for Glancing {
    ghost use Rattle.tm_irq.specs.Steps.{Glances};

    ghost then = { Glances };
}

/// The first device that is home gets a seat of its own.
pub struct Parting;

impl Split<View> for Parting {
    ghost use Rattle.tm_irq.specs.Views.{without_first, only_first};

    ghost left = { without_first };

    ghost right = { only_first };
}

/// A device and its deeds come home, and its seat is spent.
pub struct Homing;

impl Join<View> for Homing {
    ghost use Rattle.tm_irq.specs.Views.{with_home, spent_view};

    ghost both = { with_home };

    ghost spent = { spent_view };
}

/// The last glance, with every device home.
pub struct Settling;

impl Play<(), View> for Settling {
    ghost use Rattle.tm_irq.specs.Steps.{Settles};

    ghost then = { Settles };
}
