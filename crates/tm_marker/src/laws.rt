//! The numbers of this crate, as figures. Each function here does nothing: its clauses are the laws.

ghost use Rattle.std.specs.Prelude.{◌≡◌, ℕ, Some};
ghost use Rattle.tm_marker.specs.declared.service.Service.{Service};
ghost use Rattle.tm_marker.specs.Service.{service_number, service_of};
ghost use Rattle.tm_marker.specs.Shape.{IsRingCap, IsCheckCap, IsWordCount};

use crate::{
    Caps, DATA_START, EPOCH_LENGTH, FAULTED, GOES_ON, LINES, LONGEST_SLICE, MOST_CHECKPOINTS,
    MOST_ITEMS, MOST_TASKS, MOST_WORDS, Marker, NOBODY, PORTS, READY, REGISTERS, RUNNING,
    SHUT_DOWN, SUSPENDED, WAITING,
};

/// What the constants of a marker, a body, a slice and a tail are.
pub fn constants_are()
    ensures epoch { EPOCH_LENGTH ≡ 1048576 }
    ensures zero { Marker.ZERO ≡ record { epoch = 0; count = 0; pc = 0 } }
    ensures registers { REGISTERS ≡ 31 }
    ensures data { DATA_START ≡ 0x10000000 }
    ensures slice { LONGEST_SLICE ≡ 1048576 }
    ensures lines { LINES ≡ 16 }
    ensures ports { PORTS ≡ 4 }
    ensures nobody { NOBODY ≡ 255 }
    ensures goes_on { GOES_ON ≡ 0 }
    ensures faulted { FAULTED ≡ 1 }
    ensures shut_down { SHUT_DOWN ≡ 2 }
    ensures suspended { SUSPENDED ≡ 0 }
    ensures ready { READY ≡ 1 }
    ensures running { RUNNING ≡ 2 }
    ensures waiting { WAITING ≡ 3 }
{}

/// What the constants of a shape are.
pub fn sizes_are()
    ensures caps { Caps.DEFAULT ≡ record { control = 256; logs = 256; outputs = 256; checks = 4 } }
    ensures tasks { MOST_TASKS ≡ 16 }
    ensures words { MOST_WORDS ≡ 16384 }
    ensures items { MOST_ITEMS ≡ 65536 }
    ensures checkpoints { MOST_CHECKPOINTS ≡ 64 }
{}

/// The greatest sizes of a recorder's buffers, and those that are one more.
pub fn sizes_end()
    ensures ring { IsRingCap 65536 }
    ensures greater_ring { IsRingCap 65537 → ⊥ }
    ensures checks { IsCheckCap 64 }
    ensures greater_checks { IsCheckCap 65 → ⊥ }
    ensures words { IsWordCount 16384 }
    ensures greater_words { IsWordCount 16385 → ⊥ }
{}

/// Every service has a number of its own.
#[tactic(auto, unfolding(crate::specs::Service::service_of))]
pub fn services_have_numbers()
    ensures found { (service : Service) → service_of (service_number service) ≡ Some service }
    ensures only { (number : ℕ) (service : Service) → service_of number ≡ Some service → service_number service ≡ number }
{}
