//! The shapes of an answer: the caller goes on, is told words, or leaves the processor.

ghost use Rattle.std.specs.Prelude.{◌≡◌, None, [], ◌∷◌};
ghost use Rattle.tm_marker.specs.Service.{service_number};
ghost use Rattle.tm_kernel.specs.Service.{entry_of};

use super::{Answer, Need};
use crate::{E_OK, E_OS_NOFUNC};
use tm_marker::{DataEntry, Kind, Service};

/// An answer with no words that leaves the caller running.
pub(super) fn goes_on(service: Service, status: u32) -> Answer
    ensures { result ≡ record { entry = entry_of (service_number service) status; output = None; need = Need.Goes } }
{
    Answer {
        entry: entry_of(service.number(), status),
        output: None,
        need: Need::Goes,
    }
}

/// An answer with four words that leaves the caller running.
pub(super) fn tells_words(service: Service, words: [u32; 4]) -> Answer
    ensures { result ≡ record { entry = record { service = service_number service; status = E_OK; words = words }; output = None; need = Need.Goes } }
{
    Answer {
        entry: DataEntry {
            service: service.number(),
            status: E_OK,
            words,
        },
        output: None,
        need: Need::Goes,
    }
}

/// An answer with one word that leaves the caller running.
pub(super) fn tells(service: Service, word: u32) -> Answer
    ensures { result ≡ record { entry = record { service = service_number service; status = E_OK; words = word ∷ 0 ∷ 0 ∷ 0 ∷ [] }; output = None; need = Need.Goes } }
{
    tells_words(service, [word, 0, 0, 0])
}

/// The answer to a caller that leaves the processor.
pub(super) fn leaves(service: Service, kind: Kind) -> Answer
    ensures { result ≡ record { entry = entry_of (service_number service) E_OK; output = None; need = Need.Leaves kind } }
{
    Answer {
        entry: entry_of(service.number(), E_OK),
        output: None,
        need: Need::Leaves(kind),
    }
}

/// The answer to a call of a number that no service has.
pub(super) fn unserved(number: u8) -> Answer
    ensures { result ≡ record { entry = entry_of number E_OS_NOFUNC; output = None; need = Need.Goes } }
{
    Answer {
        entry: entry_of(number, E_OS_NOFUNC),
        output: None,
        need: Need::Goes,
    }
}

pub(super) fn entry_of(number: u8, status: u32) -> DataEntry
    ensures { result ≡ entry_of number status }
{
    DataEntry {
        service: number,
        status,
        words: [0; 4],
    }
}
