//! The loads of an executable, and the first that is refused.

ghost use Rattle.std.specs.Prelude.{◌≡◌, ◌+◌, ◌≤◌, ◌<◌, None, Some, OnOk, IfOk, IfErr};
ghost use Rattle.arrayvec.specs.ArrayVec.{array_vec_len};
ghost use Rattle.tm_elf.specs.Fields.{header_count};
ghost use Rattle.tm_elf.specs.Loads.{loads_before, loads_of};
ghost use Rattle.tm_elf.specs.Elf.{unless, HasHeaders, why_refused, segment_fault, wrong_segment};

use crate::fields::{header_count, header_place};
use crate::header::{ProgramHeader, TEXT_START, overlaps_any};
use crate::{ElfFault, Why};
use arrayvec::ArrayVec;
use tm_marker::DATA_START;

/// The most program headers of an executable.
const MOST_HEADERS: usize = 64;

/// The loads of an executable, in the order of its program headers.
pub(crate) type Loads = ArrayVec<ProgramHeader, MOST_HEADERS>;

/// Why a load is refused, if it is: by itself, or beside the loads before it.
fn refusal(bytes: &[u8], earlier: &[ProgramHeader], load: &ProgramHeader) -> Option<Why>
    ensures { result ≡ why_refused bytes.now earlier.now load.now }
{
    if load.is_past_file(bytes) {
        Some(Why::PastFile)
    } else if load.has_more_in_file() {
        Some(Why::MoreInFile)
    } else if !load.is_within(TEXT_START) && !load.is_within(DATA_START) {
        Some(Why::Outside)
    } else if overlaps_any(load, earlier) {
        Some(Why::Overlap)
    } else {
        None
    }
}

/// Adds what the program header of this number loads, if it is one of a load, to the loads before it.
fn add_load(bytes: &[u8], number: u16, loads: &mut Loads) -> Result<(), ElfFault>
    requires headers { HasHeaders bytes.now }
    requires there { number < header_count bytes.now }
    requires before { loads.old.items ≡ loads_before bytes.now number }
    requires few { array_vec_len loads.old ≤ number }
    ensures fault { result ≡ unless (segment_fault bytes.now number) tt }
    ensures added { OnOk result (loads.new.items ≡ loads_before bytes.now (number + 1)) }
    ensures few { array_vec_len loads.new ≤ number + 1 }
{
    let header = ProgramHeader::at(bytes, header_place(bytes, number) as usize);
    if !header.is_load() {
        return Ok(());
    }
    match refusal(bytes, loads.as_slice(), &header) {
        Some(why) => Err(ElfFault::Segment { index: number, why }),
        None => {
            loads.push(header);
            Ok(())
        }
    }
}

/// The loads, or the first that is refused.
pub(crate) fn read_loads(bytes: &[u8]) -> Result<Loads, ElfFault>
    requires { HasHeaders bytes.now }
    ensures loads { IfOk result (λ loads. (wrong_segment bytes.now ≡ None) × (loads.items ≡ loads_of bytes.now)) }
    ensures fault { IfErr result (λ fault. wrong_segment bytes.now ≡ Some fault) }
{
    let mut loads = Loads::new();
    for number in 0..header_count(bytes) {
        add_load(bytes, number, &mut loads)?;
    }
    Ok(loads)
}
