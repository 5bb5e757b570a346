//! What an address of a task reaches, and the bytes of words.

ghost use Rattle.std.specs.Prelude.{◌≡◌, ◌+◌, ◌-◌, ◌*◌, ◌/◌, ◌%◌, ◌^◌, ◌<◌, ◌≤◌};
ghost use Rattle.tm_task.specs.Memory.{data_start, in_text, in_data, part_of, spliced, IsSize};

/// The address at which a task's data starts; its text starts at 0.
pub const DATA_START: u32 = 0x1000_0000;

/// Whether the address is in the text.
#[inline]
pub(crate) fn is_in_text(text: &[u32], address: u32) -> bool
    ensures { result ≡ in_text text.now address }
{
    ((address / 4) as usize) < text.len()
}

/// Whether the address is in the data.
#[inline]
pub(crate) fn is_in_data(words: &[u32], address: u32) -> bool
    ensures { result ≡ in_data words.now address }
{
    address >= DATA_START && data_index(address) < words.len()
}

/// The index of the data word that holds the byte at an address.
#[inline]
pub(crate) fn data_index(address: u32) -> usize
    requires { data_start ≤ address }
    ensures { result ≡ (address - data_start) / 4 }
{
    ((address - DATA_START) / 4) as usize
}

/// The number that 1, 2 or 4 bytes of a word make, from byte `from` on.
#[inline]
#[tactic(auto, using(crate::proofs::Bytes::part_1, crate::proofs::Bytes::part_2, crate::proofs::Bytes::part_4, crate::proofs::Bytes::part_below))]
pub(crate) fn part(word: u32, from: u32, size: u32) -> u32
    requires size { IsSize size }
    requires within { from + size ≤ 4 }
    ensures value { result ≡ part_of word from size }
    ensures small { result < 2 ^ (8 * size) }
{
    let rest = word >> (8 * from);
    match size {
        1 => rest % 0x100,
        2 => rest % 0x1_0000,
        _ => rest,
    }
}

/// A word with 1, 2 or 4 of its bytes, from byte `from` on, replaced by the low ones of a value.
#[inline]
#[tactic(auto, using(crate::proofs::Bytes::splice_is))]
pub(crate) fn splice(word: u32, from: u32, size: u32, value: u32) -> u32
    requires size { IsSize size }
    requires within { from + size ≤ 4 }
    ensures { result ≡ spliced word from size value }
{
    let replaced = part(word, from, size) << (8 * from);
    let placed = part(value, 0, size) << (8 * from);
    word.wrapping_sub(replaced).wrapping_add(placed)
}
