//! The numbers that words spell.

ghost use Rattle.std.specs.Prelude.{◌≡◌, ◌≤◌, ◌-◌, ◌^◌, IsTrue, IfSome, length};
ghost use Rattle.std.specs.List.{list_all};
ghost use Rattle.tm_words.specs.Numbers.{is_digit, digits_value, number_in, task_in};

/// The point from which a replay begins: 0 to 2^64 - 1.
pub(crate) fn point_in(text: &str) -> Option<u64>
    ensures { result ≡ number_in 0 (2 ^ 64 - 1) text.now }
{
    number_in(0, u64::MAX, text)
}

/// The workers of a replay: 1 to 16.
pub(crate) fn workers_in(text: &str) -> Option<u8>
    ensures { result ≡ number_in 1 16 text.now }
{
    match number_in(1, 16, text) {
        Some(number) => Some(number as u8),
        None => None,
    }
}

/// The slices of a run beside devices, or the instructions of each: 0 to 1,048,576.
pub(crate) fn count_in(text: &str) -> Option<u32>
    ensures { result ≡ number_in 0 1048576 text.now }
{
    match number_in(0, 1_048_576, text) {
        Some(number) => Some(number as u32),
        None => None,
    }
}

/// The observers of a run: 1 to 4.
pub(crate) fn observers_in(text: &str) -> Option<u8>
    ensures { result ≡ number_in 1 4 text.now }
{
    match number_in(1, 4, text) {
        Some(number) => Some(number as u8),
        None => None,
    }
}

/// The looks of an observer: 1 to 1,000.
pub(crate) fn looks_in(text: &str) -> Option<u16>
    ensures { result ≡ number_in 1 1000 text.now }
{
    match number_in(1, 1_000, text) {
        Some(number) => Some(number as u16),
        None => None,
    }
}

/// The number of a task: 0 to 15, in one or two digits.
#[tactic(auto, unfolding(crate::specs::Numbers::task_in))]
pub(crate) fn task_in(text: &str) -> Option<u8>
    ensures { result ≡ task_in text.now }
{
    if text.len() > 2 {
        return None;
    }
    match number_in(0, 15, text) {
        Some(number) => Some(number as u8),
        None => None,
    }
}

/// The number of a generated run: 0 to 2^32 - 1.
pub(crate) fn seed_in(text: &str) -> Option<u32>
    ensures { result ≡ number_in 0 (2 ^ 32 - 1) text.now }
{
    match number_in(0, u64::from(u32::MAX), text) {
        Some(number) => Some(number as u32),
        None => None,
    }
}

/// The number that 1 to 20 decimal digits spell, where it is in a range.
#[tactic(auto, unfolding(crate::specs::Numbers::number_in))]
pub(crate) fn number_in(least: u64, most: u64, text: &str) -> Option<u64>
    ensures number { result ≡ number_in least most text.now }
    ensures range { IfSome result (λ number. (least ≤ number) × (number ≤ most)) }
{
    let digits = text.as_bytes();
    if digits.is_empty() || digits.len() > 20 || !are_digits(digits) {
        return None;
    }
    let number = u64::try_from(digits_value(digits)).ok()?;
    if least <= number && number <= most {
        Some(number)
    } else {
        None
    }
}

fn are_digits(digits: &[u8]) -> bool
    ensures { result ≡ list_all is_digit digits.now }
{
    digits.iter().all(|c| c.is_ascii_digit())
}

/// The number that at most 20 decimal digits spell.
fn digits_value(digits: &[u8]) -> u128
    requires few { length digits.now ≤ 20 }
    requires digits { IsTrue (list_all is_digit digits.now) }
    ensures { result ≡ digits_value digits.now }
{
    let mut value: u128 = 0;
    for c in digits {
        value = 10 * value + u128::from(*c - b'0');
    }
    value
}
