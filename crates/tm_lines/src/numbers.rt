//! The spelling of numbers and words.

ghost use Rattle.std.specs.Prelude.{◌≡◌, ◌<◌, ◌≤◌, ◌^◌, length, map, IfOk};
ghost use Rattle.tm_lines.specs.Steps.{Answers};
ghost use Rattle.tm_lines.specs.Numbers.{digit_in, hex_digit_in, decimal_in, hex_in, number_in, word_in, all_in};

use crate::Reason;
use std::alloc::Global;
use tm_marker::Items;

/// The value of a decimal digit.
fn digit_at(c: u8) -> Result<u8, Reason>
    ensures value { result ≡ digit_in c }
    ensures small { IfOk result (λ d. d < 10) }
{
    if c.is_ascii_digit() {
        Ok(c - b'0')
    } else {
        Err(Reason::Number)
    }
}

/// The value of a hexadecimal digit of either case.
fn hex_digit_at(c: u8) -> Result<u8, Reason>
    ensures value { result ≡ hex_digit_in c }
    ensures small { IfOk result (λ d. d < 16) }
{
    match c {
        b'a'..=b'f' => Ok(c - b'a' + 10),
        b'A'..=b'F' => Ok(c - b'A' + 10),
        _ => digit_at(c),
    }
}

/// A number of 32 bits in 1 to 10 decimal digits.
fn decimal_at(digits: &[u8]) -> Result<u32, Reason>
    ensures { result ≡ decimal_in digits.now }
{
    if digits.is_empty() || digits.len() > 10 {
        return Err(Reason::Number);
    }
    let mut number: u64 = 0;
    for c in digits {
        number = 10 * number + u64::from(digit_at(*c)?);
    }
    u32::try_from(number).map_err(|_| Reason::Number)
}

/// A number in hexadecimal digits, from `least` to `most` of them.
fn hex_at(least: usize, most: usize, digits: &[u8]) -> Result<u32, Reason>
    requires { most ≤ 8 }
    ensures { result ≡ hex_in least most digits.now }
{
    if digits.len() < least || most < digits.len() {
        return Err(Reason::Number);
    }
    let mut number: u32 = 0;
    for c in digits {
        number = 16 * number + u32::from(hex_digit_at(*c)?);
    }
    Ok(number)
}

/// A number: `0x` and 1 to 8 hexadecimal digits, or 1 to 10 decimal digits; its value is below 2^32.
#[tactic(auto, unfolding(crate::specs::Numbers::number_in))]
pub fn number_at(token: &[u8]) -> Result<u32, Reason>
    ensures { result ≡ number_in token.now }
{
    match token {
        [b'0', b'x', digits @ ..] => hex_at(1, 8, digits),
        _ => decimal_at(token),
    }
}

/// A word: eight hexadecimal digits.
#[tactic(auto, unfolding(crate::specs::Numbers::word_in))]
pub fn word_at(token: &[u8]) -> Result<u32, Reason>
    ensures { result ≡ word_in token.now }
{
    hex_at(8, 8, token)
}

/// The words that the tokens spell.
pub fn words_at(alloc: Global, tokens: &[&[u8]]) -> Result<Items<u32>, Reason>
    ensures { Answers (λ words. words) result (all_in word_in (map (λ token. token.now) tokens.now)) }
{
    let mut words = Items::new(alloc);
    for token in tokens {
        words.push(word_at(token)?)?;
    }
    Ok(words)
}

/// The numbers that the tokens spell.
pub fn numbers_at(alloc: Global, tokens: &[&[u8]]) -> Result<Items<u32>, Reason>
    ensures { Answers (λ numbers. numbers) result (all_in number_in (map (λ token. token.now) tokens.now)) }
{
    let mut numbers = Items::new(alloc);
    for token in tokens {
        numbers.push(number_at(token)?)?;
    }
    Ok(numbers)
}
