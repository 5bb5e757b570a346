//! The tokens of which the lines are made.

ghost use Rattle.std.specs.Prelude.{◌≡◌, ◌<◌, ◌∷◌, ◌++◌, map, flat_map, decimal, OnOk, All};
ghost use Rattle.tm_spelling.specs.Lines.{digit, hex8};
ghost use Rattle.tm_image_text.specs.Prefix.{Keeps};
ghost use Rattle.tm_image_text.specs.Numbers.{IsWord};
ghost use Rattle.tm_image_text.specs.Lines.{spaced, users_of};

use itoa::Buffer;
use std::alloc::AllocError;

pub fn put(text: &[u8], into: &mut Vec<u8>) -> Result<(), AllocError>
    ensures ok { OnOk result (into.new.items ≡ into.old.items ++ text.now) }
    ensures keeps { Keeps into.old.items into.new.items }
{
    into.extend_from_slice(text)
}

/// A space and a token.
pub fn put_token(token: &[u8], into: &mut Vec<u8>) -> Result<(), AllocError>
    ensures ok { OnOk result (into.new.items ≡ into.old.items ++ spaced token.now) }
    ensures keeps { Keeps into.old.items into.new.items }
{
    put(b" ", into)?;
    put(token, into)
}

/// A space and a number in decimal.
pub fn put_number(number: u32, into: &mut Vec<u8>) -> Result<(), AllocError>
    ensures ok { OnOk result (into.new.items ≡ into.old.items ++ spaced (decimal number)) }
    ensures keeps { Keeps into.old.items into.new.items }
{
    let mut buffer = Buffer::new();
    put_token(buffer.format(number).as_bytes(), into)
}

fn digit_of(number: u32) -> u8
    requires { number < 16 }
    ensures { result ≡ digit number }
{
    if number < 10 {
        b'0' + number as u8
    } else {
        b'a' - 10 + number as u8
    }
}

/// A space and a word in eight digits.
#[tactic(auto, unfolding(tm_spelling::specs::Lines::hex8))]
fn put_word(word: u32, into: &mut Vec<u8>) -> Result<(), AllocError>
    ensures ok { OnOk result (into.new.items ≡ into.old.items ++ spaced (hex8 word)) }
    ensures keeps { Keeps into.old.items into.new.items }
{
    let token = [
        digit_of(word / 0x1000_0000 % 16),
        digit_of(word / 0x100_0000 % 16),
        digit_of(word / 0x10_0000 % 16),
        digit_of(word / 0x1_0000 % 16),
        digit_of(word / 0x1000 % 16),
        digit_of(word / 0x100 % 16),
        digit_of(word / 0x10 % 16),
        digit_of(word % 16),
    ];
    put_token(&token, into)
}

/// A space and a word for each.
pub fn put_words(words: &[u32], into: &mut Vec<u8>) -> Result<(), AllocError>
    ensures ok { OnOk result (into.new.items ≡ into.old.items ++ flat_map spaced (map hex8 words.now)) }
    ensures keeps { Keeps into.old.items into.new.items }
    ensures narrow { All IsWord words.now }
{
    for &word in words {
        put_word(word, into)?;
    }
    Ok(())
}

/// A space and a number for each task that a mask names, rising.
pub fn put_users(mask: u16, into: &mut Vec<u8>) -> Result<(), AllocError>
    ensures ok { OnOk result (into.new.items ≡ into.old.items ++ flat_map spaced (map decimal (users_of mask))) }
    ensures keeps { Keeps into.old.items into.new.items }
{
    for task in 0..16 {
        if (mask >> task) & 1 == 1 {
            put_number(task, into)?;
        }
    }
    Ok(())
}
