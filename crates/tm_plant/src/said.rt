//! What the words of a plant's line say, below its keyword.

ghost use Rattle.std.specs.Prelude.{◌≡◌, map};
ghost use Rattle.tm_plant.specs.Said.{keyword_in, device_in, raise_in, set_in, hold_in};

use tm_lines::{Reason, number_at, spells};

/// The first word of a plant's line.
#[derive(Clone, Copy)]
pub(crate) enum Keyword {
    Device,
    Raise,
    Set,
    Hold,
}

/// What `raise D LINE TIMES` says.
#[derive(Clone, Copy)]
pub(crate) struct RaiseLine {
    pub device: u32,
    pub line: u32,
    pub times: u32,
}

/// What `set D PORT VALUE` says.
#[derive(Clone, Copy)]
pub(crate) struct SetLine {
    pub device: u32,
    pub port: u32,
    pub value: u32,
}

/// What `hold D LINE TURNS` says.
#[derive(Clone, Copy)]
pub(crate) struct HoldLine {
    pub device: u32,
    pub line: u32,
    pub turns: u32,
}

/// The keyword that a token spells.
pub(crate) fn keyword_said(token: &[u8]) -> Result<Keyword, Reason>
    ensures { result ≡ keyword_in token.now }
{
    if spells(token, b"device") {
        Ok(Keyword::Device)
    } else if spells(token, b"raise") {
        Ok(Keyword::Raise)
    } else if spells(token, b"set") {
        Ok(Keyword::Set)
    } else if spells(token, b"hold") {
        Ok(Keyword::Hold)
    } else {
        Err(Reason::Form)
    }
}

/// What the words of a line `device` say: the number of the device.
pub(crate) fn device_said(words: &[&[u8]]) -> Result<u32, Reason>
    ensures { result ≡ device_in (map (λ word. word.now) words.now) }
{
    match words {
        [device] => number_at(device),
        _ => Err(Reason::Form),
    }
}

/// What the words of a line `raise` say.
pub(crate) fn raise_said(words: &[&[u8]]) -> Result<RaiseLine, Reason>
    ensures { result ≡ raise_in (map (λ word. word.now) words.now) }
{
    match words {
        [device, line, times] => Ok(RaiseLine {
            device: number_at(device)?,
            line: number_at(line)?,
            times: number_at(times)?,
        }),
        _ => Err(Reason::Form),
    }
}

/// What the words of a line `set` say.
pub(crate) fn set_said(words: &[&[u8]]) -> Result<SetLine, Reason>
    ensures { result ≡ set_in (map (λ word. word.now) words.now) }
{
    match words {
        [device, port, value] => Ok(SetLine {
            device: number_at(device)?,
            port: number_at(port)?,
            value: number_at(value)?,
        }),
        _ => Err(Reason::Form),
    }
}

/// What the words of a line `hold` say.
pub(crate) fn hold_said(words: &[&[u8]]) -> Result<HoldLine, Reason>
    ensures { result ≡ hold_in (map (λ word. word.now) words.now) }
{
    match words {
        [device, line, turns] => Ok(HoldLine {
            device: number_at(device)?,
            line: number_at(line)?,
            turns: number_at(turns)?,
        }),
        _ => Err(Reason::Form),
    }
}
