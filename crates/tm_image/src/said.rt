//! What the words of an image's line say, below its keyword.

ghost use Rattle.std.specs.Prelude.{◌≡◌, [], ◌∷◌, map};
ghost use Rattle.tm_lines.specs.Steps.{Answers};
ghost use Rattle.tm_image.specs.Said.{keyword_in, kind_in, start_in, task_in, text_in, data_in, resource_in, activate_in, event_in, action_in, alarm_in, box_in, is_tick, line_action_in, line_in, ring_name_in, ring_in};

use crate::rings::RingName;
use std::alloc::Global;
use tm_lines::{Reason, number_at, numbers_at, spells, words_at};
use tm_marker::Items;

/// The first word of an image's line.
#[derive(Clone, Copy)]
pub(crate) enum Keyword {
    Task,
    Text,
    Data,
    Resource,
    Alarm,
    Box,
    Line,
    Ring,
}

/// What `task N KIND PRIO START ENTRY WORDS` says.
#[derive(Clone, Copy)]
pub(crate) struct TaskLine {
    pub number: u32,
    pub extended: bool,
    pub priority: u32,
    pub auto: bool,
    pub entry: u32,
    pub words: u32,
}

/// What `text N W ..` says.
#[derive(Drop)]
pub(crate) struct TextLine {
    pub number: u32,
    pub words: Items<u32>,
}

/// What `data N OFFSET W ..` says.
#[derive(Drop)]
pub(crate) struct DataLine {
    pub number: u32,
    pub offset: u32,
    pub words: Items<u32>,
}

/// What `resource N T ..` says.
#[derive(Drop)]
pub(crate) struct ResourceLine {
    pub number: u32,
    pub users: Items<u32>,
}

/// What an alarm or a line does to a task, which is told by its number.
#[derive(Clone, Copy)]
pub(crate) enum TaskAction {
    Activate(u32),
    Event(u32, u32),
}

/// What `alarm N ACTION` says.
#[derive(Clone, Copy)]
pub(crate) struct AlarmLine {
    pub number: u32,
    pub action: TaskAction,
}

/// What `box N CAP` says.
#[derive(Clone, Copy)]
pub(crate) struct BoxLine {
    pub number: u32,
    pub capacity: u32,
}

/// What a line does.
#[derive(Clone, Copy)]
pub(crate) enum LineAction {
    Tick,
    OfTask(TaskAction),
}

/// What `line L ACTION` says.
#[derive(Clone, Copy)]
pub(crate) struct LineLine {
    pub number: u32,
    pub action: LineAction,
}

/// What `ring WHAT N` says.
#[derive(Clone, Copy)]
pub(crate) struct RingLine {
    pub ring: RingName,
    pub capacity: u32,
}

/// The keyword that a token spells.
pub(crate) fn keyword_said(token: &[u8]) -> Result<Keyword, Reason>
    ensures { result ≡ keyword_in token.now }
{
    if spells(token, b"task") {
        Ok(Keyword::Task)
    } else if spells(token, b"text") {
        Ok(Keyword::Text)
    } else if spells(token, b"data") {
        Ok(Keyword::Data)
    } else if spells(token, b"resource") {
        Ok(Keyword::Resource)
    } else if spells(token, b"alarm") {
        Ok(Keyword::Alarm)
    } else if spells(token, b"box") {
        Ok(Keyword::Box)
    } else if spells(token, b"line") {
        Ok(Keyword::Line)
    } else if spells(token, b"ring") {
        Ok(Keyword::Ring)
    } else {
        Err(Reason::Form)
    }
}

/// Whether a task is extended.
fn kind_said(token: &[u8]) -> Result<bool, Reason>
    ensures { result ≡ kind_in token.now }
{
    if spells(token, b"basic") {
        Ok(false)
    } else if spells(token, b"extended") {
        Ok(true)
    } else {
        Err(Reason::Form)
    }
}

/// Whether a task is ready at boot.
fn start_said(token: &[u8]) -> Result<bool, Reason>
    ensures { result ≡ start_in token.now }
{
    if spells(token, b"auto") {
        Ok(true)
    } else if spells(token, b"off") {
        Ok(false)
    } else {
        Err(Reason::Form)
    }
}

/// What the six words of a line `task` say.
fn task_from(
    number: &[u8],
    kind: &[u8],
    priority: &[u8],
    start: &[u8],
    entry: &[u8],
    words: &[u8],
) -> Result<TaskLine, Reason>
    ensures { result ≡ task_in (number.now ∷ kind.now ∷ priority.now ∷ start.now ∷ entry.now ∷ words.now ∷ []) }
{
    let extended = kind_said(kind)?;
    let auto = start_said(start)?;
    Ok(TaskLine {
        number: number_at(number)?,
        extended,
        priority: number_at(priority)?,
        auto,
        entry: number_at(entry)?,
        words: number_at(words)?,
    })
}

/// What the words of a line `task` say.
pub(crate) fn task_said(words: &[&[u8]]) -> Result<TaskLine, Reason>
    ensures { result ≡ task_in (map (λ word. word.now) words.now) }
{
    match words {
        [number, kind, priority, start, entry, words] => {
            task_from(number, kind, priority, start, entry, words)
        }
        _ => Err(Reason::Form),
    }
}

/// What the words of a line `text` say.
pub(crate) fn text_said(alloc: Global, words: &[&[u8]]) -> Result<TextLine, Reason>
    ensures { Answers (λ line. line) result (text_in (map (λ word. word.now) words.now)) }
{
    match words {
        [number, text @ ..] if !text.is_empty() => Ok(TextLine {
            number: number_at(number)?,
            words: words_at(alloc, text)?,
        }),
        _ => Err(Reason::Form),
    }
}

/// What the words of a line `data` say.
pub(crate) fn data_said(alloc: Global, words: &[&[u8]]) -> Result<DataLine, Reason>
    ensures { Answers (λ line. line) result (data_in (map (λ word. word.now) words.now)) }
{
    match words {
        [number, offset, values @ ..] if !values.is_empty() => Ok(DataLine {
            number: number_at(number)?,
            offset: number_at(offset)?,
            words: words_at(alloc, values)?,
        }),
        _ => Err(Reason::Form),
    }
}

/// What the words of a line `resource` say.
pub(crate) fn resource_said(alloc: Global, words: &[&[u8]]) -> Result<ResourceLine, Reason>
    ensures { Answers (λ line. line) result (resource_in (map (λ word. word.now) words.now)) }
{
    match words {
        [number, users @ ..] if !users.is_empty() => Ok(ResourceLine {
            number: number_at(number)?,
            users: numbers_at(alloc, users)?,
        }),
        _ => Err(Reason::Form),
    }
}

/// What `activate T` says, of which the words below the first are given.
fn activate_said(words: &[&[u8]]) -> Result<TaskAction, Reason>
    ensures { result ≡ activate_in (map (λ word. word.now) words.now) }
{
    match words {
        [task] => Ok(TaskAction::Activate(number_at(task)?)),
        _ => Err(Reason::Form),
    }
}

/// What `event T MASK` says, of which the words below the first are given.
fn event_said(words: &[&[u8]]) -> Result<TaskAction, Reason>
    ensures { result ≡ event_in (map (λ word. word.now) words.now) }
{
    match words {
        [task, mask] => Ok(TaskAction::Event(number_at(task)?, number_at(mask)?)),
        _ => Err(Reason::Form),
    }
}

/// What an action says that is done to a task.
fn action_said(words: &[&[u8]]) -> Result<TaskAction, Reason>
    ensures { result ≡ action_in (map (λ word. word.now) words.now) }
{
    let [first, words @ ..] = words else {
        return Err(Reason::Form);
    };
    if spells(first, b"activate") {
        activate_said(words)
    } else if spells(first, b"event") {
        event_said(words)
    } else {
        Err(Reason::Form)
    }
}

/// What the words of a line `alarm` say.
pub(crate) fn alarm_said(words: &[&[u8]]) -> Result<AlarmLine, Reason>
    ensures { result ≡ alarm_in (map (λ word. word.now) words.now) }
{
    match words {
        [number, action @ ..] => {
            let action = action_said(action)?;
            Ok(AlarmLine {
                number: number_at(number)?,
                action,
            })
        }
        _ => Err(Reason::Form),
    }
}

/// What the words of a line `box` say.
pub(crate) fn box_said(words: &[&[u8]]) -> Result<BoxLine, Reason>
    ensures { result ≡ box_in (map (λ word. word.now) words.now) }
{
    match words {
        [number, capacity] => Ok(BoxLine {
            number: number_at(number)?,
            capacity: number_at(capacity)?,
        }),
        _ => Err(Reason::Form),
    }
}

/// Whether the words are the action `tick`.
fn is_tick(words: &[&[u8]]) -> bool
    ensures { result ≡ is_tick (map (λ word. word.now) words.now) }
{
    match words {
        [word] => spells(word, b"tick"),
        _ => false,
    }
}

/// What the action of a line says.
fn line_action_said(words: &[&[u8]]) -> Result<LineAction, Reason>
    ensures { result ≡ line_action_in (map (λ word. word.now) words.now) }
{
    if is_tick(words) {
        return Ok(LineAction::Tick);
    }
    Ok(LineAction::OfTask(action_said(words)?))
}

/// What the words of a line `line` say.
pub(crate) fn line_said(words: &[&[u8]]) -> Result<LineLine, Reason>
    ensures { result ≡ line_in (map (λ word. word.now) words.now) }
{
    match words {
        [number, action @ ..] => {
            let action = line_action_said(action)?;
            Ok(LineLine {
                number: number_at(number)?,
                action,
            })
        }
        _ => Err(Reason::Form),
    }
}

/// The ring that a token names.
fn ring_name_said(token: &[u8]) -> Result<RingName, Reason>
    ensures { result ≡ ring_name_in token.now }
{
    if spells(token, b"control") {
        Ok(RingName::Control)
    } else if spells(token, b"data") {
        Ok(RingName::Data)
    } else if spells(token, b"outputs") {
        Ok(RingName::Outputs)
    } else if spells(token, b"checks") {
        Ok(RingName::Checks)
    } else {
        Err(Reason::Form)
    }
}

/// What the words of a line `ring` say.
pub(crate) fn ring_said(words: &[&[u8]]) -> Result<RingLine, Reason>
    ensures { result ≡ ring_in (map (λ word. word.now) words.now) }
{
    match words {
        [what, capacity] => Ok(RingLine {
            ring: ring_name_said(what)?,
            capacity: number_at(capacity)?,
        }),
        _ => Err(Reason::Form),
    }
}
