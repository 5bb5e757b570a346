//! The lines, one function each.

ghost use Rattle.std.specs.Prelude.{◌≡◌, [], ◌∷◌, ◌++◌, map, flat_map, codes, decimal, OnOk, All};
ghost use Rattle.tm_spelling.specs.Lines.{hex8};
ghost use Rattle.tm_image_text.specs.Prefix.{Keeps};
ghost use Rattle.tm_image_text.specs.Numbers.{IsWord, IsNarrow};
ghost use Rattle.tm_image_text.specs.Lines.{spaced, line_of, kind_name, start_name, task_line, text_line, used, data_line, resource_line, action_tokens, alarm_line, box_line, action_line, ring_line};

use crate::words::{put, put_number, put_token, put_users, put_words};
use std::alloc::AllocError;
use tm_kernel::{Action, TaskSpec};

/// The word for a task that is extended or not.
fn kind_name(extended: bool) -> &'static [u8]
    ensures { result.now ≡ kind_name extended }
{
    if extended { b"extended" } else { b"basic" }
}

/// The word for a task that is ready at boot or not.
fn start_name(auto: bool) -> &'static [u8]
    ensures { result.now ≡ start_name auto }
{
    if auto { b"auto" } else { b"off" }
}

/// A space and each of a task's kind, its priority and its start.
fn put_task_spec(task: TaskSpec, into: &mut Vec<u8>) -> Result<(), AllocError>
    ensures ok { OnOk result (into.new.items ≡ into.old.items ++
        flat_map spaced (kind_name task.extended ∷ decimal task.priority ∷ start_name task.auto ∷ [])) }
    ensures keeps { Keeps into.old.items into.new.items }
{
    put_token(kind_name(task.extended), into)?;
    put_number(u32::from(task.priority), into)?;
    put_token(start_name(task.auto), into)
}

#[tactic(auto, unfolding(crate::specs::Lines::task_line))]
pub fn put_task_line(
    number: u32,
    task: TaskSpec,
    entry: u32,
    words: u32,
    into: &mut Vec<u8>,
) -> Result<(), AllocError>
    ensures ok { OnOk result (into.new.items ≡ into.old.items ++ task_line number task entry words) }
    ensures keeps { Keeps into.old.items into.new.items }
{
    put(b"task", into)?;
    put_number(number, into)?;
    put_task_spec(task, into)?;
    put_number(entry, into)?;
    put_number(words, into)?;
    put(b"\n", into)
}

#[tactic(auto, unfolding(crate::specs::Lines::text_line))]
pub fn put_text_line(number: u32, words: &[u32], into: &mut Vec<u8>) -> Result<(), AllocError>
    ensures ok { OnOk result (into.new.items ≡ into.old.items ++ text_line number words.now) }
    ensures keeps { Keeps into.old.items into.new.items }
    ensures narrow { OnOk result (All IsWord words.now) }
{
    put(b"text", into)?;
    put_number(number, into)?;
    put_words(words, into)?;
    put(b"\n", into)
}

/// The words up to the last that is not 0.
#[tactic(auto, using(crate::proofs::Used::used_all))]
fn used(words: &[u32]) -> &[u32]
    ensures { result.now ≡ used words.now }
{
    let mut used = words;
    while let [front @ .., 0] = used {
        used = front;
    }
    used
}

/// The line of the data words from the first on.
fn put_first_words(number: u32, words: &[u32], into: &mut Vec<u8>) -> Result<(), AllocError>
    ensures ok { OnOk result (into.new.items ≡ into.old.items ++
        line_of (codes "data") (decimal number ∷ codes "0" ∷ map hex8 words.now)) }
    ensures keeps { Keeps into.old.items into.new.items }
{
    put(b"data", into)?;
    put_number(number, into)?;
    put_token(b"0", into)?;
    put_words(words, into)?;
    put(b"\n", into)
}

/// The line of a task's data words, where one of them is not 0.
#[tactic(auto, unfolding(crate::specs::Lines::data_line))]
pub fn put_data_line(number: u32, words: &[u32], into: &mut Vec<u8>) -> Result<(), AllocError>
    ensures ok { OnOk result (into.new.items ≡ into.old.items ++ data_line number words.now) }
    ensures keeps { Keeps into.old.items into.new.items }
    ensures narrow { All IsWord words.now }
{
    let used = used(words);
    if used.is_empty() {
        return Ok(());
    }
    put_first_words(number, used, into)
}

#[tactic(auto, unfolding(crate::specs::Lines::resource_line))]
pub fn put_resource_line(number: u32, mask: u16, into: &mut Vec<u8>) -> Result<(), AllocError>
    ensures ok { OnOk result (into.new.items ≡ into.old.items ++ resource_line number mask) }
    ensures keeps { Keeps into.old.items into.new.items }
{
    put(b"resource", into)?;
    put_number(number, into)?;
    put_users(mask, into)?;
    put(b"\n", into)
}

/// A space and each token of an action.
fn put_action(action: Action, into: &mut Vec<u8>) -> Result<(), AllocError>
    ensures ok { OnOk result (into.new.items ≡ into.old.items ++ flat_map spaced (action_tokens action)) }
    ensures keeps { Keeps into.old.items into.new.items }
    ensures narrow { IsNarrow action }
{
    match action {
        Action::Nothing => Ok(()),
        Action::Tick => put_token(b"tick", into),
        Action::Activate(task) => {
            put_token(b"activate", into)?;
            put_number(u32::from(task), into)
        }
        Action::Event(task, mask) => {
            put_token(b"event", into)?;
            put_number(u32::from(task), into)?;
            put_number(mask, into)
        }
    }
}

#[tactic(auto, unfolding(crate::specs::Lines::alarm_line))]
pub fn put_alarm_line(number: u32, action: Action, into: &mut Vec<u8>) -> Result<(), AllocError>
    ensures ok { OnOk result (into.new.items ≡ into.old.items ++ alarm_line number action) }
    ensures keeps { Keeps into.old.items into.new.items }
    ensures narrow { OnOk result (IsNarrow action) }
{
    put(b"alarm", into)?;
    put_number(number, into)?;
    put_action(action, into)?;
    put(b"\n", into)
}

#[tactic(auto, unfolding(crate::specs::Lines::box_line))]
pub fn put_box_line(number: u32, capacity: u8, into: &mut Vec<u8>) -> Result<(), AllocError>
    ensures ok { OnOk result (into.new.items ≡ into.old.items ++ box_line number capacity) }
    ensures keeps { Keeps into.old.items into.new.items }
{
    put(b"box", into)?;
    put_number(number, into)?;
    put_number(u32::from(capacity), into)?;
    put(b"\n", into)
}

/// The line of a line's action, where it has one.
#[tactic(auto, unfolding(crate::specs::Lines::action_line))]
pub fn put_action_line(number: u32, action: Action, into: &mut Vec<u8>) -> Result<(), AllocError>
    ensures ok { OnOk result (into.new.items ≡ into.old.items ++ action_line number action) }
    ensures keeps { Keeps into.old.items into.new.items }
    ensures narrow { OnOk result (IsNarrow action) }
{
    if matches!(action, Action::Nothing) {
        return Ok(());
    }
    put(b"line", into)?;
    put_number(number, into)?;
    put_action(action, into)?;
    put(b"\n", into)
}

#[tactic(auto, unfolding(crate::specs::Lines::ring_line))]
pub fn put_ring_line(name: &[u8], capacity: u32, into: &mut Vec<u8>) -> Result<(), AllocError>
    ensures ok { OnOk result (into.new.items ≡ into.old.items ++ ring_line name.now capacity) }
    ensures keeps { Keeps into.old.items into.new.items }
{
    put(b"ring", into)?;
    put_token(name, into)?;
    put_number(capacity, into)?;
    put(b"\n", into)
}
