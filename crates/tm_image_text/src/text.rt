//! The text of an image.

ghost use Rattle.std.specs.Prelude.{◌≡◌, ◌++◌, ◌<◌, ◌^◌, length, zip, OnOk, OnErr, All};
ghost use Rattle.tm_image.specs.Image.{load_of};
ghost use Rattle.tm_image_text.specs.Prefix.{Keeps};
ghost use Rattle.tm_image_text.specs.Numbers.{IsNarrow, IsOfWords, FitsText};
ghost use Rattle.tm_image_text.specs.Lines.{resource_line, alarm_line, box_line, action_line};
ghost use Rattle.tm_image_text.specs.ImageText.{numbered, version_of, header_line, task_text, rings_text, image_text, IsReadBack};

use crate::lines::{
    put_action_line, put_alarm_line, put_box_line, put_data_line, put_resource_line, put_ring_line,
    put_task_line, put_text_line,
};
use crate::words::{put, put_token};
use std::alloc::AllocError;
use tm_image::Image;
use tm_kernel::{Action, TaskSpec};
use tm_marker::Caps;
use tm_rv::Set;

/// Appends the one text of an image: the header, `tmi 1`, or `tmi 2` where the texts may have RV32M; for each
/// task its line, one line with its whole text and, where a data word isn't 0, one line with its data words
/// up to the last such word; then the resources, the alarms, the boxes and the lines that have an action,
/// each rising, and the four capacities. On want of memory `into` is as before. The text is read as the
/// image, but for the digest, which is that of the text.
pub fn image_text(image: &Image, into: &mut Vec<u8>) -> Result<(), AllocError>
    ensures ok { OnOk result (into.new.items ≡ into.old.items ++ image_text image.now) }
    ensures err { OnErr result (into.new.items ≡ into.old.items) }
    ensures back { OnOk result (IsReadBack image.now) }
{
    image.attest();
    let length = into.len();
    let written = put_image(image, into);
    if written.is_err() {
        into.truncate(length);
    }
    written
}

#[tactic(auto, unfolding(crate::specs::ImageText::image_text))]
fn put_image(image: &Image, into: &mut Vec<u8>) -> Result<(), AllocError>
    ensures ok { OnOk result (into.new.items ≡ into.old.items ++ image_text image.now) }
    ensures keeps { Keeps into.old.items into.new.items }
    ensures narrow { OnOk result (FitsText image.now) }
{
    let spec = image.spec();
    put_header(image.set(), into)?;
    put_tasks(image, into)?;
    put_resources(spec.users.as_slice(), into)?;
    put_alarms(spec.alarms.as_slice(), into)?;
    put_boxes(spec.boxes.as_slice(), into)?;
    put_actions(&spec.lines, into)?;
    put_rings(image.shape().caps, into)
}

/// The version of the header.
fn version(set: Set) -> &'static [u8]
    ensures { result.now ≡ version_of set }
{
    match set {
        Set::Base => b"1",
        Set::Mul => b"2",
    }
}

fn put_header(set: Set, into: &mut Vec<u8>) -> Result<(), AllocError>
    ensures ok { OnOk result (into.new.items ≡ into.old.items ++ header_line set) }
    ensures keeps { Keeps into.old.items into.new.items }
{
    put(b"tmi", into)?;
    put_token(version(set), into)?;
    put(b"\n", into)
}

fn put_tasks(image: &Image, into: &mut Vec<u8>) -> Result<(), AllocError>
    ensures ok { OnOk result (into.new.items ≡ into.old.items ++
        numbered task_text 0 (zip image.now.spec.tasks image.now.loads)) }
    ensures keeps { Keeps into.old.items into.new.items }
    ensures narrow { OnOk result (All IsOfWords image.now.loads) }
{
    for number in 0..image.tasks() as u8 {
        let task = image.spec().tasks.at(usize::from(number));
        put_task(image, number, task, into)?;
    }
    Ok(())
}

fn put_task(image: &Image, number: u8, task: TaskSpec, into: &mut Vec<u8>) -> Result<(), AllocError>
    requires { number < length image.now.loads }
    ensures ok { OnOk result (into.new.items ≡ into.old.items ++
        task_text number (task, load_of image.now number)) }
    ensures keeps { Keeps into.old.items into.new.items }
    ensures narrow { OnOk result (IsOfWords (load_of image.now number)) }
{
    let entry = image.entry(number);
    let words = image.words(number);
    put_task_line(u32::from(number), task, entry, words.len() as u32, into)?;
    put_text_line(u32::from(number), image.text(number).words(), into)?;
    put_data_line(u32::from(number), words, into)
}

fn put_resources(users: &[u16], into: &mut Vec<u8>) -> Result<(), AllocError>
    requires { length users.now < 2 ^ 32 }
    ensures ok { OnOk result (into.new.items ≡ into.old.items ++ numbered resource_line 0 users.now) }
    ensures keeps { Keeps into.old.items into.new.items }
{
    for (number, &mask) in users.iter().enumerate() {
        put_resource_line(number as u32, mask, into)?;
    }
    Ok(())
}

fn put_alarms(alarms: &[Action], into: &mut Vec<u8>) -> Result<(), AllocError>
    requires { length alarms.now < 2 ^ 32 }
    ensures ok { OnOk result (into.new.items ≡ into.old.items ++ numbered alarm_line 0 alarms.now) }
    ensures keeps { Keeps into.old.items into.new.items }
    ensures narrow { OnOk result (All IsNarrow alarms.now) }
{
    for (number, &action) in alarms.iter().enumerate() {
        put_alarm_line(number as u32, action, into)?;
    }
    Ok(())
}

fn put_boxes(boxes: &[u8], into: &mut Vec<u8>) -> Result<(), AllocError>
    requires { length boxes.now < 2 ^ 32 }
    ensures ok { OnOk result (into.new.items ≡ into.old.items ++ numbered box_line 0 boxes.now) }
    ensures keeps { Keeps into.old.items into.new.items }
{
    for (number, &capacity) in boxes.iter().enumerate() {
        put_box_line(number as u32, capacity, into)?;
    }
    Ok(())
}

fn put_actions(lines: &[Action], into: &mut Vec<u8>) -> Result<(), AllocError>
    requires { length lines.now < 2 ^ 32 }
    ensures ok { OnOk result (into.new.items ≡ into.old.items ++ numbered action_line 0 lines.now) }
    ensures keeps { Keeps into.old.items into.new.items }
    ensures narrow { OnOk result (All IsNarrow lines.now) }
{
    for (number, &action) in lines.iter().enumerate() {
        put_action_line(number as u32, action, into)?;
    }
    Ok(())
}

fn put_rings(caps: Caps, into: &mut Vec<u8>) -> Result<(), AllocError>
    ensures ok { OnOk result (into.new.items ≡ into.old.items ++ rings_text caps) }
    ensures keeps { Keeps into.old.items into.new.items }
{
    put_ring_line(b"control", caps.control, into)?;
    put_ring_line(b"data", caps.logs, into)?;
    put_ring_line(b"outputs", caps.outputs, into)?;
    put_ring_line(b"checks", caps.checks, into)
}
