//! An image: what a kernel is made of, and what each of its tasks is loaded from.

ghost use Rattle.std.specs.Prelude.{◌≡◌, ◌<◌, ◌≤◌, ◌+◌, ◌-◌, ◌^◌, length, IfOk};
ghost use Rattle.tm_marker.specs.Shape.{IsShape};
ghost use Rattle.tm_lines.specs.Lines.{pieces};
ghost use Rattle.tm_lines.specs.Steps.{Gives};
ghost use Rattle.tm_image.specs.Draft.{Draft};
ghost use Rattle.tm_image.specs.Image.{load_of, entry_of, text_of, words_of, shape_of, replaced, IsLoad, IsImage, image_digest, below, draft_of, image_of};

use crate::draft::Reading;
use crate::load::Loaded;
use sha2::{Digest, Sha256};
use std::alloc::{AllocError, Global};
use std::marker::Model;
use tm_kernel::KernelSpec;
use tm_lines::{Fault, Reason, below_header, take_lines};
use tm_marker::Shape;
use tm_rv::{Code, Set};

/// Why an image was not read.
pub type ImageFault = Fault;

/// What a machine of 1 to 16 tasks is made of. The tasks are numbered from 0 in the order of the
/// file; each has 1 to 16,384 words of text and of data, and an entry inside its text. With it go the
/// digest of the file and the capacities of a recorder's buffers.
#[derive(Debug, Drop)]
pub struct Image {
    parts: Reading,
    shape: Shape,
}

impl Model for Image {
    ghost use Rattle.std.specs.Prelude.{◌≡◌, length, map};
    ghost use Rattle.tm_image.specs.Image.{ImageView, IsImage, shaped};

    ghost Value = { ImageView };

    ghost view = { λ image. shaped image.parts image.shape };

    ghost invariant = { λ image.
        IsImage (shaped image.parts image.shape)
        × (image.shape.words ≡ map (λ load. length load.words) image.parts.loads) };
}

impl Image {
    /// What the kernel is made of.
    pub fn spec(&self) -> &KernelSpec
        ensures value { result.now ≡ self.now.spec }
        ensures sound { IsImage self.now }
    {
        self.parts.spec()
    }

    /// The digest of the file (SHA-256 of its bytes), the capacities of a recorder's buffers, and how
    /// many data words each task has.
    pub fn shape(&self) -> &Shape
        ensures value { result.now ≡ shape_of self.now }
        ensures sound { IsShape (shape_of self.now) }
    {
        &self.shape
    }

    /// What every image keeps. It does nothing: a proof takes it from here.
    pub fn attest(&self)
        ensures { IsImage self.now }
    {
        let _value = &self.parts;
    }

    /// A copy.
    pub fn copy(&self, alloc: Global) -> Result<Image, AllocError>
        ensures copied { IfOk result (λ copy. copy ≡ self.now) }
    {
        Ok(Image {
            parts: self.parts.copy(alloc)?,
            shape: self.shape.copied(alloc)?,
        })
    }

    /// The set of instructions that the texts may have.
    pub fn set(&self) -> Set
        ensures { result ≡ self.now.set }
    {
        self.parts.set()
    }

    /// Loads a task from something else, with a text of the same set and as many data words as that has. All
    /// else stays, the digest too: it is that of the file that was read. It takes no memory.
    pub fn replace(&mut self, task: u8, from: Loaded)
        requires there { task < length self.old.loads }
        requires sound { IsLoad from }
        requires set { from.set ≡ self.old.set }
        ensures { self.new ≡ replaced self.old task from }
    {
        let task = task as usize;
        self.shape.words.set(task, from.words().len() as u32);
        self.parts.set_load(task, from);
    }

    /// The number of tasks, 1 to 16.
    pub fn tasks(&self) -> usize
        ensures value { result ≡ length self.now.loads }
        ensures some { 0 < result }
        ensures few { result ≤ 16 }
        ensures sound { IsImage self.now }
    {
        self.parts.loads().len()
    }

    /// The address of the task's first instruction: a multiple of 4 inside its text.
    pub fn entry(&self, task: u8) -> u32
        requires { task < length self.now.loads }
        ensures value { result ≡ entry_of self.now task }
        ensures sound { IsLoad (load_of self.now task) }
    {
        self.parts.loads()[task as usize].entry()
    }

    /// The task's text, with the instructions that its words are.
    pub fn text(&self, task: u8) -> &Code
        requires { task < length self.now.loads }
        ensures value { result.now ≡ text_of self.now task }
        ensures sound { IsLoad (load_of self.now task) }
    {
        self.parts.loads()[task as usize].text()
    }

    /// The task's data words at boot.
    pub fn words(&self, task: u8) -> &[u32]
        requires { task < length self.now.loads }
        ensures value { result.now ≡ words_of self.now task }
        ensures sound { IsLoad (load_of self.now task) }
    {
        self.parts.loads()[task as usize].words()
    }
}

/// The digest of an image's file.
#[tactic(auto, unfolding(crate::specs::Image::image_digest))]
fn digest_of(bytes: &[u8]) -> [u8; 32]
    ensures value { result ≡ image_digest bytes.now }
    ensures long { length result ≡ 32 }
{
    Sha256::digest(bytes)
}

/// The number of the line below the header, the text from there on, and the set of instructions that the
/// header's version has.
fn below(alloc: Global, bytes: &[u8]) -> Result<(Set, u32, &[u8]), ImageFault>
    requires { length bytes.now < 2 ^ 32 - 1 }
    ensures body { Gives (λ body. (body.0, (body.1, pieces body.2.now))) result (below (pieces bytes.now)) }
    ensures numbers { IfOk result (λ body. body.1 + length body.2.now ≤ length bytes.now + 1) }
{
    match below_header(alloc, b"tmi", b"1", bytes) {
        Ok((first, body)) => Ok((Set::Base, first, body)),
        Err(fault) if fault.reason == Reason::Memory => Err(fault),
        Err(_) => {
            let (first, body) = below_header(alloc, b"tmi", b"2", bytes)?;
            Ok((Set::Mul, first, body))
        }
    }
}

/// What the lines of an image make.
#[tactic(auto, unfolding(crate::specs::Image::draft_of))]
fn read_draft(alloc: Global, bytes: &[u8]) -> Result<Reading, ImageFault>
    requires { length bytes.now < 2 ^ 32 - 1 }
    ensures { Gives (λ draft. draft) result (draft_of bytes.now) }
{
    let (set, first, body) = below(alloc, bytes)?;
    let mut draft = Reading::new(alloc, set);
    let last = take_lines(alloc, &mut draft, first, body)?;
    draft.end().map_err(|reason| Fault::on_line(last, reason))?;
    Ok(draft)
}

/// Reads an image: below the header, `tmi 1`, or `tmi 2` for texts that may have RV32M, lines of these forms in
/// any order, a task before what names it.
///
/// - `task N KIND PRIO START ENTRY WORDS`: KIND is `basic` or `extended`, PRIO 1 to 255 and no other
///   task's, START `auto` or `off`, ENTRY a multiple of 4, WORDS 1 to 16,384 data words.
/// - `text N W ..` appends words to the text of a task, up to 16,384.
/// - `data N OFFSET W ..` sets data words of a task from an offset on.
/// - `resource N T ..` declares the users of a resource.
/// - `alarm N ACTION`: ACTION is `activate T` or `event T MASK`.
/// - `box N CAP`: CAP is 1 to 64 messages.
/// - `line L ACTION`: L is below 16, and ACTION may be `tick` too.
/// - `ring WHAT N`: WHAT is `control`, `data`, `outputs` or `checks`; N is 1 to 65,536 items, and 1
///   to 64 for `checks`.
///
/// Tasks, resources, alarms and boxes are numbered from 0 in their order; there are at most 16 of
/// each. At the end there is a task, each task has a text, and each ENTRY is inside it. Data words that
/// are not set are 0.
///
/// # Errors
///
/// The first line that is refused, and why; `Memory` where there is too little memory for the image or
/// for the tokens of a line.
#[tactic(auto, unfolding(crate::specs::Image::image_of))]
pub fn read_image(alloc: Global, bytes: &[u8]) -> Result<Image, ImageFault>
    requires { length bytes.now < 2 ^ 32 - 1 }
    ensures read { Gives (λ image. image) result (image_of bytes.now) }
    ensures sound { IfOk result IsImage }
{
    let parts = read_draft(alloc, bytes)?;
    let words = parts.word_counts(alloc)?;
    let shape = Shape {
        image: digest_of(bytes),
        caps: parts.caps(),
        words,
    };
    Ok(Image { parts, shape })
}
