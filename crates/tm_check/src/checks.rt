//! The checkpoints of one task.

ghost use Rattle.std.specs.Prelude.{◌≡◌, ℕ, ◌+◌, ◌^◌, ◌<◌, ◌≤◌, ◌↔◌, List, [], ◌∷◌, ◌++◌, length, Some, option_map, IsSome, IfOk, option_and_then, ◌==◌, drop};
ghost use Rattle.circular_buffer.specs.Buffer.{buffer, keep_last};
ghost use Rattle.tm_marker.specs.Shape.{IsCheckCap, IsWordCount};
ghost use Rattle.tm_check.specs.Checkpoint.{Checkpoint, checkpoint, kept_checks, pushed_check, check_of, first_epoch, place_in, IsCheckKept, IsChecks, HoldsChecks, AreSized};
ghost use Rattle.tm_check.specs.Ref.{ref_of};
ghost use Rattle.tm_check.specs.Slots.{HaveOneSize};

use crate::slot::Slot;
use circular_buffer::HeapCircularBuffer;
use std::alloc::{AllocError, Global};
use std::marker::Model;
use tm_marker::Body;

/// A kept checkpoint: the epoch that begins there, and how many data entries of the task and how many
/// control entries there were.
#[derive(Clone, Copy, Debug, PartialEq, Eq)]
pub struct CheckRef {
    pub epoch: u64,
    pub data_no: u64,
    pub control_no: u64,
}

/// The last checkpoints of one task, up to a capacity of 1 to [`tm_marker::MOST_CHECKPOINTS`], and how
/// many there were in all, at most 2^53. The checkpoint of epoch e is the task's checkpoint number e,
/// from 0 on. All bodies have the same number of data words.
#[derive(Drop)]
pub struct Checks {
    slots: HeapCircularBuffer<Slot>,
    len: u32,
    total: u64,
    words: u32,
}

impl Model for Checks {
    ghost use Rattle.circular_buffer.specs.Buffer.{buffer, keep_last};
    ghost use Rattle.tm_check.specs.Checkpoint.{KeptChecks, kept_checks};
    ghost use Rattle.tm_check.specs.Slots.{AreSlots};

    ghost Value = { KeptChecks };

    ghost view = { λ c. kept_checks (keep_last c.len c.slots.items) c.total c.slots.capacity c.words };

    ghost invariant = { λ c. AreSlots c.slots c.len c.total c.words };
}

impl Checks {
    /// No checkpoint.
    pub fn new(alloc: Global, cap: u32, data_words: u32) -> Result<Self, AllocError>
        requires cap { IsCheckCap cap }
        requires words { IsWordCount data_words }
        ensures { IfOk result (λ checks. checks ≡ kept_checks [] 0 cap data_words) }
    {
        Checks::starting(alloc, cap, data_words, 0)
    }

    /// None of the checkpoints taken so far, `total` in number: the next one is of epoch `total`.
    pub fn starting(
        alloc: Global,
        cap: u32,
        data_words: u32,
        total: u64,
    ) -> Result<Self, AllocError>
        requires cap { IsCheckCap cap }
        requires words { IsWordCount data_words }
        requires counted { total ≤ 2 ^ 53 }
        ensures { IfOk result (λ checks. checks ≡ kept_checks [] total cap data_words) }
    {
        Ok(Checks {
            slots: empty_slots(alloc, cap, data_words)?,
            len: 0,
            total,
            words: data_words,
        })
    }

    /// Adds the checkpoint of the next epoch; the oldest goes where as many as the capacity are kept.
    pub fn push(&mut self, body: &Body, data_no: u64, control_no: u64)
        requires body { length body.now.words ≡ self.old.words }
        requires total { self.old.total < 2 ^ 53 }
        ensures pushed { self.new ≡ pushed_check self.old (checkpoint body.now data_no control_no) }
        ensures holds { (all : List Checkpoint) → HoldsChecks self.old all → HoldsChecks self.new (all ++ checkpoint body.now data_no control_no ∷ []) }
    {
        refill(&mut self.slots, body, data_no, control_no);
        self.len = (self.len + 1).min(self.slots.capacity() as u32);
        self.total += 1;
    }

    /// How many checkpoints there were in all.
    pub fn total(&self) -> u64
        ensures total { result ≡ self.now.total }
        ensures checks { IsChecks self.now }
    {
        self.total
    }

    /// How many checkpoints are kept.
    pub fn len(&self) -> u32
        ensures number { result ≡ length self.now.items }
        ensures fit { result ≤ self.now.cap }
    {
        self.len
    }

    /// Whether no checkpoint is kept.
    pub fn is_empty(&self) -> bool
        ensures { result ≡ (length self.now.items == 0) }
    {
        self.len == 0
    }

    /// How many checkpoints are kept at most.
    pub fn cap(&self) -> u32
        ensures { result ≡ self.now.cap }
    {
        self.slots.capacity() as u32
    }

    /// How many data words each body has.
    pub fn data_words(&self) -> u32
        ensures { result ≡ self.now.words }
    {
        self.words
    }

    /// The checkpoint of an epoch, where it is kept.
    pub fn with_epoch(&self, epoch: u64) -> Option<CheckRef>
        ensures there { IsSome result ↔ IsCheckKept self.now epoch }
        ensures checkpoint { result ≡ option_map (ref_of epoch) (check_of self.now epoch) }
    {
        if epoch < self.total - u64::from(self.len) || self.total <= epoch {
            return None;
        }
        let slot = self.slot_at(epoch);
        Some(CheckRef {
            epoch,
            data_no: slot.data_no,
            control_no: slot.control_no,
        })
    }

    /// Makes a body the one of a checkpoint that is kept here.
    pub fn restore(&self, at: &CheckRef, into: &mut Body)
        requires kept { IsCheckKept self.now at.now.epoch }
        requires words { length into.old.words ≡ self.now.words }
        ensures { option_map (λ c. c.body) (check_of self.now at.now.epoch) ≡ Some into.new }
    {
        let slot = self.slot_at(at.epoch);
        into.copy_from(&slot.body);
    }

    /// One place of the body of a checkpoint that is kept here: 0 is the pc, 1 to 31 are the
    /// registers, and 32 + i is data word i.
    pub fn read(&self, at: &CheckRef, place: u32) -> u32
        requires kept { IsCheckKept self.now at.now.epoch }
        requires place { place < 32 + self.now.words }
        ensures { option_and_then (λ c. place_in c.body place) (check_of self.now at.now.epoch) ≡ Some result }
    {
        read_body(&self.slot_at(at.epoch).body, place)
    }

    /// Takes the checkpoints and the total of another task of as many data words, at equal capacities.
    pub fn copy_from(&mut self, other: &Checks)
        requires cap { self.old.cap ≡ other.now.cap }
        requires words { self.old.words ≡ other.now.words }
        ensures { self.new ≡ other.now }
    {
        copy_slots(&other.slots, &mut self.slots);
        self.len = other.len;
        self.total = other.total;
    }

    /// The kept checkpoint of an epoch.
    fn slot_at(&self, epoch: u64) -> &Slot
        requires { IsCheckKept self.now epoch }
        ensures there { check_of self.now epoch ≡ Some result.now }
        ensures sized { length result.now.body.words ≡ self.now.words }
    {
        let after = (self.total - epoch) as usize;
        match self.slots.get(self.slots.len() - after) {
            Some(slot) => slot,
            None => unreachable!(),
        }
    }
}

/// So many slots of this size.
fn empty_slots(alloc: Global, cap: u32, words: u32) -> Result<HeapCircularBuffer<Slot>, AllocError>
    ensures capacity { IfOk result (λ slots. slots.capacity ≡ cap) }
    ensures full { IfOk result (λ slots. length slots.items ≡ cap) }
    ensures sized { IfOk result (λ slots. AreSized words slots.items) }
{
    let mut slots = HeapCircularBuffer::with_capacity(alloc, cap as usize)?;
    for _ in 0..cap {
        slots.push_back(Slot::new(alloc, words)?);
    }
    Ok(slots)
}

/// Keeps a checkpoint in the first slot, which becomes the last.
fn refill(slots: &mut HeapCircularBuffer<Slot>, body: &Body, data_no: u64, control_no: u64)
    requires some { 0 < length slots.old.items }
    requires full { length slots.old.items ≡ slots.old.capacity }
    requires sized { AreSized (length body.now.words) slots.old.items }
    ensures { slots.new ≡ buffer (drop 1 slots.old.items ++ checkpoint body.now data_no control_no ∷ []) slots.old.capacity }
{
    match slots.pop_front() {
        Some(mut slot) => {
            slot.fill(body, data_no, control_no);
            slots.push_back(slot);
        }
        None => unreachable!(),
    }
}

/// Copies every slot of another task, at equal sizes.
fn copy_slots(from: &HeapCircularBuffer<Slot>, into: &mut HeapCircularBuffer<Slot>)
    requires some { 0 < length from.now.items }
    requires full { length from.now.items ≡ from.now.capacity }
    requires sized { HaveOneSize from.now.items into.old.items }
    requires equal { length into.old.items ≡ length from.now.items }
    requires capacity { into.old.capacity ≡ from.now.capacity }
    ensures { into.new ≡ from.now }
{
    for index in 0..from.len() {
        match from.get(index) {
            Some(slot) => refill(into, &slot.body, slot.data_no, slot.control_no),
            None => unreachable!(),
        }
    }
}

/// One place of a body: 0 is the pc, 1 to 31 are the registers, and 32 + i is data word i.
fn read_body(body: &Body, place: u32) -> u32
    requires { place < 32 + length body.now.words }
    ensures { place_in body.now place ≡ Some result }
{
    let registers = &body.regs;
    match place {
        0 => body.pc,
        1..32 => registers[place as usize - 1],
        _ => body.words.at(place as usize - 32),
    }
}
