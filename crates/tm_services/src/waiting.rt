//! The alarms in use as a list of differences.

ghost use Rattle.std.specs.Prelude.{◌≡◌, ◌+◌, ◌^◌, ◌<◌, ◌≤◌, ◌++◌, [], ◌∷◌, length, take, drop, insert, remove, position, ◌==◌, IfSome, IfNone};
ghost use Rattle.tm_services.specs.Waiting.{countdown, left_of, sooner, later, place_of, rest_of, inserted, without, ticks_in, FirstWaitsFor};

use std::marker::Model;

/// An alarm in use, the ticks that it is due after the entry before it, and the ticks that it goes
/// on with then.
#[derive(Clone, Copy, Debug, PartialEq, Eq)]
pub struct Entry {
    pub alarm: u8,
    pub wait: u32,
    pub cycle: u32,
}

impl Entry {
    const NONE: Entry = Entry {
        alarm: 0,
        wait: 0,
        cycle: 0,
    };
}

/// The entries, the one that is due first first, at most 16.
#[derive(Debug, Drop)]
pub struct Waiting {
    entries: [Entry; 16],
    number: usize,
}

impl Model for Waiting {
    ghost use Rattle.std.specs.Prelude.{List, take, ◌≤◌};
    ghost use Rattle.tm_services.specs.declared.waiting.Entry.{Entry};

    ghost Value = { List Entry };

    ghost view = { λ w. take w.number w.entries };

    ghost invariant = { λ w. w.number ≤ 16 };
}

impl Waiting {
    pub fn new() -> Self
        ensures { result ≡ [] }
    {
        Waiting {
            entries: [Entry::NONE; 16],
            number: 0,
        }
    }

    pub fn as_slice(&self) -> &[Entry]
        ensures entries { result.now ≡ self.now }
        ensures few { length self.now ≤ 16 }
    {
        &self.entries[..self.number]
    }

    pub fn copy_from(&mut self, other: &Self)
        ensures { self.new ≡ other.now }
    {
        self.entries = other.entries;
        self.number = other.number;
    }

    /// Puts an alarm into the list, whose wait is its ticks left.
    pub fn insert(&mut self, new: Entry)
        requires { length self.old < 16 }
        ensures { self.new ≡ inserted new self.old }
    {
        let place = place_of(self.as_slice(), new.wait);
        self.bring_forward(place.index, place.wait);
        self.put(
            place.index,
            Entry {
                wait: place.wait,
                ..new
            },
        );
    }

    /// Takes an alarm out of the list, where it is there.
    pub fn remove(&mut self, alarm: u8)
        requires { ticks_in self.old < 2 ^ 32 }
        ensures { self.new ≡ without alarm self.old }
    {
        if let Some(index) = find(self.as_slice(), alarm) {
            let wait = self.as_slice()[index].wait;
            self.cut(index);
            self.put_off(index, wait);
        }
    }

    /// One tick passes.
    pub fn pass(&mut self)
        requires { FirstWaitsFor 1 self.old }
        ensures { self.new ≡ sooner 1 self.old }
    {
        self.bring_forward(0, 1);
    }

    /// Takes the first entry out of the list, where it is due.
    pub fn take_due(&mut self) -> Option<Entry>
        ensures some { IfSome result (λ e. (self.old ≡ e ∷ self.new) × (e.wait ≡ 0)) }
        ensures none { IfNone result ((self.new ≡ self.old) × FirstWaitsFor 1 self.old) }
        ensures few { length self.old ≤ 16 }
    {
        match self.as_slice().first().copied() {
            Some(first) if first.wait == 0 => {
                self.cut(0);
                Some(first)
            }
            _ => None,
        }
    }

    /// The entry at a place, where there is one, is due sooner.
    fn bring_forward(&mut self, index: usize, ticks: u32)
        requires { FirstWaitsFor ticks (drop index self.old) }
        ensures { self.new ≡ take index self.old ++ sooner ticks (drop index self.old) }
    {
        if index < self.number {
            self.entries[index].wait -= ticks;
        }
    }

    /// The entry at a place, where there is one, is due later.
    fn put_off(&mut self, index: usize, ticks: u32)
        requires { ticks + ticks_in self.old < 2 ^ 32 }
        ensures { self.new ≡ take index self.old ++ later ticks (drop index self.old) }
    {
        if index < self.number {
            self.entries[index].wait += ticks;
        }
    }

    /// Puts an entry at a place.
    fn put(&mut self, index: usize, entry: Entry)
        requires room { length self.old < 16 }
        requires within { index ≤ length self.old }
        ensures { self.new ≡ insert self.old index entry }
    {
        let end = self.number + 1;
        self.entries[self.number] = entry;
        self.entries[index..end].rotate_right(1);
        self.number = end;
    }

    /// Cuts the entry at a place out.
    fn cut(&mut self, index: usize)
        requires { index < length self.old }
        ensures { self.new ≡ remove self.old index }
    {
        self.entries[index..self.number].rotate_left(1);
        self.number -= 1;
    }
}

/// Where an alarm with so many ticks left belongs, and its ticks after the entry before it.
#[derive(Clone, Copy, Debug)]
struct Place {
    index: usize,
    wait: u32,
}

fn place_of(entries: &[Entry], ticks: u32) -> Place
    ensures index { result.index ≡ place_of ticks entries.now }
    ensures wait { result.wait ≡ rest_of ticks entries.now }
{
    let mut index = 0;
    let mut wait = ticks;
    while index < entries.len() && entries[index].wait <= wait {
        wait -= entries[index].wait;
        index += 1;
    }
    Place { index, wait }
}

/// The place of an alarm's entry.
fn find(entries: &[Entry], alarm: u8) -> Option<usize>
    ensures { result ≡ position (λ e. e.alarm == alarm) entries.now }
{
    entries.iter().position(|entry| entry.alarm == alarm)
}

/// The ticks left of an alarm in use.
pub fn ticks_left(entries: &[Entry], alarm: u32) -> Option<u32>
    requires { ticks_in entries.now < 2 ^ 32 }
    ensures { result ≡ left_of (countdown entries.now alarm) }
{
    let mut left = 0;
    for entry in entries {
        left += entry.wait;
        if u32::from(entry.alarm) == alarm {
            return Some(left);
        }
    }
    None
}
