//! The ring and its calls.

ghost use Rattle.std.specs.Prelude.{◌≡◌, ℕ, ◌+◌, ◌^◌, ◌<◌, ◌≤◌, ◌↔◌, ◌==◌, List, [], ◌∷◌, ◌++◌, length, option_copied, slice_get, nat_lt, if◌then◌else◌, None, IsSome, IfOk};
ghost use Rattle.tm_ring.specs.Kept.{kept, pushed, first_of, item_of, IsKeptAt, IsRing, Holds};

use circular_buffer::HeapCircularBuffer;
use std::alloc::{AllocError, Global};
use std::marker::Model;
use tm_marker::MOST_ITEMS;

/// The last items pushed, up to a capacity of 1 to [`MOST_ITEMS`], and how many were pushed in all, at
/// most 2^53. Items are numbered from 0 in the order in which they were pushed.
#[derive(Drop)]
pub struct Ring<T> {
    items: HeapCircularBuffer<T>,
    total: u64,
}

impl<T> Model for Ring<T> {
    ghost use Rattle.tm_ring.specs.Kept.{Kept, kept, kept_code, IsRing};

    ghost Value = { Kept T };

    ghost coded = { kept_code T.code };

    ghost view = { λ r. kept r.items.items r.total r.items.capacity };

    ghost invariant = { λ r. IsRing (kept r.items.items r.total r.items.capacity) };
}

impl<T: Copy> Ring<T> {
    /// A ring into which nothing was pushed.
    pub fn new(alloc: Global, cap: u32) -> Result<Self, AllocError>
        requires some { 0 < cap }
        requires few { cap ≤ MOST_ITEMS }
        ensures { IfOk result (λ ring. ring ≡ kept [] 0 cap) }
    {
        Ring::starting(alloc, cap, 0)
    }

    /// A ring that keeps none of the items pushed so far, `total` in number.
    pub fn starting(alloc: Global, cap: u32, total: u64) -> Result<Self, AllocError>
        requires some { 0 < cap }
        requires few { cap ≤ MOST_ITEMS }
        requires counted { total ≤ 2 ^ 53 }
        ensures { IfOk result (λ ring. ring ≡ kept [] total cap) }
    {
        Ok(Ring {
            items: HeapCircularBuffer::with_capacity(alloc, cap as usize)?,
            total,
        })
    }

    /// Adds an item. A full ring drops its oldest item and hands it back.
    pub fn push(&mut self, item: T) -> Option<T>
        requires { self.old.total < 2 ^ 53 }
        ensures pushed { self.new ≡ pushed self.old item }
        ensures dropped { result ≡ (if nat_lt (length self.old.items) self.old.cap then None else slice_get self.old.items 0) }
        ensures holds { (all : List T) → Holds self.old all → Holds self.new (all ++ item ∷ []) }
    {
        self.total += 1;
        self.items.push_back(item)
    }

    /// How many items were pushed in all.
    pub fn total(&self) -> u64
        ensures total { result ≡ self.now.total }
        ensures among { length self.now.items ≤ result }
        ensures counted { result ≤ 2 ^ 53 }
    {
        self.total
    }

    /// The number of the oldest item that is kept; the total where none is.
    pub fn first(&self) -> u64
        ensures first { result ≡ first_of self.now }
        ensures oldest { result + length self.now.items ≡ self.now.total }
    {
        self.total - self.items.len() as u64
    }

    /// How many items are kept.
    pub fn len(&self) -> u32
        ensures number { result ≡ length self.now.items }
        ensures fit { result ≤ self.now.cap }
    {
        self.items.len() as u32
    }

    /// Whether no item is kept.
    pub fn is_empty(&self) -> bool
        ensures { result ≡ (length self.now.items == 0) }
    {
        self.items.is_empty()
    }

    /// How many items are kept at most.
    pub fn cap(&self) -> u32
        ensures cap { result ≡ self.now.cap }
        ensures ring { IsRing self.now }
    {
        self.items.capacity() as u32
    }

    /// The item of a number, where it is kept.
    pub fn get(&self, number: u64) -> Option<&T>
        ensures there { IsSome result ↔ IsKeptAt self.now number }
        ensures item { option_copied result ≡ item_of self.now number }
    {
        let first = self.first();
        if number < first {
            return None;
        }
        self.items.get((number - first) as usize)
    }

    /// Takes the items and the total of a ring of the same capacity.
    pub fn copy_from(&mut self, other: &Ring<T>)
        requires { self.old.cap ≡ other.now.cap }
        ensures { self.new ≡ other.now }
    {
        let (front, back) = other.items.as_slices();
        self.items.clear();
        self.items.extend_from_slice(front);
        self.items.extend_from_slice(back);
        self.total = other.total;
    }
}
