//! The one kind of list that public types hold: contracts see it as a list.

ghost use Rattle.std.specs.Prelude.{◌≡◌, ◌<◌, List, [], ◌∷◌, ◌++◌, ◌==◌, length, slice_get, slice_set, OnOk, OnErr};

use std::alloc::{AllocError, Global};
use std::marker::Model;

/// A list of items, made from a `Vec` and given back as one without taking memory.
#[derive(Debug, Drop)]
pub struct Items<T> {
    items: Vec<T>,
}

impl<T> Model for Items<T> {
    ghost use Rattle.std.specs.Prelude.{List};

    ghost Value = { List T };

    ghost view = { λ s. s.items.items };
}

impl<T> Items<T> {
    /// No items.
    pub fn new(alloc: Global) -> Self
        ensures { result ≡ [] }
    {
        Items {
            items: Vec::new(alloc),
        }
    }

    /// How many items there are.
    pub fn len(&self) -> usize
        ensures { result ≡ length self.now }
    {
        self.items.len()
    }

    pub fn is_empty(&self) -> bool
        ensures { result ≡ (length self.now == 0) }
    {
        self.items.is_empty()
    }

    /// The items in order.
    pub fn as_slice(&self) -> &[T]
        ensures { result.now ≡ self.now }
    {
        self.items.as_slice()
    }

    /// Adds an item at the end. On want of memory the list is as before.
    pub fn push(&mut self, item: T) -> Result<(), AllocError>
    where
        T: Drop,
        ensures ok { OnOk result (self.new ≡ self.old ++ item ∷ []) }
        ensures err { OnErr result (self.new ≡ self.old) }
    {
        self.items.push(item)?;
        Ok(())
    }
}

impl<T: Copy> Items<T> {
    /// The item at an index below the length.
    pub fn at(&self, index: usize) -> T
        requires { index < length self.now }
        ensures { slice_get self.now index ≡ Some result }
    {
        self.items[index]
    }

    /// Puts as many items in the place of those that there are.
    pub fn copy_from_slice(&mut self, items: &[T])
        requires { length self.old ≡ length items.now }
        ensures { self.new ≡ items.now }
    {
        self.items.copy_from_slice(items);
    }

    /// Puts an item in the place of another.
    pub fn set(&mut self, index: usize, item: T)
        requires { index < length self.old }
        ensures { self.new ≡ slice_set self.old index item }
    {
        self.items[index] = item;
    }
}

impl<T> From<Vec<T>> for Items<T> {
    ghost from_gives = { λ v items. items ≡ v.items };

    fn from(items: Vec<T>) -> Self {
        Items { items }
    }
}

impl<T> From<Items<T>> for Vec<T> {
    ghost from_gives = { λ items v. v.items ≡ items };

    fn from(items: Items<T>) -> Self {
        items.items
    }
}
