//! Rings: the last items of a list that only grows, and how many items it has had.
//!
//! [`Ring`] takes all its memory when it is made; [`Ring::push`] takes none. The items are numbered
//! from 0, and an item keeps its number when older ones are dropped.
#![tactic(auto)]

pub mod laws;
mod ring;

pub use ring::Ring;
