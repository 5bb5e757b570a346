//! Checkpoints: the last bodies of one task at the starts of its epochs, and how many there were.
//!
//! [`Checks`] takes all its memory when it is made; [`Checks::push`] takes none.
//! [`Checks::with_epoch`] answers a [`CheckRef`], by which a kept body is restored or read.
#![tactic(auto)]

mod checks;
mod slot;

pub use checks::{CheckRef, Checks};
