//! Observers of a recorder that other threads run beside it.
//!
//! A [`Watch`] publishes slices. Each of its [`Observer`]s looks at a recorder of the slices that were published
//! so far: a look waits for no slice, and no slice waits for a look that begins after it. What an observer sees
//! goes on from what it saw before. A [`Note`] carries the list of published slices to an observer, which from
//! then on sees no less.
#![tactic(auto)]

mod entry;
mod history;
mod laws;
mod note;
mod observer;
mod rule;
mod run;
mod untold;
mod version;
mod watch;

pub use laws::ends_cross_threads;
pub use note::Note;
pub use observer::Observer;
pub use watch::Watch;

#[cfg(test)]
mod tests;
