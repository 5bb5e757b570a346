//! The tests of the bounded buffers, from one ring and the checkpoints of one task to the window of them all,
//! over their public calls. They stand in a crate of their own so that what they test is proved once.
#![tactic(auto)]

#[cfg(test)]
mod check;
#[cfg(test)]
mod log;
#[cfg(test)]
mod ring;
