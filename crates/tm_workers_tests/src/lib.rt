//! The tests of a replay by several workers: that they are at work beside each other, which no clause says, and that
//! their answer on a large recorded run is that of one. They stand in a crate of their own so that what they test is
//! proved once.
#![tactic(auto)]

#[cfg(test)]
mod answers;
#[cfg(test)]
mod beside;
#[cfg(test)]
mod runs;
