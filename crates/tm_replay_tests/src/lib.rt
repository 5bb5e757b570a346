//! The tests of the replay of one task: recorded runs of two tasks, over the public calls. They stand in a crate of
//! their own so that what they test is proved once.
#![tactic(auto)]

#[cfg(test)]
mod task;
