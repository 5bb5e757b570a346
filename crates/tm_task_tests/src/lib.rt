//! The tests of one task, its instructions and answers, over its public calls. They stand in a crate of their
//! own so that what they test is proved once.
#![tactic(auto)]

#[cfg(test)]
mod task;
