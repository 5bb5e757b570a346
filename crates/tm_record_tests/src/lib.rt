//! The tests of the recorder and of the window that it fills, over its public calls. They stand in a crate of
//! their own so that what they test is proved once.
#![tactic(auto)]

#[cfg(test)]
mod record;
