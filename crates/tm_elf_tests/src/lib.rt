//! The tests of executables, over the public calls that read them. They stand in a crate of their own so that
//! what they test is proved once.
#![tactic(auto)]

#[cfg(test)]
mod executables;
