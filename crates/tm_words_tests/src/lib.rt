//! The tests of words: command lines, and what they ask for. They stand in a crate of their own so that what they
//! test is proved once.
#![tactic(auto)]

#[cfg(test)]
mod asked;
#[cfg(test)]
mod refused;
#[cfg(test)]
mod told;
