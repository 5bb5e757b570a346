//! The tests of the kernel and of each of its services, over its public calls. They stand in a crate of their
//! own so that what they test is proved once.
#![tactic(auto)]

#[cfg(test)]
mod kernel;
