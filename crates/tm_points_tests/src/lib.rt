//! The tests of the finder of accepted points, over its public calls. They stand in a crate of their own so
//! that what they test is proved once.
#![tactic(auto)]

#[cfg(test)]
mod finder;
