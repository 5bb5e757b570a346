//! The tests of the text of an image: texts that are read and written again. They stand in a crate of their own
//! so that what they test is proved once.
#![tactic(auto)]

#[cfg(test)]
mod text;
