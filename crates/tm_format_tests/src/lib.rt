//! The tests of the formats and of the edge: images, plans and plants that are read, texts, tapes and audits
//! that are written, and the texts of faults. They stand in a crate of their own so that what they test is proved once.
#![tactic(auto)]

#[cfg(test)]
mod audit;
#[cfg(test)]
mod image;
#[cfg(test)]
mod io;
#[cfg(test)]
mod plant;
#[cfg(test)]
mod text;
