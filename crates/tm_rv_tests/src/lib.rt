//! The tests of what the machine's parts stand on, the instruction table and the resources and alarms, over
//! their public calls. They stand in a crate of their own so that what they test is proved once.
#![tactic(auto)]

#[cfg(test)]
mod rv;
#[cfg(test)]
mod services;
