//! Outside calls that fail, and dumps that were changed field by field: what the call `tm` answers to each, over
//! a shelf and a sink in memory.
#![tactic(auto)]

#[cfg(test)]
mod calls;
#[cfg(test)]
mod diverged;
#[cfg(test)]
mod dumps;
#[cfg(test)]
mod failing;
#[cfg(test)]
mod refused;
