//! Tests of the machine of a build and of the board: a row of events, all runs of a small machine, and sessions in threads beside
//! a builder.
#![tactic(auto)]

#[cfg(test)]
mod events;
#[cfg(test)]
mod interleavings;
#[cfg(test)]
mod sessions;
