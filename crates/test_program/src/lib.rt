//! Tests of the program as a function: faults of its input and output, long lines, its words, what `prove` prints as evidence;
//! and of what stands below its questions: how a building ends, and derivations out of a table.
#![tactic(auto)]

#[cfg(test)]
mod building;
#[cfg(test)]
mod derivations;
#[cfg(test)]
mod evidence;
#[cfg(test)]
mod faults;
#[cfg(test)]
mod lines;
#[cfg(test)]
mod runs;
#[cfg(test)]
mod words;
