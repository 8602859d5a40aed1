//! Tests of the host as a function: what its runs report and its sessions write, a fault at each call of the desk, of each file and of
//! the output, and a gate that shows that blocks are made side by side while a session is answered.
#![tactic(auto)]

#[cfg(test)]
mod desks;
#[cfg(test)]
mod faults;
#[cfg(test)]
mod gate;
#[cfg(test)]
mod rows;
#[cfg(test)]
mod runs;
