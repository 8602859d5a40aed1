//! Tests of the crates of tables: what a table has, the columns, tuples and rows of an instance, the building of a table, answers
//! by it, and tables as evidence.
#![tactic(auto)]

#[cfg(test)]
mod building;
#[cfg(test)]
mod counterexamples;
#[cfg(test)]
mod instances;
#[cfg(test)]
mod questions;
#[cfg(test)]
mod tables;
#[cfg(test)]
mod workers;
