//! Tests of the sample that is made from a number, against a plain program that makes each polynomial and asks for its answer.
#![tactic(auto)]

#[cfg(test)]
mod samples;
