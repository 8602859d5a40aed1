//! Tests of the crates of the language: fields, monomials, lines of bytes, tokens, polynomials, their readers and their writers.
#![tactic(auto)]

#[cfg(test)]
mod fields;
#[cfg(test)]
mod lines;
#[cfg(test)]
mod monomials;
#[cfg(test)]
mod polynomials;
#[cfg(test)]
mod printing;
#[cfg(test)]
mod reading;
#[cfg(test)]
mod tokens;
