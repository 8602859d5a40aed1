//! Tests of the crates of the algebra: linearized identities, problems, monomials by numbers, derivations, rows and their elimination, kernels over slices.
#![tactic(auto)]

#[cfg(test)]
mod derivations;
#[cfg(test)]
mod elimination;
#[cfg(test)]
mod identities;
#[cfg(test)]
mod lanes;
#[cfg(test)]
mod numbers;
#[cfg(test)]
mod problems;
#[cfg(test)]
mod rows;
