//! Tests of the promises of the matrix about every run.
#![tactic(auto)]

#[cfg(test)]
mod promised;
