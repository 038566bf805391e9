//! Tests of the libraries below the engines: properties that no contract states and the program can't show.
//!
//! They test calls whose allocations fail, the state after such a failure, and calls that no argument of the program
//! reaches.
#![tactic(auto)]

#[cfg(test)]
mod alike;
#[cfg(test)]
mod histories;
#[cfg(test)]
mod limits;
#[cfg(test)]
#[cfg(test)]
mod refused;
#[cfg(test)]
mod statements;
