//! Tests of the subcommands' functions: properties that no contract states and the program itself can't show.
//!
//! Each subcommand has a table of inputs and expected outputs. Other tests use streams that transfer a few bytes at a
//! time, are interrupted, fail or never end; files in memory that fail or change; and failing allocations. One test
//! copies a transcript, which no subcommand does.
#![tactic(auto)]

#[cfg(test)]
mod bounds;
#[cfg(test)]
mod case;
#[cfg(test)]
mod chain;
#[cfg(test)]
mod failing;
#[cfg(test)]
mod failing_files;
#[cfg(test)]
mod files;
#[cfg(test)]
mod judge;
#[cfg(test)]
mod parts;
#[cfg(test)]
mod refused;
#[cfg(test)]
mod run;
#[cfg(test)]
mod serial;
#[cfg(test)]
mod streams;
#[cfg(test)]
mod transcript;
#[cfg(test)]
mod words;
