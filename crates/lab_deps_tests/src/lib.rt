//! Tests of the dependencies between transactions: the pass over the versions of each row, compared with an
//! implementation that compares each operation with each installer; and the cells for each two transactions, compared
//! with both. Also tests of calls of the libraries up to the dependencies whose allocations fail.
#![tactic(auto)]

#[cfg(test)]
mod alike;
#[cfg(test)]
mod bare;
#[cfg(test)]
mod inputs;
#[cfg(test)]
mod pairs;
#[cfg(test)]
mod plays;
#[cfg(test)]
mod refused;
#[cfg(test)]
mod refused_calls;
#[cfg(test)]
mod refused_edges;
#[cfg(test)]
mod refused_logs;
#[cfg(test)]
mod refused_statements;
#[cfg(test)]
mod refused_steps;
#[cfg(test)]
mod told;
