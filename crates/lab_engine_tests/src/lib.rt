//! Tests of the ends of runs, compared with a plain implementation, and of benches whose allocations fail, at each
//! level.
#![tactic(auto)]

#[cfg(test)]
mod closes;
#[cfg(test)]
mod handed;
#[cfg(test)]
mod listings;
#[cfg(test)]
mod plain_close;
#[cfg(test)]
mod refused;
#[cfg(test)]
mod scripts;
