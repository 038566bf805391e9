//! Tests of orders: results compared with a plain implementation, and calls whose allocations fail.
#![tactic(auto)]

#[cfg(test)]
mod comparing;
#[cfg(test)]
#[cfg(test)]
mod refused;
#[cfg(test)]
mod scanning;
