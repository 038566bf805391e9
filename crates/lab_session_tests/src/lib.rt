//! Tests of sessions: properties of locks and threads that no contract states and the program can't show.
//!
//! A function that returns early while it owns a large value, such as a seat, a lab, a script or a recording, passes it
//! to `drop` explicitly. A drop that the compiler inserts at the exit makes the function several times slower to prove.
#![tactic(auto)]

#[cfg(test)]
mod calls;
#[cfg(test)]
mod ends;
#[cfg(test)]
mod engines;
#[cfg(test)]
mod forced;
#[cfg(test)]
mod full;
#[cfg(test)]
mod given_up;
#[cfg(test)]
mod goes_on;
#[cfg(test)]
mod instrumented;
#[cfg(test)]
mod listings;
#[cfg(test)]
mod meeting;
#[cfg(test)]
mod runs;
#[cfg(test)]
mod seats;
#[cfg(test)]
mod starts;
#[cfg(test)]
mod woken;
