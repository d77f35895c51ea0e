//! Machines written as chains and opened again, run as tests.
#![tactic(auto)]

#[cfg(test)]
mod trips;
