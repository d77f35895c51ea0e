//! Worked examples of sheets and runs, run as tests.
#![tactic(auto)]

#[cfg(test)]
mod limits;
#[cfg(test)]
mod worked_by_hand;
