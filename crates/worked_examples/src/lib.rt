//! Worked examples of machines, stored forms and reports, run as tests.
#![tactic(auto)]

#[cfg(test)]
mod chains;
#[cfg(test)]
mod forms_and_kinds;
#[cfg(test)]
mod reduced;
#[cfg(test)]
mod walks;
