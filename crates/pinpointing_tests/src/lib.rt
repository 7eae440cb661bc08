//! Tests of pinpointing over sets in memory, of local modules, and of workloads.
#![tactic(auto)]

#[cfg(test)]
mod call_tests;
#[cfg(test)]
mod checks;
#[cfg(test)]
mod family_tests;
#[cfg(test)]
mod module_tests;
#[cfg(test)]
mod written_sets;
