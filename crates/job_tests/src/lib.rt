//! Tests of calls below the jobs: of audits, sessions and realizations, of lists of reasons and repairs over objects of
//! different kinds, and of refutations over sets of axioms. What can be said by text stands in `job_cases`.
#![tactic(auto)]

#[cfg(test)]
mod asker_tests;
#[cfg(test)]
mod audit_tests;
#[cfg(test)]
mod reading;
#[cfg(test)]
mod realization_tests;
#[cfg(test)]
mod refuting_tests;
#[cfg(test)]
mod session_calls;
#[cfg(test)]
mod set_tests;
#[cfg(test)]
mod transversal_tests;
