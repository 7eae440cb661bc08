//! What a run answers holds in every world, finite or not.
//!
//! The clause `answer` of `run` says by which words and bytes which text is written (`ontology_jobs`). What follows
//! means there that it is so in each finite interpretation. Here the same answers are read in any world, over a domain
//! of any kind (`all_worlds`): where the text begins with `entailed`, the query follows in it; lists are exactly the
//! justifications or the repairs by what follows in it; and so it is with audits, evidence, taxonomies, types,
//! instances, reasons and sessions. A query that is answered by a no fails already in a finite world, that of its
//! counter-model. What is read is within the limits of ontologies, and within these what is entailed is what follows
//! in every world (`answers_everywhere`).
//!
//! A clause cannot speak of all domains at once. A law that is generic over `World` does: it is proved once, of any
//! world over any domain.
#![tactic(auto)]

mod lists;
mod names;
mod verdicts;

pub use all_worlds::World;
pub use lists::{
    accepted_audits_list_all_everywhere, evidence_lists_all_everywhere, lists_are_whole_everywhere,
    partial_lists_hold_everywhere,
};
pub use names::{
    instances_hold_everywhere, reasons_hold_everywhere, taxonomies_hold_everywhere,
    types_hold_everywhere,
};
pub use verdicts::{
    a_no_fails_in_a_finite_world, a_yes_follows_everywhere,
    accepted_queries_fail_in_a_finite_world, accepted_queries_follow_everywhere,
    sessions_hold_everywhere,
};
