//! Sets of numbers as lists of words of 64 bits, and a sieve over a table of bit signatures.
//!
//! Number `k` is in a set where bit `k % 64` of word `k / 64` is set. The kernels over whole words (part of, meets,
//! united) load four words at once, the width of a 256-bit vector register, and finish word by word. Each is proved
//! equal to the plain definition over the lists, and [`words_are_sets`] ties the lists to finite sets, so that callers
//! reason about members and never about bits.
//!
//! A [`Lanes`] table keeps one signature of 256 bits a row, as subsumption tests of SAT solvers keep one of 64 bits a
//! clause (Niklas Eén and Armin Biere, "Effective Preprocessing in SAT through Variable and Clause Elimination", SAT
//! 2005): what is part of a row has a signature that is part of the row's. [`candidates`] writes the places of all rows
//! that pass this test. The first words stand in a column of their own besides, so that four rows are ruled out by one
//! comparison.
#![tactic(auto)]

mod block;
mod lanes;
mod law;
mod members;
mod new_words;
mod numbers;
mod order;
mod pairs;
mod words;

pub use lanes::{Lanes, candidates};
pub use law::words_are_sets;
pub use members::{count_numbers, has_number, last_number, next_number, put_number, take_number};
pub use new_words::{copy_words, repeat_word};
pub use numbers::Numbers;
pub use order::compare_numbers;
pub use pairs::{do_meet, is_part, subtract, unite};
pub use shq_base::NoMemory;
pub use words::{meets_words, subset_words, union_words};
