// Whether bytes are the two parts of a witness, for rows that are given: one pass each, no search.
#![tactic(auto)]

pub mod back; // from the rewriting's expansion to the question
pub mod there; // from the question to the rewriting's expansion
