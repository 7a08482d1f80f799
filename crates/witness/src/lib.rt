// The witness of rows that are equivalent to the question: its two parts, each the first, as bytes.
#![tactic(auto)]

pub mod back; // from the rewriting's expansion to the question
mod bytes; // places written as bytes
pub mod there; // from the question to the rewriting's expansion
