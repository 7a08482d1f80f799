#![tactic(auto)]

// No code: what the search promises on codes, tied to the definitions of crate spec.
