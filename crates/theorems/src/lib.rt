#![tactic(auto)]

// No code: theorems of the two public functions, `rewriter::rewrite` and `checker::check`.
