#![tactic(auto)]

// No code: the mathematics of the search for the first of the shortest lists, in specs/.
