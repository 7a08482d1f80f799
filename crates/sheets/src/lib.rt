#![tactic(auto)]

// No code: the proved sheets, from the bytes of a book to what comes of it; the table in specs/, its statement in proofs/.
