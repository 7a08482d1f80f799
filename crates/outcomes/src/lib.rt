#![tactic(auto)]

// No code: what a book of bytes is given or refused with, and what the checker says yes to: that there is one such thing for every book, and what it means.
