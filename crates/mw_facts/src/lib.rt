//! Common facts on lists, options, counts and tests: lemmas that proofs of several crates cite. There is no code here,
//! and no definition that a contract cites.
#![tactic(auto)]
