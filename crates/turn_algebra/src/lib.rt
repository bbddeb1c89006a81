//! How a turn goes on part by part, whatever the parts are: the pieces of a talk, or the changes of some records.
//!
//! It has no code. `specs/Going.antt` has the words that contracts use of a turn, and `proofs/GoingLemmas.antt` the lemmas that put one
//! part of a turn after another.
#![tactic(auto)]
