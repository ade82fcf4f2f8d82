//! Matrix Market array files: the definitions of an accepted text and of the one fault of every other, with their laws.
#![tactic(auto)]
