//! Piece files: the definitions of an accepted piece and of the one fault of every other file, of all pieces of a matrix, and of the text that is written, with their laws.
#![tactic(auto)]
