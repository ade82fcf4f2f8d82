//! The names of piece files.
ghost use Rattle.std.specs.Prelude.{◌≡◌, IfOk, string_bytes};
ghost use Rattle.piece_grammar.specs.PlainPiece.{piece_name as name_of_piece};

use std::alloc::{AllocError, Global};
use std::marker::Model;

/// The name of a file, seen as the bytes of its text.
#[derive(Debug, Drop)]
pub struct Name {
    text: String,
}

impl Model for Name {
    ghost use Rattle.std.specs.Prelude.{ℕ, List, string_bytes};

    ghost Value = { List ℕ };

    ghost view = { λ n. string_bytes n.text };
}

impl Name {
    /// The name of this text. It takes no memory.
    pub fn new(text: String) -> Name
        ensures { result ≡ string_bytes text }
    {
        Name { text }
    }

    /// The text of the name.
    pub fn as_str(&self) -> &str
        ensures { result.now ≡ self.now }
    {
        self.text.as_str()
    }
}

/// The name of the piece of process row `prow` and process column `pcol`: `prefix.prow.pcol`, both in decimal.
pub fn piece_name(alloc: Global, prefix: &str, prow: u32, pcol: u32) -> Result<String, AllocError>
    ensures { IfOk result (λ name. string_bytes name ≡ name_of_piece prefix.now prow pcol) }
{
    format!(in alloc; "{prefix}.{prow}.{pcol}")
}
