//! Names of arrays and files.
ghost use Rattle.std.specs.Prelude.{◌≡◌, IfOk, true};
ghost use Rattle.std.specs.List.{list_all};
ghost use Rattle.std.specs.Char.{is_ascii};

use std::alloc::{AllocError, Global};
use std::marker::Model;

/// The name of an array or a file: contracts see it as the bytes of its text.
#[derive(Debug, Drop)]
pub struct Ident {
    text: String,
}

impl Model for Ident {
    ghost use Rattle.std.specs.Prelude.{ℕ, List, string_bytes};

    ghost Value = { List ℕ };

    ghost view = { λ i. string_bytes i.text };
}

/// The text of bytes that are all ASCII.
#[tactic(auto, using(crate::proofs::IdentSteps::is_utf8))]
pub(crate) fn text_of(bytes: &[u8]) -> &str
    requires { list_all is_ascii bytes.now ≡ true }
    ensures { result.now ≡ bytes.now }
{
    match str::from_utf8(bytes) {
        Ok(text) => text,
        Err(_) => unreachable!(),
    }
}

impl Ident {
    /// The name of bytes that are all ASCII.
    pub(crate) fn new(alloc: Global, bytes: &[u8]) -> Result<Ident, AllocError>
        requires { list_all is_ascii bytes.now ≡ true }
        ensures { IfOk result (λ i. i ≡ bytes.now) }
    {
        let text = String::from_str(alloc, text_of(bytes))?;
        Ok(Ident { text })
    }

    /// The text of the name.
    pub fn as_str(&self) -> &str
        ensures { result.now ≡ self.now }
    {
        self.text.as_str()
    }
}
