//! A word that was asked for.
ghost use Rattle.std.specs.Prelude.{◌≡◌, true, IfOk};
ghost use Rattle.tool_words.specs.FileName.{is_name};

use byte_text::Text;
use std::alloc::{AllocError, Global};
use std::marker::Model;

/// A name among the words: contracts see it as the bytes of its text. It has 1 to 1,024 bytes, none of them zero.
#[derive(Debug, Drop)]
pub struct Word {
    text: Text,
}

impl Model for Word {
    ghost use Rattle.std.specs.Prelude.{◌≡◌, ℕ, List, true};
    ghost use Rattle.tool_words.specs.FileName.{is_name};

    ghost Value = { List ℕ };

    ghost view = { λ w. w.text };

    ghost invariant = { λ w. is_name w.text ≡ true };
}

impl Word {
    pub(crate) fn new(alloc: Global, text: &str) -> Result<Word, AllocError>
        requires { is_name text.now ≡ true }
        ensures { IfOk result (λ w. w ≡ text.now) }
    {
        let text = Text::new(String::from_str(alloc, text)?);
        Ok(Word { text })
    }

    /// The text of the word, lent.
    pub fn as_str(&self) -> &str
        ensures text { result.now ≡ self.now }
        ensures name { is_name self.now ≡ true }
    {
        self.text.as_str()
    }

    /// The text of the word, given up. It takes no memory.
    pub fn into_text(self) -> Text
        ensures text { result ≡ self }
        ensures name { is_name result ≡ true }
    {
        self.text
    }
}
