//! How far a program is read.
ghost use Rattle.std.specs.Prelude.{◌≡◌, ◌≤◌, ◌^◌, MatchResult, IfOk, Some, Ok, Err, true};
ghost use Rattle.std.specs.List.{list_all};
ghost use Rattle.std.specs.Char.{is_ascii};
ghost use Rattle.line_text.specs.Words.{words};
ghost use Rattle.grid_lang.specs.Programs.{start, step, keyword_step, finish, starts_comment, first_word};
ghost use Rattle.grid_lang.specs.ReaderViews.{state_of};
ghost use Rattle.grid_lang.specs.Reading.{AreAscii, IsStepped};

use crate::fault::LangFault;
use crate::halt::Halt;
use crate::keyword::{Keyword, part_of_keyword, read_keyword};
use crate::known::Known;
use crate::line::Numbered;
use crate::lines::read_line;
use crate::part::{Part, reached_after, stands};
use crate::words::Words;
use line_text::{is_text, next_word};
use std::alloc::Global;

/// What may come next, what is declared, and the lines so far.
#[derive(Drop)]
pub(crate) struct Reader {
    reached: Part,
    known: Known,
    lines: Vec<Numbered>,
}

// Whether a word starts with `#`.
fn is_comment_word(word: &[u8]) -> bool
    ensures { result ≡ starts_comment word.now }
{
    match word {
        [first, ..] => *first == b'#',
        [] => false,
    }
}

// The first word of some bytes, or none.
#[tactic(auto, using(crate::proofs::TextSteps::first_is, crate::proofs::TextSteps::first_none, crate::proofs::TextSteps::first_ascii))]
fn first_of(line: &[u8]) -> &[u8]
    requires { AreAscii (words line.now) }
    ensures first { result.now ≡ first_word (words line.now) }
    ensures ascii { list_all is_ascii result.now ≡ true }
{
    match next_word(line) {
        Some((word, _)) => word,
        None => b"",
    }
}

impl Reader {
    pub(crate) fn new(alloc: Global) -> Reader
        ensures { state_of result ≡ start }
    {
        Reader {
            reached: Part::Opening,
            known: Known::new(alloc),
            lines: Vec::new(alloc),
        }
    }

    // A line of a keyword.
    fn keyword_line(
        &mut self,
        alloc: Global,
        number: u32,
        keyword: Keyword,
        rest: &[u8],
    ) -> Result<(), Halt>
        requires { AreAscii (words rest.now) }
        ensures { IsStepped (keyword_step number (state_of self.old) (Some keyword) (words rest.now)) (state_of self.new) result }
    {
        let part = part_of_keyword(keyword);
        if !stands(self.reached, part) {
            return Err(Halt::Bad(LangFault::Order));
        }
        let mut words = Words::new(rest);
        let line = read_line(alloc, &self.known, keyword, &mut words)?;
        if self.known.passes_limit(&line) {
            return Err(Halt::Bad(LangFault::Limit));
        }
        self.known.declare(alloc, first_of(rest), &line)?;
        if self.lines.push(Numbered { number, line }).is_err() {
            return Err(Halt::NoMemory);
        }
        self.reached = reached_after(part);
        Ok(())
    }

    /// Takes the line of this number.
    #[tactic(auto, using(crate::proofs::TextSteps::words_are_ascii, crate::proofs::TextSteps::ascii_more), unfolding(crate::specs::Programs::step))]
    pub(crate) fn take(&mut self, alloc: Global, number: u32, text: &[u8]) -> Result<(), Halt>
        ensures steps { IsStepped (step number (state_of self.old) text.now) (state_of self.new) result }
        ensures few { IfOk result (λ u. number ≤ 4096) }
    {
        if text.len() > 1024 || number > 4096 {
            return Err(Halt::Bad(LangFault::Limit));
        }
        let is_plain = is_text(text);
        let Some((first, rest)) = next_word(text) else {
            if !is_plain {
                return Err(Halt::Bad(LangFault::NotText));
            }
            return Ok(());
        };
        if is_comment_word(first) {
            return Ok(());
        }
        if !is_plain {
            return Err(Halt::Bad(LangFault::NotText));
        }
        match read_keyword(first) {
            Some(keyword) => self.keyword_line(alloc, number, keyword, rest),
            None => Err(Halt::Bad(LangFault::Unknown)),
        }
    }

    /// The lines, where the text may end.
    pub(crate) fn finish(self) -> Result<Vec<Numbered>, LangFault>
        ensures { MatchResult result (λ lines. finish (state_of self) ≡ Ok lines.items) (λ fault. finish (state_of self) ≡ Err fault) }
    {
        match self.reached {
            Part::Opening => Err(LangFault::Order),
            Part::Declarations => Ok(self.lines),
            Part::Exchanges => Ok(self.lines),
            Part::Results => Ok(self.lines),
        }
    }
}
