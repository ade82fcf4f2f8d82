//! The words of a line, one after the other.
ghost use Rattle.std.specs.Prelude.{◌≡◌, ◌∷◌, ◌+◌, ◌≤◌, [], true, length, MatchOption, MatchResult, IfOk, IfSome, Ok, Err};
ghost use Rattle.std.specs.List.{list_all};
ghost use Rattle.std.specs.Char.{is_ascii};
ghost use Rattle.grid_lang.specs.ReaderViews.{declared_of};
ghost use Rattle.grid_lang.specs.Reading.{AreAscii, AreNumbers};
ghost use Rattle.grid_lang.specs.Table.{has_map_size};
ghost use Rattle.line_text.specs.Words.{words};
ghost use Rattle.grid_lang.specs.WordKinds.{integer, number, rank_below, order, scope, topology, character, pieces, any_word, grid, array, matrix, either, is_name, new_name, diag};
ghost use Rattle.grid_lang.specs.Kinds.{numbers, first, area, destination, lead, triangle, places};

use crate::fault::LangFault;
use crate::halt::Halt;
use crate::known::Known;
use crate::letters::{
    read_character, read_diag, read_order, read_pieces, read_scope, read_topology, read_uplo,
};
use crate::line::Area;
use crate::map_ranks::MapRanks;
use crate::numbers::{read_any, read_number, read_rank};
use line_text::next_word;
use pack_words::{Diag, Uplo};
use proc_grid::{Order, Scope};
use route_tree::Top;
use std::alloc::Global;
use std::marker::Model;

/// The words that are left of a line.
#[derive(Drop)]
pub(crate) struct Words<'a> {
    rest: &'a [u8],
}

impl<'a> Model for Words<'a> {
    ghost use Rattle.std.specs.Prelude.{ℕ, List};
    ghost use Rattle.line_text.specs.Words.{words};
    ghost use Rattle.grid_lang.specs.Reading.{AreAscii};

    ghost Value = { List (List ℕ) };

    ghost view = { λ w. words w.rest.now };

    ghost invariant = { λ w. AreAscii (words w.rest.now) };
}

// How many words a line has.
#[tactic(auto, using(crate::proofs::CountSteps::one_more, crate::proofs::CountSteps::none, crate::proofs::CountSteps::words_few))]
fn count_words(line: &[u8]) -> usize
    ensures { result ≡ length (words line.now) }
{
    let mut count = 0;
    let mut rest = line;
    while let Some((_, after)) = next_word(rest) {
        count += 1;
        rest = after;
    }
    count
}

impl<'a> Words<'a> {
    pub(crate) fn new(line: &'a [u8]) -> Words<'a>
        requires { AreAscii (words line.now) }
        ensures { result ≡ words line.now }
    {
        Words { rest: line }
    }

    /// How many are left.
    pub(crate) fn count(&self) -> usize
        ensures { result ≡ length self.now }
    {
        count_words(self.rest)
    }

    /// The next word.
    #[tactic(auto, using(crate::proofs::TextSteps::ascii_first, crate::proofs::TextSteps::ascii_more))]
    pub(crate) fn next(&mut self) -> Option<&'a [u8]>
        ensures takes { MatchOption result ((self.old ≡ []) × (self.new ≡ [])) (λ word. self.old ≡ word.now ∷ self.new) }
        ensures ascii { IfSome result (λ word. list_all is_ascii word.now ≡ true) }
    {
        match next_word(self.rest) {
            Some((word, rest)) => {
                self.rest = rest;
                Some(word)
            }
            None => None,
        }
    }

    /// n.
    pub(crate) fn number(&mut self) -> Result<u32, LangFault>
        ensures { MatchResult result (λ n. first number self.old ≡ Ok (n, self.new)) (λ fault. first number self.old ≡ Err fault) }
    {
        match self.next() {
            Some(word) => read_number(word),
            None => Err(LangFault::Words),
        }
    }

    /// A rank of the world.
    pub(crate) fn rank(&mut self, known: &Known) -> Result<u32, LangFault>
        ensures { MatchResult result (λ n. first (rank_below (declared_of known.now).ranks) self.old ≡ Ok (n, self.new))
            (λ fault. first (rank_below (declared_of known.now).ranks) self.old ≡ Err fault) }
    {
        match self.next() {
            Some(word) => read_rank(known.ranks(), word),
            None => Err(LangFault::Words),
        }
    }

    /// The order of a grid.
    pub(crate) fn order(&mut self) -> Result<Order, LangFault>
        ensures { MatchResult result (λ o. first order self.old ≡ Ok (o, self.new)) (λ fault. first order self.old ≡ Err fault) }
    {
        match self.next() {
            Some(word) => read_order(word),
            None => Err(LangFault::Words),
        }
    }

    /// A name that isn't declared.
    pub(crate) fn new_name(&mut self, known: &Known) -> Result<&'a [u8], LangFault>
        ensures reads { MatchResult result (λ name. first (new_name (declared_of known.now)) self.old ≡ Ok (name.now, self.new))
            (λ fault. first (new_name (declared_of known.now)) self.old ≡ Err fault) }
        ensures name { IfOk result (λ name. is_name name.now ≡ true) }
    {
        match self.next() {
            Some(word) => match known.check_new(word) {
                Ok(()) => Ok(word),
                Err(fault) => Err(fault),
            },
            None => Err(LangFault::Words),
        }
    }

    /// G.
    pub(crate) fn grid(&mut self, known: &Known) -> Result<u32, LangFault>
        ensures { MatchResult result (λ g. first (grid (declared_of known.now)) self.old ≡ Ok (g, self.new)) (λ fault. first (grid (declared_of known.now)) self.old ≡ Err fault) }
    {
        match self.next() {
            Some(word) => known.grid(word),
            None => Err(LangFault::Words),
        }
    }

    /// X.
    pub(crate) fn array(&mut self, known: &Known) -> Result<u32, LangFault>
        ensures { MatchResult result (λ x. first (array (declared_of known.now)) self.old ≡ Ok (x, self.new)) (λ fault. first (array (declared_of known.now)) self.old ≡ Err fault) }
    {
        match self.next() {
            Some(word) => known.array(word),
            None => Err(LangFault::Words),
        }
    }

    /// V.
    pub(crate) fn matrix(&mut self, known: &Known) -> Result<u32, LangFault>
        ensures { MatchResult result (λ v. first (matrix (declared_of known.now)) self.old ≡ Ok (v, self.new)) (λ fault. first (matrix (declared_of known.now)) self.old ≡ Err fault) }
    {
        match self.next() {
            Some(word) => known.matrix(word),
            None => Err(LangFault::Words),
        }
    }

    /// Y.
    pub(crate) fn either(&mut self, known: &Known) -> Result<u32, LangFault>
        ensures { MatchResult result (λ y. first (either (declared_of known.now)) self.old ≡ Ok (y, self.new)) (λ fault. first (either (declared_of known.now)) self.old ≡ Err fault) }
    {
        match self.next() {
            Some(word) => known.either(word),
            None => Err(LangFault::Words),
        }
    }

    /// DIAG.
    pub(crate) fn diag(&mut self) -> Result<Diag, LangFault>
        ensures { MatchResult result (λ d. first diag self.old ≡ Ok (d, self.new)) (λ fault. first diag self.old ≡ Err fault) }
    {
        match self.next() {
            Some(word) => read_diag(word),
            None => Err(LangFault::Words),
        }
    }

    /// `Y i j M N`.
    #[tactic(auto, unfolding(crate::specs::Kinds::area))]
    pub(crate) fn area(&mut self, known: &Known) -> Result<Area, LangFault>
        ensures { MatchResult result (λ a. area (declared_of known.now) self.old ≡ Ok (a, self.new)) (λ fault. area (declared_of known.now) self.old ≡ Err fault) }
    {
        let array = self.either(known)?;
        let i = self.number()?;
        let j = self.number()?;
        let m = self.number()?;
        let n = self.number()?;
        Ok(Area { array, i, j, m, n })
    }

    /// Optionally UPLO and DIAG.
    #[tactic(auto, unfolding(crate::specs::Kinds::triangle))]
    pub(crate) fn triangle(&mut self) -> Result<Option<(Uplo, Diag)>, LangFault>
        ensures { MatchResult result (λ t. triangle self.old ≡ Ok (t, self.new)) (λ fault. triangle self.old ≡ Err fault) }
    {
        let Some(word) = self.next() else {
            return Ok(None);
        };
        let uplo = read_uplo(word)?;
        let diag = self.diag()?;
        Ok(Some((uplo, diag)))
    }

    /// z.
    pub(crate) fn any(&mut self) -> Result<i32, LangFault>
        ensures { MatchResult result (λ x. first integer self.old ≡ Ok (x, self.new)) (λ fault. first integer self.old ≡ Err fault) }
    {
        match self.next() {
            Some(word) => read_any(word),
            None => Err(LangFault::Words),
        }
    }

    /// A scope.
    pub(crate) fn scope(&mut self) -> Result<Scope, LangFault>
        ensures { MatchResult result (λ x. first scope self.old ≡ Ok (x, self.new)) (λ fault. first scope self.old ≡ Err fault) }
    {
        match self.next() {
            Some(word) => read_scope(word),
            None => Err(LangFault::Words),
        }
    }

    /// A topology.
    pub(crate) fn topology(&mut self) -> Result<Top, LangFault>
        ensures { MatchResult result (λ x. first topology self.old ≡ Ok (x, self.new)) (λ fault. first topology self.old ≡ Err fault) }
    {
        match self.next() {
            Some(word) => read_topology(word),
            None => Err(LangFault::Words),
        }
    }

    /// Any character.
    pub(crate) fn character(&mut self) -> Result<char, LangFault>
        ensures { MatchResult result (λ x. first character self.old ≡ Ok (x, self.new)) (λ fault. first character self.old ≡ Err fault) }
    {
        match self.next() {
            Some(word) => read_character(word),
            None => Err(LangFault::Words),
        }
    }

    /// The word PIECES.
    pub(crate) fn pieces(&mut self) -> Result<(), LangFault>
        ensures { MatchResult result (λ x. first pieces self.old ≡ Ok (x, self.new)) (λ fault. first pieces self.old ≡ Err fault) }
    {
        match self.next() {
            Some(word) => read_pieces(word),
            None => Err(LangFault::Words),
        }
    }

    /// A file name: any word.
    #[tactic(auto, unfolding(crate::specs::WordKinds::any_word))]
    pub(crate) fn file(&mut self) -> Result<&'a [u8], LangFault>
        ensures reads { MatchResult result (λ file. first any_word self.old ≡ Ok (file.now, self.new)) (λ fault. first any_word self.old ≡ Err fault) }
        ensures ascii { IfOk result (λ file. list_all is_ascii file.now ≡ true) }
    {
        match self.next() {
            Some(word) => Ok(word),
            None => Err(LangFault::Words),
        }
    }

    /// `rdest cdest`.
    #[tactic(auto, using(crate::proofs::ScopeSteps::one_place, crate::proofs::ScopeSteps::every_place, crate::proofs::ScopeSteps::bad_place), unfolding(crate::specs::Kinds::destination))]
    pub(crate) fn destination(&mut self) -> Result<Option<(u32, u32)>, LangFault>
        ensures { MatchResult result (λ d. destination self.old ≡ Ok (d, self.new)) (λ fault. destination self.old ≡ Err fault) }
    {
        let row = self.any()?;
        if row >= 0 {
            let column = self.number()?;
            Ok(Some((row.unsigned_abs(), column)))
        } else if row == -1 {
            self.any()?;
            Ok(None)
        } else {
            Err(LangFault::Number)
        }
    }

    /// Optionally LLD.
    #[tactic(auto, unfolding(crate::specs::Kinds::lead))]
    pub(crate) fn lead(&mut self) -> Result<Option<i32>, LangFault>
        ensures { MatchResult result (λ l. lead self.old ≡ Ok (l, self.new)) (λ fault. lead self.old ≡ Err fault) }
    {
        let Some(word) = self.next() else {
            return Ok(None);
        };
        let lld = read_any(word)?;
        Ok(Some(lld))
    }

    /// Optionally RA and CA.
    #[tactic(auto, unfolding(crate::specs::Kinds::places))]
    pub(crate) fn places(&mut self, known: &Known) -> Result<Option<(u32, u32)>, LangFault>
        ensures { MatchResult result (λ p. places (declared_of known.now) self.old ≡ Ok (p, self.new)) (λ fault. places (declared_of known.now) self.old ≡ Err fault) }
    {
        let Some(word) = self.next() else {
            return Ok(None);
        };
        let rows = known.either(word)?;
        let columns = self.either(known)?;
        Ok(Some((rows, columns)))
    }

    /// Whether there are as many as MAP wants.
    pub(crate) fn has_map_size(&self) -> bool
        ensures { result ≡ has_map_size self.now }
    {
        let mut peek = Words { rest: self.rest };
        if peek.next().is_none() {
            return false;
        }
        let Some(nprow) = peek.next() else {
            return false;
        };
        let Some(npcol) = peek.next() else {
            return false;
        };
        let count = peek.count();
        match read_number(nprow) {
            Ok(nprow) => match read_number(npcol) {
                Ok(npcol) => count as u64 == u64::from(nprow) * u64::from(npcol),
                Err(_) => true,
            },
            Err(_) => true,
        }
    }

    /// All that are left, as numbers n.
    #[tactic(auto, using(crate::proofs::ListSteps::none_yet, crate::proofs::ListSteps::one_more, crate::proofs::ListSteps::bad_one, crate::proofs::ListSteps::all_of))]
    pub(crate) fn numbers(&mut self, alloc: Global) -> Result<MapRanks, Halt>
        ensures { AreNumbers (numbers self.old) result }
    {
        let mut ranks = Vec::new(alloc);
        while let Some(word) = self.next() {
            match read_number(word) {
                Ok(rank) => match ranks.push(rank) {
                    Ok(()) => {}
                    Err(_) => return Err(Halt::NoMemory),
                },
                Err(fault) => return Err(Halt::Bad(fault)),
            }
        }
        Ok(MapRanks::new(ranks))
    }
}
