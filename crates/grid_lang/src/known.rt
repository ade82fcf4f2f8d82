//! What is declared so far.
ghost use Rattle.std.specs.Prelude.{◌≡◌, ◌+◌, ◌<◌, ◌≤◌, true, false, IfOk, IfErr, Ok, Err, length};
ghost use Rattle.grid_lang.specs.Names.{no_names, names_of, with_name};
ghost use Rattle.grid_lang.specs.ReaderViews.{declared_of};
ghost use Rattle.grid_lang.specs.Programs.{passes_limit, declared_by};
ghost use Rattle.std.specs.List.{list_all};
ghost use Rattle.std.specs.Char.{is_ascii};
ghost use Rattle.grid_lang.specs.WordKinds.{grid, array, matrix, either, is_name, new_name};

use crate::fault::LangFault;
use crate::ident::text_of;
use crate::line::Line;
use crate::named::Named;
use crate::names::is_name_word;
use std::alloc::{AllocError, Global};
use std::collections::BTreeMap;

/// The number of ranks, the names, and how many grids and arrays there are.
#[derive(Drop)]
pub(crate) struct Known {
    ranks: u32,
    names: BTreeMap<String, Named>,
    grids: u32,
    arrays: u32,
}

const MOST_RANKS: u32 = 64;

const MOST_GRIDS: u32 = 16;

const MOST_ARRAYS: u32 = 64;

const MOST_EXTENT: u32 = 1 << 24;

// One name more.
fn add(
    names: &mut BTreeMap<String, Named>,
    alloc: Global,
    word: &[u8],
    what: Named,
) -> Result<(), AllocError>
    requires { list_all is_ascii word.now ≡ true }
    ensures { IfOk result (λ u. names_of names.new ≡ with_name word.now what (names_of names.old)) }
{
    let name = String::from_str(alloc, text_of(word))?;
    names.insert(name, what)?;
    Ok(())
}

impl Known {
    pub(crate) fn new(alloc: Global) -> Known
        ensures { declared_of result ≡ no_names }
    {
        Known {
            ranks: 0,
            names: BTreeMap::new(alloc),
            grids: 0,
            arrays: 0,
        }
    }

    /// The number of ranks.
    pub(crate) fn ranks(&self) -> u32
        ensures { result ≡ self.now.ranks }
    {
        self.ranks
    }

    /// What a word names.
    pub(crate) fn named(&self, word: &[u8]) -> Option<Named>
        requires { list_all is_ascii word.now ≡ true }
        ensures { result ≡ (declared_of self.now).names word.now }
    {
        self.names.get(text_of(word)).copied()
    }

    /// A declared grid.
    #[tactic(auto, unfolding(crate::specs::WordKinds::grid))]
    pub(crate) fn grid(&self, word: &[u8]) -> Result<u32, LangFault>
        requires { list_all is_ascii word.now ≡ true }
        ensures { result ≡ grid (declared_of self.now) word.now }
    {
        match self.named(word) {
            Some(Named::Grid(grid)) => Ok(grid),
            Some(Named::Array(_)) => Err(LangFault::Name),
            Some(Named::Matrix(_)) => Err(LangFault::Name),
            None => Err(LangFault::Name),
        }
    }

    /// A declared ARRAY.
    #[tactic(auto, unfolding(crate::specs::WordKinds::array))]
    pub(crate) fn array(&self, word: &[u8]) -> Result<u32, LangFault>
        requires { list_all is_ascii word.now ≡ true }
        ensures { result ≡ array (declared_of self.now) word.now }
    {
        match self.named(word) {
            Some(Named::Grid(_)) => Err(LangFault::Name),
            Some(Named::Array(array)) => Ok(array),
            Some(Named::Matrix(_)) => Err(LangFault::Name),
            None => Err(LangFault::Name),
        }
    }

    /// A declared MATRIX.
    #[tactic(auto, unfolding(crate::specs::WordKinds::matrix))]
    pub(crate) fn matrix(&self, word: &[u8]) -> Result<u32, LangFault>
        requires { list_all is_ascii word.now ≡ true }
        ensures { result ≡ matrix (declared_of self.now) word.now }
    {
        match self.named(word) {
            Some(Named::Grid(_)) => Err(LangFault::Name),
            Some(Named::Array(_)) => Err(LangFault::Name),
            Some(Named::Matrix(matrix)) => Ok(matrix),
            None => Err(LangFault::Name),
        }
    }

    /// Either of the two.
    #[tactic(auto, unfolding(crate::specs::WordKinds::either))]
    pub(crate) fn either(&self, word: &[u8]) -> Result<u32, LangFault>
        requires { list_all is_ascii word.now ≡ true }
        ensures { result ≡ either (declared_of self.now) word.now }
    {
        match self.named(word) {
            Some(Named::Grid(_)) => Err(LangFault::Name),
            Some(Named::Array(array)) => Ok(array),
            Some(Named::Matrix(matrix)) => Ok(matrix),
            None => Err(LangFault::Name),
        }
    }

    /// Whether a word can be the name of a declaration.
    #[tactic(auto, unfolding(crate::specs::WordKinds::new_name))]
    pub(crate) fn check_new(&self, word: &[u8]) -> Result<(), LangFault>
        requires { list_all is_ascii word.now ≡ true }
        ensures ok { IfOk result (λ u. new_name (declared_of self.now) word.now ≡ Ok word.now) }
        ensures name { IfOk result (λ u. is_name word.now ≡ true) }
        ensures fault { IfErr result (λ fault. new_name (declared_of self.now) word.now ≡ Err fault) }
    {
        if !is_name_word(word) {
            return Err(LangFault::Name);
        }
        match self.named(word) {
            Some(_) => Err(LangFault::Twice),
            None => Ok(()),
        }
    }

    /// Whether a line passes a limit: 1 to 64 ranks, LLD and COLS of 1 to 2^24, 16 grids, 64 arrays.
    pub(crate) fn passes_limit(&self, line: &Line) -> bool
        ensures { result ≡ passes_limit (declared_of self.now) line.now }
    {
        match line {
            Line::Ranks { n } => *n == 0 || *n > MOST_RANKS,
            Line::Grid { .. } => self.grids >= MOST_GRIDS,
            Line::Map { .. } => self.grids >= MOST_GRIDS,
            Line::Array { .. } => self.arrays >= MOST_ARRAYS,
            Line::Matrix { lld, cols, .. } => {
                *lld == 0
                    || *lld > MOST_EXTENT
                    || (*cols == 0 || *cols > MOST_EXTENT)
                    || self.arrays >= MOST_ARRAYS
            }
            _ => false,
        }
    }

    /// Declares what a line declares under this name.
    pub(crate) fn declare(
        &mut self,
        alloc: Global,
        word: &[u8],
        line: &Line,
    ) -> Result<(), AllocError>
        requires ascii { list_all is_ascii word.now ≡ true }
        requires room { passes_limit (declared_of self.old) line.now ≡ false }
        ensures { IfOk result (λ u. declared_of self.new ≡ declared_by (declared_of self.old) word.now line.now) }
    {
        match line {
            Line::Ranks { n } => {
                self.ranks = *n;
            }
            Line::Grid { .. } => {
                add(&mut self.names, alloc, word, Named::Grid(self.grids))?;
                self.grids += 1;
            }
            Line::Map { .. } => {
                add(&mut self.names, alloc, word, Named::Grid(self.grids))?;
                self.grids += 1;
            }
            Line::Array { .. } => {
                add(&mut self.names, alloc, word, Named::Array(self.arrays))?;
                self.arrays += 1;
            }
            Line::Matrix { .. } => {
                add(&mut self.names, alloc, word, Named::Matrix(self.arrays))?;
                self.arrays += 1;
            }
            _ => {}
        }
        Ok(())
    }
}
