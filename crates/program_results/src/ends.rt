//! The results of a program before it is run.
ghost use Rattle.std.specs.Prelude.{◌≡◌, ◌<◌, ◌≤◌, ◌^◌, ℕ, Some, None, length, slice_get, IfOk, MatchOption};
ghost use Rattle.std.specs.List.{AllByRecursion};
ghost use Rattle.pack_words.specs.GridShapes.{ShapesView};
ghost use Rattle.program_meaning.specs.Sound.{IsSound};
ghost use Rattle.program_results.specs.Results.{name_at};
ghost use Rattle.program_results.specs.EndsView.{ends_of, name_of_file};
ghost use Rattle.program_results.specs.Standing.{AskFor, HasPlace, HasSource, HasPrint};

use crate::asking::{files_of, names_of, prints_of};
use crate::file::{File, Print};
use crate::place::Place;
use crate::placing::places_of;
use descriptor::Spread;
use grid_lang::Numbered;
use piece_file::Name;
use proc_grid::Contexts;
use std::alloc::{AllocError, Global};
use std::marker::Model;

/// What the result lines of a program ask for: the names of the arrays, the places of those that are spread, the files that
/// are to be saved, with all names formed, and what is to be printed. It holds no word of an array.
#[derive(Drop)]
pub struct Ends {
    names: Vec<Name>,
    places: Vec<Option<Place>>,
    files: Vec<File>,
    prints: Vec<Print>,
}

impl Model for Ends {
    ghost use Rattle.program_results.specs.EndsView.{EndsView};

    ghost Value = { EndsView };

    ghost use Rattle.program_results.specs.EndsInside.{ends_view, IsWell};

    ghost view = { ends_view };

    ghost invariant = { IsWell };
}

impl Ends {
    /// The results of these lines, which are all lines of a program; the arrays that it declares are spread so over the grids
    /// that it declares, and the result lines ask for arrays that are there. Lines that are no results are passed over.
    #[tactic(auto, using(crate::proofs::EndsLaws::ends_made, crate::proofs::EndsLaws::well_made, crate::proofs::Fitting::are_good))]
    pub fn new(
        alloc: Global,
        lines: &[Numbered],
        contexts: &Contexts,
        spreads: &[Option<Spread>],
    ) -> Result<Ends, AllocError>
        requires { (v : ShapesView) × (IsSound contexts.now v spreads.now × AskFor v.ranks spreads.now lines.now) }
        ensures { IfOk result (λ e. e ≡ ends_of contexts.now spreads.now lines.now) }
    {
        let names = names_of(alloc, lines)?;
        let places = places_of(alloc, contexts, spreads, lines)?;
        let files = files_of(alloc, lines, &places)?;
        let prints = prints_of(alloc, lines)?;
        Ok(Ends {
            names,
            places,
            files,
            prints,
        })
    }

    /// The number of files.
    pub(crate) fn count_files(&self) -> u32
        ensures { result ≡ length self.now.files }
    {
        self.files.len() as u32
    }

    /// A file, by its number.
    #[tactic(auto, using(crate::proofs::ListLaws::is_there, crate::proofs::FileLaws::source_there))]
    pub(crate) fn file(&self, number: u32) -> &File
        requires { number < length self.now.files }
        ensures file { slice_get self.now.files number ≡ Some result.now }
        ensures source { HasSource self.now.places result.now.source }
    {
        &self.files[number as usize]
    }

    /// The name of a file, by its number: None exactly past the last.
    #[tactic(auto, using(crate::proofs::FileLaws::name_there))]
    pub(crate) fn file_name(&self, number: u32) -> Option<&str>
        ensures { MatchOption result (length self.now.files ≤ number)
            (λ name. (number < length self.now.files) × (name.now ≡ name_of_file self.now.files number)) }
    {
        match self.files.get(number as usize) {
            Some(file) => Some(file.name.as_str()),
            None => None,
        }
    }

    /// The name of a file, by its number, to keep. It takes no memory.
    #[tactic(auto, using(crate::proofs::FileLaws::name_removed))]
    pub(crate) fn into_file_name(self, number: u32) -> Name
        requires { number < length self.files }
        ensures { result ≡ name_of_file self.files number }
    {
        let Ends {
            names: _,
            places: _,
            mut files,
            prints: _,
        } = self;
        let File { name, source: _ } = files.remove(number as usize);
        name
    }

    /// The place of an ARRAY, by its number.
    pub(crate) fn place(&self, array: u32) -> &Place
        requires { HasPlace self.now.places array }
        ensures { slice_get self.now.places array ≡ Some (Some result.now) }
    {
        match self.places.get(array as usize) {
            Some(Some(place)) => place,
            _ => unreachable!(),
        }
    }

    /// The name of an array, by its number; no text past the last.
    pub(crate) fn name(&self, array: u32) -> &str
        ensures { result.now ≡ name_at self.now.names array }
    {
        match self.names.get(array as usize) {
            Some(name) => name.as_str(),
            None => "",
        }
    }

    /// What is to be printed, in order.
    pub(crate) fn prints(&self) -> &[Print]
        ensures prints { result.now ≡ self.now.prints }
        ensures known { AllByRecursion (HasPrint self.now.places) self.now.prints }
    {
        self.prints.as_slice()
    }
}
