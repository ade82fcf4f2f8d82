//! The results of a program after it was run.
ghost use Rattle.std.specs.Prelude.{◌≡◌, ◌<◌, ◌≤◌, IsTrue, IfErr, length, map, MatchOption};
ghost use Rattle.pack_words.specs.GridState.{arrays_held};
ghost use Rattle.save_list.specs.Saving.{SavesAll};
ghost use Rattle.tool_lines.specs.Saying.{Says, Tells};
ghost use Rattle.program_results.specs.EndsView.{finished_saves, finished_output, save_of};
ghost use Rattle.program_results.specs.Standing.{Fits};

use crate::ends::Ends;
use crate::writing::{print_all, save_file};
use pack_words::RankMem;
use piece_file::Name;
use save_list::{SaveErr, SaveList, save_all};
use std::marker::Model;
use store_io::{Sink, SinkErr, Store, StoreErr};

/// The results of a program, and the memories of all ranks after it.
#[derive(Drop)]
pub struct Finished {
    ends: Ends,
    nodes: Vec<RankMem>,
}

impl Model for Finished {
    ghost use Rattle.program_results.specs.EndsView.{FinishedView};

    ghost Value = { FinishedView };

    ghost use Rattle.program_results.specs.FinishedInside.{finished_view, IsFinished};

    ghost view = { finished_view };

    ghost invariant = { IsFinished };
}

impl Finished {
    /// The results of a program after whose lines the ranks hold these arrays. It takes no memory.
    pub fn new(ends: Ends, nodes: Vec<RankMem>) -> Finished
        requires { Fits ends (map arrays_held nodes.items) }
        ensures { result ≡ record { ends = ends; arrays = map arrays_held nodes.items } }
    {
        Finished { ends, nodes }
    }

    /// Writes the files of the SAVE lines in their order, each with one opening for writing. It takes no memory.
    ///
    /// The error comes where the store failed, with the number of the save, from 0. The saves before it are then done; its
    /// file is as before or holds a front of its text; every other file is as before, and no later one was opened.
    pub fn save<S: Store>(&self, store: &mut S) -> Result<(), SaveErr>
        ensures saves { SavesAll result (save_of self.now) (length (finished_saves self.now)) (S.state store.old)
            (S.state store.new) }
        ensures number { IfErr result (λ e. e.save < length (finished_saves self.now)) }
    {
        save_all(store, self)
    }

    /// Prints what the PRINT lines print, in their order. It takes no memory. `Failed` comes where the sink failed, which
    /// then has gained a front of the text.
    pub fn print<O: Sink>(&self, out: &mut O) -> Result<(), SinkErr>
        ensures says { IsTrue (O.state out.old).told →
            Says result (O.state out.old) (O.state out.new) (finished_output self.now) }
        ensures tells { Tells result (O.state out.old) (O.state out.new) }
    {
        print_all(out, &self.ends, &self.nodes)
    }

    /// The name of the file of a save, by its number from 0: None exactly past the last.
    #[tactic(auto, using(crate::proofs::WritingLaws::saves_counted, crate::proofs::WritingLaws::save_named))]
    pub fn save_name(&self, save: u32) -> Option<&str>
        ensures { MatchOption result (length (finished_saves self.now) ≤ save)
            (λ name. (save < length (finished_saves self.now)) × (name.now ≡ (save_of self.now save).name)) }
    {
        self.ends.file_name(save)
    }
}

impl SaveList for Finished {
    ghost count = { λ f. length (finished_saves f) };

    ghost save_at = { save_of };

    #[tactic(auto, using(crate::proofs::WritingLaws::saves_counted))]
    fn count_saves(&self) -> u32 {
        self.ends.count_files()
    }

    #[tactic(auto, using(crate::proofs::WritingLaws::saves_counted))]
    fn save_one<S: Store>(&self, store: &mut S, number: u32) -> Result<(), StoreErr> {
        save_file(store, &self.ends, &self.nodes, number)
    }

    #[tactic(auto, using(crate::proofs::WritingLaws::saves_counted, crate::proofs::WritingLaws::save_named))]
    fn into_name(self, number: u32) -> Name {
        self.ends.into_file_name(number)
    }
}
