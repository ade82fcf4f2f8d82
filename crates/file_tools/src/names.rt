//! The names of pieces that are to be saved.
ghost use Rattle.std.specs.Prelude.{◌≡◌, ◌<◌, ◌≤◌, ◌*◌, [], length, slice_index_or, IfOk};
ghost use Rattle.file_tools.specs.Lists.{texts_of, names_by};
ghost use Rattle.file_tools.specs.SplitWalk.{name_of, piece_names as names_for};
ghost use Rattle.file_tools.specs.TargetView.{target_view};

use crate::target::Target;
use piece_file::{Name, piece_name};
use std::alloc::{AllocError, Global};

/// The limit of the words of a job: all its local arrays, and all that moves.
pub const LIMIT: u64 = 1 << 26;

/// The names of the pieces of a target, by rows of its grid.
#[derive(Drop)]
pub struct PieceNames<'a> {
    pub target: Target<'a>,
    pub names: Vec<String>,
    pub ghost named: { texts_of names.items ≡ names_for (target_view target) },
}

// The names of so many pieces of a prefix.
#[tactic(auto, using(crate::proofs::ListLemmas::names_more))]
fn piece_names(
    alloc: Global,
    prefix: &str,
    pieces: u32,
    npcol: u32,
) -> Result<Vec<String>, AllocError>
    requires { 1 ≤ npcol }
    ensures { IfOk result (λ v. texts_of v.items ≡ names_by prefix.now npcol pieces) }
{
    let mut names = Vec::new(alloc);
    for k in 0..pieces {
        let prow = k / npcol;
        let pcol = k % npcol;
        names.push(piece_name(alloc, prefix, prow, pcol)?)?;
    }
    Ok(names)
}

// One of the names.
fn name_at(names: &[String], k: u32) -> &str
    requires { k < length names.now }
    ensures { result.now ≡ slice_index_or (texts_of names.now) k [] }
{
    names[k as usize].as_str()
}

// One of the names, to keep.
fn take_name(mut names: Vec<String>, k: u32) -> Name
    requires { k < length names.items }
    ensures { result ≡ slice_index_or (texts_of names.items) k [] }
{
    Name::new(names.remove(k as usize))
}

impl<'a> PieceNames<'a> {
    /// All names of the pieces of a target.
    pub fn new(alloc: Global, target: &Target<'a>) -> Result<PieceNames<'a>, AllocError>
        ensures { IfOk result (λ p. p.target ≡ target.now) }
    {
        let names = piece_names(
            alloc,
            target.prefix,
            target.nprow * target.npcol,
            target.npcol,
        )?;
        Ok(PieceNames {
            target: *target,
            names,
        })
    }

    /// The name of piece `k`.
    #[tactic(auto, using(crate::proofs::ListLemmas::name_is, crate::proofs::ListLemmas::names_length))]
    pub(crate) fn name(&self, k: u32) -> &str
        requires { k < self.now.target.nprow * self.now.target.npcol }
        ensures { result.now ≡ name_of (target_view self.now.target) k }
    {
        name_at(&self.names, k)
    }

    /// The name of piece `k`, to keep.
    #[tactic(auto, using(crate::proofs::ListLemmas::name_is, crate::proofs::ListLemmas::names_length))]
    pub(crate) fn into_name(self, k: u32) -> Name
        requires { k < self.target.nprow * self.target.npcol }
        ensures { result ≡ name_of (target_view self.entry.target) k }
    {
        take_name(self.names, k)
    }
}
