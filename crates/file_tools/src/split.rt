//! The command `split`.
ghost use Rattle.std.specs.Prelude.{◌≡◌, ◌≤◌, ◌^◌, Some};
ghost use Rattle.store_io.specs.Outside.{Poured};
ghost use Rattle.mm_text.specs.Loading.{matrix_of};
ghost use Rattle.file_tools.specs.SplitWalk.{job_words, job_walk, split_walk, piece_names};
ghost use Rattle.file_tools.specs.TargetView.{target_view};
ghost use Rattle.file_tools.specs.Troubles.{Follows};

use crate::names::LIMIT;
use crate::reading::read_input;
use crate::saving::save_to_end;
use crate::split_files::SplitFiles;
use crate::target::Target;
use crate::trouble::Trouble;
use mm_text::Whole;
use piece_file::Name;
use piece_moves::words_over;
use std::alloc::Global;
use store_io::Store;

// The words of the job: the matrix as one local array, those of all pieces, and all that moves.
fn count_words(target: &Target<'_>, rows: u32, columns: u32) -> u64
    requires rows_fit { rows ≤ 2 ^ 24 }
    requires columns_fit { columns ≤ 2 ^ 24 }
    ensures { result ≡ job_words (target_view target.now) rows columns }
{
    u64::from(rows.max(1)) * u64::from(columns.max(1))
        + words_over(rows, columns, &target.distribution())
        + u64::from(rows) * u64::from(columns)
}

// Spreads the matrix over the grid, and writes the pieces. All memory is taken before the first file is opened for writing.
#[tactic(auto, using(command_walks::proofs::GoingOn::wants_memory))]
fn split_whole<S: Store>(
    alloc: Global,
    store: &mut S,
    target: &Target<'_>,
    whole: &Whole,
) -> Result<(), Trouble>
    ensures { (pour : Poured) →
        Follows result (job_walk (target_view target.now) (matrix_of whole.now))
        (Some (piece_names (target_view target.now))) (S.state store.old)
        (S.state store.new) pour pour }
{
    let words = count_words(target, whole.rows, whole.columns);
    if words > LIMIT {
        return Err(Trouble::TooMany(words));
    }
    let files = SplitFiles::new(alloc, target, whole)?;
    save_to_end(store, files)
}

/// Reads the matrix of the file `input`, spreads it over the grid, and writes the pieces.
#[tactic(auto, using(crate::proofs::FollowLaws::passed_on))]
pub(crate) fn run_split<S: Store>(
    alloc: Global,
    store: &mut S,
    input: Name,
    target: &Target<'_>,
) -> Result<(), Trouble>
    ensures { (pour : Poured) →
        Follows result (split_walk input (target_view target.now)) (Some (piece_names (target_view target.now))) (S.state store.old) (S.state store.new)
        pour pour }
{
    let whole = read_input(alloc, store, input)?;
    split_whole(alloc, store, target, &whole)
}
