//! The two distributions of the job.
ghost use Rattle.std.specs.Prelude.{◌≡◌};
ghost use Rattle.piece_moves.specs.DistributionView.{distribution_view};
ghost use Rattle.drawn_jobs.specs.Jobs as jobs;

use piece_moves::Distribution;

/// On 4 by 4 processes in blocks of 64 by 64.
#[tactic(auto, unfolding(crate::specs::Jobs::first_grid))]
pub(crate) fn first_grid() -> Distribution
    ensures { distribution_view result ≡ jobs.first_grid }
{
    Distribution {
        nprow: 4,
        npcol: 4,
        mb: 64,
        nb: 64,
    }
}

/// On 2 by 8 processes in blocks of 32 by 32.
#[tactic(auto, unfolding(crate::specs::Jobs::second_grid))]
pub(crate) fn second_grid() -> Distribution
    ensures { distribution_view result ≡ jobs.second_grid }
{
    Distribution {
        nprow: 2,
        npcol: 8,
        mb: 32,
        nb: 32,
    }
}
