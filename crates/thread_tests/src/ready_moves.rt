//! Moves in memory that run on threads.
ghost use Rattle.std.specs.Prelude.{◌≡◌};
ghost use Rattle.pack_words.specs.GridShapes.{HasShapes};
ghost use Rattle.pack_words.specs.GridPlans.{first_grid};
ghost use Rattle.move_tests.specs.MovePlans.{IsTrial};

use move_tests::trial::Trial;
use msg_core::StageErr;
use pack_words::RankMem;
use proc_grid::Contexts;
use rank_runner::Ready;
use std::alloc::Global;
use std::test::Fail;

/// The plan of a trial with these memories, ready to run on threads.
pub fn ready_trial<R: Sync>(
    rt: &R,
    alloc: Global,
    trial: Trial,
    nodes: Vec<RankMem>,
) -> Result<(Contexts, Ready<RankMem>), Fail>
    requires trial { IsTrial trial }
    requires nodes { HasShapes trial.shapes (first_grid nodes.items) }
{
    let Trial {
        contexts,
        shapes: _,
        count: _,
        plan,
    } = trial;
    if plan.words() > 67_108_864 {
        return Err(Fail::from("words"));
    }
    match Ready::prepare(rt, alloc, plan, nodes) {
        Ok(ready) => Ok((contexts, ready)),
        Err(StageErr { plan: _, nodes: _ }) => Err(Fail::from("memory")),
    }
}
