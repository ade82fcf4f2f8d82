//! What holds of every run of a plan, for plans and memories that aren't run.
ghost use Rattle.std.specs.Prelude.{◌≡◌, ℕ, Some, slice_get};
ghost use Rattle.msg_core.specs.Plans.{AllCan};
ghost use Rattle.msg_core.specs.Runs.{EveryRunIsInOrder};
ghost use Rattle.msg_core.specs.OneRank.{IsByItself};

use crate::node::Node;
use crate::plan::Plan;

/// Where each operation can be done by its rank's memory, every run goes and ends as the plan's own order does, and so does each rank by itself. It does nothing.
pub fn runs_are_in_order<N: Node>(plan: &Plan<N::Op>, nodes: &[N])
    requires can { AllCan N.Node nodes.now plan.now.steps }
    ensures every_run { EveryRunIsInOrder N.Op.Step N.Node plan.now.steps nodes.now }
    ensures by_itself { (r : ℕ) (n : N) → slice_get nodes.now r ≡ Some n →
        IsByItself N.Op.Step N.Node plan.now.steps nodes.now r n }
{
    let _nodes = nodes;
    plan.facts();
}
