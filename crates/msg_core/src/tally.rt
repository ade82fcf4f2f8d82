//! What is counted of each pair along a plan.
ghost use Rattle.std.specs.Prelude.{◌≡◌, ◌<◌, ◌≤◌, ◌+◌, ◌*◌, ◌^◌, ◌++◌, ℕ, max, List, [], ◌∷◌, length, IfOk, OnOk, vec_len};
ghost use Rattle.machine.specs.Queues.{Lens, lens_by};
ghost use Rattle.machine.specs.Orders.{FitsLens, messages_by, messages_of, occupancy};
ghost use Rattle.msg_core.specs.Kinds.{kinds_of};
ghost use Rattle.msg_core.specs.Plans.{IsInOrder, AllAmongRanks, IsAmongRanks, lens_of, no_lens};
ghost use Rattle.msg_core.specs.Tallies.{IsTally, AreTallies, AllZero, most_by, shown, figure_of};
ghost use Rattle.msg_core.specs.PairRows.{rows_to, pair_rows};

use crate::limits::PAIRS;
use crate::node::Step;
use machine::Kind;
use std::alloc::{AllocError, Global};

/// Of one pair: the messages that were sent, those that wait, and the most that waited.
#[derive(Clone, Copy, Drop)]
pub struct Tally {
    pub sent: u32,
    pub waits: u32,
    pub most: u32,
}

/// What a table shows of a pair.
#[derive(Clone, Copy, Drop)]
pub enum Figure {
    Messages,
    Occupancy,
}

// Nothing is counted yet.
#[tactic(auto, using(crate::proofs::Tallying::zero_end))]
fn no_tallies(alloc: Global, pairs: usize) -> Result<Vec<Tally>, AllocError>
    ensures len { IfOk result (λ v. vec_len v ≡ pairs) }
    ensures zero { IfOk result (λ v. AllZero v.items) }
{
    let mut all = Vec::with_capacity(alloc, pairs)?;
    for _ in 0..pairs {
        all.push(Tally {
            sent: 0,
            waits: 0,
            most: 0,
        })?;
    }
    Ok(all)
}

// A message is sent.
fn tally_send(tally: &mut Tally)
    requires { (n : ℕ) × (m : ℕ) × (w : ℕ) × (o : ℕ) × IsTally tally.old n m w o × (n < 2 ^ 31) }
    ensures { (n m w o : ℕ) → IsTally tally.old n m w o →
        IsTally tally.new (n + 1) (m + 1) (w + 1) (max o (w + 1)) }
{
    tally.sent += 1;
    tally.waits += 1;
    if tally.most < tally.waits {
        tally.most = tally.waits;
    }
}

// A message is taken.
fn tally_take(tally: &mut Tally)
    requires { (n : ℕ) × (m : ℕ) × (w : ℕ) × (o : ℕ) × IsTally tally.old n m (w + 1) o }
    ensures { (n m w o : ℕ) → IsTally tally.old n m (w + 1) o → IsTally tally.new (n + 1) m w o }
{
    tally.waits -= 1;
}

// A rank does an operation.
fn tally_step<Op: Step>(all: &mut Vec<Tally>, rank: u32, op: &Op)
    requires made { Op.well_made op.now }
    requires rank { rank < 64 }
    requires other { IsAmongRanks (Op.kind_of op.now) 64 }
    requires tallies { (n : ℕ) × (m : ℕ → ℕ → ℕ) × (q : Lens) × (o : ℕ → ℕ →
        ℕ) × AreTallies all.old.items n m q o × FitsLens (Op.kind_of op.now) rank q × (n < 2 ^ 31) }
    ensures { (n : ℕ) (m : ℕ → ℕ → ℕ) (q : Lens) (o : ℕ → ℕ → ℕ) → AreTallies all.old.items n m q o →
        FitsLens (Op.kind_of op.now) rank q → AreTallies all.new.items (n + 1)
        (messages_by (Op.kind_of op.now) rank m) (lens_by (Op.kind_of op.now) rank q)
        (most_by (Op.kind_of op.now) rank q o) }
{
    match op.kind() {
        Kind::Send { to, len: _ } => {
            let tally = &mut all[rank as usize * 64 + to as usize];
            tally_send(tally);
        }
        Kind::Recv { from, len: _ } => {
            let tally = &mut all[from as usize * 64 + rank as usize];
            tally_take(tally);
        }
        Kind::Local => (),
    }
}

/// The counts of each pair of 64 ranks, by one pass over a plan's operations.
pub fn tally_all<Op: Step>(alloc: Global, steps: &[(u32, Op)]) -> Result<Vec<Tally>, AllocError>
    requires few { length steps.now ≤ 1048576 }
    requires among { AllAmongRanks Op.Step 64 steps.now }
    requires order { IsInOrder Op.Step steps.now no_lens }
    ensures { IfOk result (λ v. AreTallies v.items (length steps.now)
        (messages_of (kinds_of Op.Step steps.now)) (lens_of Op.Step steps.now no_lens)
        (occupancy (kinds_of Op.Step steps.now))) }
{
    let mut all = no_tallies(alloc, PAIRS)?;
    for step in steps {
        tally_step(&mut all, step.0, &step.1);
    }
    Ok(all)
}

// The number that a table shows.
fn show(tally: Tally, figure: Figure) -> u32
    ensures { (n m w o : ℕ) → IsTally tally n m w o → result ≡ shown figure m o }
{
    match figure {
        Figure::Messages => tally.sent,
        Figure::Occupancy => tally.most,
    }
}

// The rows of one sender.
fn list_to(
    rows: &mut Vec<(u32, u32, u32)>,
    from: u32,
    ranks: u32,
    all: &[Tally],
    figure: Figure,
) -> Result<(), AllocError>
    requires from { from < 64 }
    requires ranks { ranks ≤ 64 }
    requires tallies { (n : ℕ) × (m : ℕ → ℕ → ℕ) × (q : Lens) × (o : ℕ → ℕ → ℕ) × AreTallies all.now n m q o }
    ensures { OnOk result ((n : ℕ) (m : ℕ → ℕ → ℕ) (q : Lens) (o : ℕ → ℕ →
        ℕ) → AreTallies all.now n m q o →
        rows.new.items ≡ rows.old.items ++ rows_to m (figure_of figure m o) from ranks) }
{
    for to in 0..ranks {
        let tally = all[from as usize * 64 + to as usize];
        if tally.sent > 0 {
            rows.push((from, to, show(tally, figure)))?;
        }
    }
    Ok(())
}

/// The rows of all pairs that have a message.
pub fn list_rows(
    alloc: Global,
    ranks: u32,
    all: &[Tally],
    figure: Figure,
) -> Result<Vec<(u32, u32, u32)>, AllocError>
    requires ranks { ranks ≤ 64 }
    requires tallies { (n : ℕ) × (m : ℕ → ℕ → ℕ) × (q : Lens) × (o : ℕ → ℕ → ℕ) × AreTallies all.now n m q o }
    ensures { IfOk result (λ v. (n : ℕ) (m : ℕ → ℕ → ℕ) (q : Lens) (o : ℕ → ℕ →
        ℕ) → AreTallies all.now n m q o → v.items ≡ pair_rows m (figure_of figure m o) ranks) }
{
    let mut rows = Vec::new(alloc);
    for from in 0..ranks {
        list_to(&mut rows, from, ranks, all, figure)?;
    }
    Ok(rows)
}
