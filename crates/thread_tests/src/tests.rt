//! What pairs and runs on threads give on small rows.
ghost use Rattle.std.specs.Prelude.{◌≡◌, IfOk};

use crate::gates::{LastGate, MeetingGate};
use crate::pair::{Answers, four_steps};
use crate::runs::{ready_of, zeros};
use mail_room::Desk;
use msg_core::Plan;
use plan_tests::cell::{Cell, CellOp};
use plan_tests::ring::{ring_nodes, ring_plan};
use plan_tests::stages::{add, get, give, words_of};
use rank_runner::{OpenGate, Ready};
use std::alloc::Global;
use std::test::Fail;

#[test]
fn queue_of_one(rt: HostRuntime) -> Result<(), Fail> {
    let alloc = rt.alloc();
    let Answers {
        put,
        put_full,
        take,
        take_empty,
    } = four_steps(&rt, alloc)?;
    assert!(rt; put);
    let back = put_full.err().ok_or("a full queue took a message")?;
    assert_eq!(rt; back.as_slice(), [8].as_slice());
    let first = take.ok_or("no message")?;
    assert_eq!(rt; first.as_slice(), [7].as_slice());
    assert!(rt; take_empty.is_none());
    Ok(())
}

// Rank 0 sends its word to rank 1, which receives it, and then each does a local operation.
fn one_message_plan(alloc: Global) -> Result<Plan<CellOp>, Fail>
    ensures { IfOk result (λ plan. plan.ranks ≡ 2) }
{
    let mut plan: Plan<CellOp> = Plan::new(alloc, 2)?;
    give(&mut plan, 0, 1, 1)?;
    get(&mut plan, 0, 1, 1)?;
    add(&mut plan, 0, 1)?;
    add(&mut plan, 1, 10)?;
    Ok(plan)
}

fn send_then_add<R: Sync>(rt: &R, alloc: Global) -> Result<Option<Ready<Cell>>, Fail> {
    let plan = one_message_plan(alloc)?;
    let nodes = Vec::from_array(alloc, [Cell::new(7), Cell::new(0)])?;
    Ok(ready_of(rt, alloc, plan, nodes))
}

#[test]
fn one_pair_has_a_message(rt: HostRuntime) -> Result<(), Fail> {
    let plan = one_message_plan(rt.alloc())?;
    assert_eq!(rt; plan.pair_counts()?.as_slice(), [(0, 1, 1)].as_slice());
    assert_eq!(rt; plan.occupancies()?.as_slice(), [(0, 1, 1)].as_slice());
    Ok(())
}

#[test]
fn one_message(rt: HostRuntime) -> Result<(), Fail> {
    let alloc = rt.alloc();
    for most in [0, 1, 2, 64] {
        let ready = send_then_add(&rt, alloc)?.ok_or("not ready")?;
        assert_eq!(rt; ready.capacity(0, 1), Some(1));
        assert_eq!(rt; ready.capacity(1, 0), None);
        assert_eq!(rt; ready.capacity(4294967295, 0), None);
        let (nodes, desks) = ready.run_threads_most(&rt, &OpenGate, most);
        assert_eq!(rt; words_of(alloc, &nodes)?.as_slice(), [8, 17].as_slice());
        assert_eq!(rt; desks.len(), 2);
    }
    let ready = send_then_add(&rt, alloc)?.ok_or("not ready")?;
    let (nodes, desks) = ready.run_threads(&rt, &OpenGate);
    assert_eq!(rt; words_of(alloc, &nodes)?.as_slice(), [8, 17].as_slice());
    assert_eq!(rt; desks.len(), 2);
    Ok(())
}

// Rank 0 sends twice, rank 1 receives both; again once. Rank 1 keeps the word of rank 0 after its last addition.
fn three_messages<R: Sync>(rt: &R, alloc: Global) -> Result<Option<Ready<Cell>>, Fail> {
    let mut plan: Plan<CellOp> = Plan::new(alloc, 2)?;
    give(&mut plan, 0, 1, 4)?;
    give(&mut plan, 0, 1, 5)?;
    get(&mut plan, 0, 1, 4)?;
    get(&mut plan, 0, 1, 5)?;
    add(&mut plan, 0, 6)?;
    give(&mut plan, 0, 1, 6)?;
    get(&mut plan, 0, 1, 6)?;
    give(&mut plan, 1, 1, 2)?;
    let nodes = zeros(alloc, 2)?;
    Ok(ready_of(rt, alloc, plan, nodes))
}

#[test]
fn two_wait(rt: HostRuntime) -> Result<(), Fail> {
    let alloc = rt.alloc();
    for most in [1, 2] {
        let ready = three_messages(&rt, alloc)?.ok_or("not ready")?;
        assert_eq!(rt; ready.capacity(0, 1), Some(2));
        assert_eq!(rt; ready.capacity(1, 1), Some(1));
        assert_eq!(rt; ready.capacity(0, 0), None);
        let (nodes, _) = ready.run_threads_most(&rt, &OpenGate, most);
        assert_eq!(rt; words_of(alloc, &nodes)?.as_slice(), [6, 6].as_slice());
    }
    Ok(())
}

// Whether the words are those of 64 ranks, one after the other round the ring, from that of rank `first` on.
fn are_turned(words: &[i32], first: u32) -> bool {
    let mut want = first;
    for word in words {
        if *word != (want % 64) as i32 {
            return false;
        }
        want = want % 64 + 1;
    }
    words.len() == 64
}

#[test]
fn sixty_four_ranks(rt: HostRuntime) -> Result<(), Fail> {
    let alloc = rt.alloc();
    for most in [0, 1, 2, 3, 64] {
        let plan = ring_plan(alloc, 3)?;
        let nodes = ring_nodes(alloc)?;
        let ready = ready_of(&rt, alloc, plan, nodes).ok_or("not ready")?;
        assert_eq!(rt; ready.capacity(63, 0), Some(1));
        let (nodes, desks) = ready.run_threads_most(&rt, &OpenGate, most);
        assert!(rt; are_turned(&words_of(alloc, &nodes)?, 61));
        assert_eq!(rt; desks.len(), 64);
    }
    Ok(())
}

// Each of two ranks adds, sends its word to the other and receives the other's.
fn exchange<R: Sync>(rt: &R, alloc: Global) -> Result<Option<Ready<Cell>>, Fail> {
    let mut plan: Plan<CellOp> = Plan::new(alloc, 2)?;
    add(&mut plan, 0, 5)?;
    add(&mut plan, 1, 5)?;
    give(&mut plan, 0, 1, 1)?;
    give(&mut plan, 1, 0, 1)?;
    get(&mut plan, 0, 1, 1)?;
    get(&mut plan, 1, 0, 1)?;
    let nodes = Vec::from_array(alloc, [Cell::new(1), Cell::new(2)])?;
    Ok(ready_of(rt, alloc, plan, nodes))
}

#[test]
fn two_threads_meet(rt: HostRuntime) -> Result<(), Fail> {
    let alloc = rt.alloc();
    let gate = MeetingGate::new(1000000);
    let ready = exchange(&rt, alloc)?.ok_or("not ready")?;
    let (nodes, _) = ready.run_threads(&rt, &gate);
    assert!(rt; gate.have_met());
    assert_eq!(rt; words_of(alloc, &nodes)?.as_slice(), [7, 6].as_slice());
    Ok(())
}

#[test]
fn one_rank_last(rt: HostRuntime) -> Result<(), Fail> {
    let alloc = rt.alloc();
    let gate = LastGate::new(1, 4, 1000000);
    let ready = three_messages(&rt, alloc)?.ok_or("not ready")?;
    let (nodes, _) = ready.run_threads(&rt, &gate);
    assert_eq!(rt; gate.begun(), 4);
    assert_eq!(rt; words_of(alloc, &nodes)?.as_slice(), [6, 6].as_slice());
    Ok(())
}

// The length of each list of desks, for a use of the type.
fn count(desks: &[Desk]) -> usize {
    desks.len()
}

#[test]
fn no_operations(rt: HostRuntime) -> Result<(), Fail> {
    let alloc = rt.alloc();
    let plan: Plan<CellOp> = Plan::new(alloc, 3)?;
    let ready = ready_of(&rt, alloc, plan, zeros(alloc, 3)?).ok_or("not ready")?;
    let (nodes, desks) = ready.run_threads(&rt, &OpenGate);
    assert_eq!(rt; words_of(alloc, &nodes)?.as_slice(), [0, 0, 0].as_slice());
    assert_eq!(rt; count(&desks), 3);
    Ok(())
}
