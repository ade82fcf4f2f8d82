//! What plans and runs give on small rows.
use crate::cell::{Cell, CellOp};
use crate::ring::{ring_nodes, ring_plan};
use crate::stages::{add, get, give, stage_of, words_of};
use msg_core::{ListPicks, Picks, Plan, PlanErr, SeedPicks, Stage};
use std::alloc::Global;
use std::test::Fail;

#[test]
fn drawn_numbers(rt: HostRuntime) -> Result<(), Fail> {
    let mut picks = SeedPicks::new(0);
    assert_eq!(rt; picks.pick(4294967295), 335903614);
    Ok(())
}

#[test]
fn refused_receive(rt: HostRuntime) -> Result<(), Fail> {
    let mut plan: Plan<CellOp> = Plan::new(rt.alloc(), 2)?;
    assert_eq!(rt; plan.front(0, 1), None);
    assert_eq!(rt; get(&mut plan, 0, 1, 2), Err(PlanErr::NoMessage(0, 1)));
    give(&mut plan, 0, 1, 2)?;
    assert_eq!(rt; get(&mut plan, 0, 1, 3), Err(PlanErr::WrongLength(2, 3)));
    assert_eq!(rt; plan.len(), 1);
    assert_eq!(rt; plan.front(0, 1), Some(2));
    give(&mut plan, 0, 1, 5)?;
    get(&mut plan, 0, 1, 2)?;
    assert_eq!(rt; plan.front(0, 1), Some(5));
    assert_eq!(rt; plan.front(1, 0), None);
    assert_eq!(rt; plan.front(0, 2), None);
    assert_eq!(rt; plan.front(4294967295, 1), None);
    assert_eq!(rt; plan.messages(), 2);
    assert_eq!(rt; plan.words(), 7);
    assert!(rt; plan.op(3).is_none());
    assert!(rt; plan.op(2).is_some());
    assert_eq!(rt; plan.into_steps().len(), 3);
    Ok(())
}

#[test]
fn full_plan(rt: HostRuntime) -> Result<(), Fail> {
    let mut plan: Plan<CellOp> = Plan::new(rt.alloc(), 1)?;
    plan.room_for(1048576)?;
    assert_eq!(rt; plan.room_for(1048577), Err(PlanErr::TooManyOps));
    for _ in 0..1048576u32 {
        assert_eq!(rt; plan.ranks(), 1);
        add(&mut plan, 0, 1)?;
    }
    assert_eq!(rt; plan.ranks(), 1);
    assert_eq!(rt; plan.len(), 1048576);
    assert_eq!(rt; add(&mut plan, 0, 1), Err(PlanErr::TooManyOps));
    Ok(())
}

// Rank 0 sends its word to rank 1, which receives it, and then each does a local operation.
fn send_then_add(alloc: Global) -> Result<Option<Stage<Cell>>, Fail> {
    let mut plan: Plan<CellOp> = Plan::new(alloc, 2)?;
    give(&mut plan, 0, 1, 1)?;
    get(&mut plan, 0, 1, 1)?;
    add(&mut plan, 0, 1)?;
    add(&mut plan, 1, 10)?;
    let nodes = Vec::from_array(alloc, [Cell::new(7), Cell::new(0)])?;
    Ok(stage_of(alloc, plan, nodes))
}

#[test]
fn in_order_and_by_schedules(rt: HostRuntime) -> Result<(), Fail> {
    let alloc = rt.alloc();
    let stage = send_then_add(alloc)?.ok_or("no stage")?;
    let nodes = stage.run_in_order();
    assert_eq!(rt; words_of(alloc, &nodes)?.as_slice(), [8, 17].as_slice());
    let rows: [([u32; 4], [u32; 4]); 3] = [
        ([0, 0, 0, 0], [0, 0, 1, 1]),
        ([1, 1, 1, 1], [0, 1, 1, 0]),
        ([7, 2, 3, 0], [0, 0, 1, 1]),
    ];
    for row in &rows {
        let stage = send_then_add(alloc)?.ok_or("no stage")?;
        let mut picks = ListPicks::new(row.0.to_vec(alloc)?);
        let (nodes, trace) = stage.run_schedule(&mut picks);
        assert_eq!(rt; trace.as_slice(), row.1.as_slice());
        assert_eq!(rt; words_of(alloc, &nodes)?.as_slice(), [8, 17].as_slice());
    }
    let stage = send_then_add(alloc)?.ok_or("no stage")?;
    let (nodes, trace) = stage.run_schedule(&mut ListPicks::new(Vec::new(alloc)));
    assert_eq!(rt; trace.as_slice(), [0, 0, 1, 1].as_slice());
    assert_eq!(rt; words_of(alloc, &nodes)?.as_slice(), [8, 17].as_slice());
    let stage = send_then_add(alloc)?.ok_or("no stage")?;
    let (nodes, trace) = stage.run_schedule(&mut SeedPicks::new(1));
    assert_eq!(rt; trace.len(), 4);
    assert_eq!(rt; words_of(alloc, &nodes)?.as_slice(), [8, 17].as_slice());
    Ok(())
}

#[test]
fn no_operations(rt: HostRuntime) -> Result<(), Fail> {
    let alloc = rt.alloc();
    let plan: Plan<CellOp> = Plan::new(alloc, 3)?;
    let nodes = Vec::from_array(alloc, [Cell::new(5), Cell::new(6), Cell::new(7)])?;
    let stage = stage_of(alloc, plan, nodes).ok_or("no stage")?;
    let (nodes, trace) = stage.run_schedule(&mut SeedPicks::new(3));
    assert_eq!(rt; trace.len(), 0);
    assert_eq!(rt; words_of(alloc, &nodes)?.as_slice(), [5, 6, 7].as_slice());
    Ok(())
}

#[test]
fn tables_of_pairs(rt: HostRuntime) -> Result<(), Fail> {
    let alloc = rt.alloc();
    let mut plan: Plan<CellOp> = Plan::new(alloc, 3)?;
    assert!(rt; plan.pair_counts()?.is_empty());
    assert!(rt; plan.occupancies()?.is_empty());
    give(&mut plan, 0, 1, 4)?;
    give(&mut plan, 0, 1, 5)?;
    get(&mut plan, 0, 1, 4)?;
    get(&mut plan, 0, 1, 5)?;
    give(&mut plan, 0, 1, 6)?;
    get(&mut plan, 0, 1, 6)?;
    assert_eq!(rt; plan.pair_counts()?.as_slice(), [(0, 1, 3)].as_slice());
    assert_eq!(rt; plan.occupancies()?.as_slice(), [(0, 1, 2)].as_slice());
    give(&mut plan, 2, 2, 1)?;
    give(&mut plan, 2, 0, 1)?;
    add(&mut plan, 1, 7)?;
    give(&mut plan, 0, 2, 1)?;
    give(&mut plan, 2, 2, 1)?;
    let counts = [(0, 1, 3), (0, 2, 1), (2, 0, 1), (2, 2, 2)];
    assert_eq!(rt; plan.pair_counts()?.as_slice(), counts.as_slice());
    let most = [(0, 1, 2), (0, 2, 1), (2, 0, 1), (2, 2, 2)];
    assert_eq!(rt; plan.occupancies()?.as_slice(), most.as_slice());
    Ok(())
}

// The ring's stage.
fn ring(alloc: Global, rounds: u32) -> Result<Option<Stage<Cell>>, Fail> {
    let plan = ring_plan(alloc, rounds)?;
    let nodes = ring_nodes(alloc)?;
    Ok(stage_of(alloc, plan, nodes))
}

// Whether the words are those of 64 ranks, one after the other round the ring, from that of rank `first` on.
fn are_turned(words: &[i32], first: u32) -> bool {
    let mut want = first;
    for word in words {
        if *word != (want % 64) as i32 {
            return false;
        }
        want = want % 64 + 1;
    }
    words.len() == 64
}

#[test]
fn sixty_four_ranks(rt: HostRuntime) -> Result<(), Fail> {
    let alloc = rt.alloc();
    let nodes = ring(alloc, 3)?.ok_or("no stage")?.run_in_order();
    assert!(rt; are_turned(&words_of(alloc, &nodes)?, 61));
    let (nodes, trace) = ring(alloc, 3)?
        .ok_or("no stage")?
        .run_schedule(&mut SeedPicks::new(5));
    assert_eq!(rt; trace.len(), 384);
    assert!(rt; are_turned(&words_of(alloc, &nodes)?, 61));
    Ok(())
}

#[test]
fn long_plan(rt: HostRuntime) -> Result<(), Fail> {
    let alloc = rt.alloc();
    let nodes = ring(alloc, 1024)?.ok_or("no stage")?.run_in_order();
    assert!(rt; are_turned(&words_of(alloc, &nodes)?, 0));
    let stage = ring(alloc, 1024)?.ok_or("no stage")?;
    let (nodes, trace) = stage.run_schedule(&mut SeedPicks::new(9));
    assert_eq!(rt; trace.len(), 131072);
    assert!(rt; are_turned(&words_of(alloc, &nodes)?, 0));
    Ok(())
}

// Rank 0 sends its word to itself and takes it after it has changed, and sends rank 1 no word.
fn to_itself(alloc: Global) -> Result<Option<Stage<Cell>>, Fail> {
    let mut plan: Plan<CellOp> = Plan::new(alloc, 2)?;
    give(&mut plan, 0, 0, 1)?;
    add(&mut plan, 0, 5)?;
    get(&mut plan, 0, 0, 1)?;
    give(&mut plan, 0, 1, 0)?;
    get(&mut plan, 0, 1, 0)?;
    let nodes = Vec::from_array(alloc, [Cell::new(7), Cell::new(3)])?;
    Ok(stage_of(alloc, plan, nodes))
}

#[test]
fn to_oneself_and_no_words(rt: HostRuntime) -> Result<(), Fail> {
    let alloc = rt.alloc();
    let nodes = to_itself(alloc)?.ok_or("no stage")?.run_in_order();
    assert_eq!(rt; words_of(alloc, &nodes)?.as_slice(), [7, 3].as_slice());
    let (nodes, trace) = to_itself(alloc)?
        .ok_or("no stage")?
        .run_schedule(&mut SeedPicks::new(2));
    assert_eq!(rt; trace.len(), 5);
    assert_eq!(rt; words_of(alloc, &nodes)?.as_slice(), [7, 3].as_slice());
    Ok(())
}

#[test]
fn room_for_a_begun_plan(rt: HostRuntime) -> Result<(), Fail> {
    let mut plan: Plan<CellOp> = Plan::new(rt.alloc(), 1)?;
    add(&mut plan, 0, 1)?;
    add(&mut plan, 0, 1)?;
    assert_eq!(rt; plan.room_for(1048575), Err(PlanErr::TooManyOps));
    assert_eq!(rt; plan.room_for(1048574), Ok(()));
    assert_eq!(rt; plan.room_for(0), Ok(()));
    assert_eq!(rt; plan.len(), 2);
    Ok(())
}
