//! Moves on threads.
use crate::ready_moves::ready_trial;
use crate::setting::{Setting, arrived_all, begin_case, case_of, marks};
use move_tests::trial::Case;
use pack_words::RankMem;
use proc_grid::Contexts;
use rank_runner::{OpenGate, Ready};
use std::alloc::Global;
use std::test::Fail;

// 1,000 by 1,000 elements, from 4 by 4 processes in blocks of 64 to 2 by 8 in blocks of 32: 60 messages and 4 copies.
const LARGE: [u32; 9] = [1000, 4, 4, 64, 64, 2, 8, 32, 32];

// The same of 100 by 100 elements in blocks of 8 and of 4.
const SMALL: [u32; 9] = [100, 4, 4, 8, 8, 2, 8, 4, 4];

fn ready_case<R: Sync>(
    rt: &R,
    alloc: Global,
    case: &Case,
    numbers: &[u32],
) -> Result<(Contexts, Ready<RankMem>), Fail> {
    let Setting { trial, operations } = begin_case(alloc, case, numbers)?;
    if operations != 124 {
        return Err(Fail::from("the operations"));
    }
    let nodes = trial.memories(alloc, &[marks(0), marks(1)])?;
    ready_trial(rt, alloc, trial, nodes)
}

// How many pairs of ranks have a queue, and how many of these queues hold one message.
fn queues(ready: &Ready<RankMem>) -> (u32, u32) {
    let mut all = 0u32;
    let mut of_one = 0u32;
    for from in 0..17 {
        for to in 0..17 {
            if let Some(capacity) = ready.capacity(from, to) {
                all = all.wrapping_add(1);
                of_one = of_one.wrapping_add(u32::from(capacity == 1));
            }
        }
    }
    (all, of_one)
}

#[test]
fn every_queue_of_a_move_holds_one_message(rt: HostRuntime) -> Result<(), Fail> {
    let alloc = rt.alloc();
    let case = case_of(&LARGE).ok_or("the blocks")?;
    let (_contexts, ready) = ready_case(&rt, alloc, &case, &LARGE)?;
    assert_eq!(rt; queues(&ready), (60, 60));
    Ok(())
}

#[test]
fn a_move_by_any_number_of_threads(rt: HostRuntime) -> Result<(), Fail> {
    let alloc = rt.alloc();
    let case = case_of(&SMALL).ok_or("the blocks")?;
    for most in [0, 1, 2, 64] {
        let (contexts, ready) = ready_case(&rt, alloc, &case, &SMALL)?;
        let (nodes, desks) = ready.run_threads_most(&rt, &OpenGate, most);
        assert!(rt; arrived_all(alloc, &contexts, &case, &nodes)?);
        assert_eq!(rt; desks.len(), 16);
    }
    Ok(())
}
