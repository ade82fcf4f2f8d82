//! Builds the plan of a ring of 64 ranks, so many rounds long, and stages or runs it: one thing each time, so that runs of it can be timed.
#![tactic(auto)]

use msg_core::SeedPicks;
use plan_tests::ring::{ring_nodes, ring_plan};
use plan_tests::stages::{stage_of, words_of};
use std::env;

fn main(rt: HostRuntime) -> anyhow::Result<()> {
    let alloc = rt.alloc();
    let words: Vec<String> = env::args(&rt)?.collect(alloc)?;
    if words.len() != 3 {
        return Err(anyhow::anyhow!("usage: plan_bench build|stage|order|seed ROUNDS"));
    }
    let rounds = words[2].parse::<u32>()?;
    let plan = ring_plan(alloc, rounds)?;
    println!(rt; "{} operations", plan.len())?;
    if words[1].as_str() == "build" {
        return Ok(());
    }
    let stage = stage_of(alloc, plan, ring_nodes(alloc)?).ok_or_else(|| anyhow::anyhow!(
        "no stage"
    ))?;
    let nodes = match words[1].as_str() {
        "stage" => return Ok(()),
        "order" => stage.run_in_order(),
        _ => stage.run_schedule(&mut SeedPicks::new(1)).0,
    };
    let held = words_of(alloc, &nodes)?;
    if let Some(word) = held.first() {
        println!(rt; "rank 0 holds {}", word)?;
    }
    Ok(())
}
