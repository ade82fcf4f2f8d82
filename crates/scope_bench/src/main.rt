//! Plans a sum to all of N ranks, so many times, or broadcasts a square of words to N ranks: `scope_bench sum N TIMES` and `scope_bench broadcast N SIDE`, and `time` after it for the microseconds of the run in order.
#![tactic(auto)]

ghost use Rattle.std.specs.Prelude.{◌≡◌, ◌<◌, ℕ, length, slice_index};

use msg_core::Plan;
use pack_words::Shapes;
use proc_grid::{Context, Scope};
use route_tree::Top;
use scope_ops::{Part, Spot};
use scope_tests::joint::{Joint, plan_joint};
use scope_tests::memories::Fill;
use scope_tests::trial::{Trial, begin, staged};
use scope_tests::trouble::Trouble;
use std::alloc::Global;
use std::env;
use std::time::Instant;

// How many operations a sum of one word to all ranks has, planned alone.
fn planned_sum(alloc: Global, shapes: &Shapes, ctx: &Context, count: u32) -> Result<u32, Trouble>
    requires ranks { (k : ℕ) → k < length ctx.now.ranks → slice_index ctx.now.ranks k < shapes.now.ranks }
    requires count { count ≡ shapes.now.count }
{
    let ranks = shapes.ranks();
    if ranks == 0 || ranks > 64 {
        return Err(Trouble::Case);
    }
    let mut plan = Plan::new(alloc, ranks)?;
    let call = Joint::Sum { dest: None };
    let part = corner(1, 1);
    plan_joint(
        alloc,
        &mut plan,
        shapes,
        ctx,
        count,
        Scope::All,
        Top::H,
        &part,
        call,
    )?;
    Ok(plan.len())
}

// The upper left corner of the first array.
fn corner(m: u32, n: u32) -> Part {
    Part {
        array: 0,
        i: 1,
        j: 1,
        m,
        n,
    }
}

// All operations of so many plans.
fn plan_sums(alloc: Global, ranks: u32, times: u32) -> Result<u64, Trouble> {
    let Trial {
        ctx,
        shapes,
        count,
        plan: _,
    } = begin(alloc, ranks, (1, ranks), &[(1, 1)])?;
    let mut all = 0u64;
    for _ in 0..times {
        all = all.wrapping_add(planned_sum(alloc, &shapes, &ctx, count)? as u64);
    }
    Ok(all)
}

// A square of words goes from the first rank to all: the last word of the last rank, and the microseconds of the run.
fn broadcast(rt: &HostRuntime, ranks: u32, side: u32) -> anyhow::Result<Option<(i32, u128)>> {
    let alloc = rt.alloc();
    let Ok(
        Trial {
            ctx,
            shapes,
            count,
            mut plan,
        },
    ) = begin(alloc, ranks, (1, ranks), &[(side, side)])
    else {
        return Ok(None);
    };
    let call = Joint::Broadcast {
        src: (0, 0),
        rcv: Spot {
            array: 0,
            i: 1,
            j: 1,
        },
    };
    let part = corner(side, side);
    let Ok(()) = plan_joint(
        alloc,
        &mut plan,
        &shapes,
        &ctx,
        count,
        Scope::All,
        Top::H,
        &part,
        call,
    ) else {
        return Ok(None);
    };
    let fill = Fill {
        ranks: [1, 0, 0, 0, 0, 0],
        row: 3,
        column: 7,
    };
    let Ok(stage) = staged(alloc, plan, &shapes, count, &fill) else {
        return Ok(None);
    };
    let start = Instant::now(rt)?;
    let nodes = stage.run_in_order();
    let micros = start.elapsed(rt)?.as_micros();
    let held = match nodes.last() {
        Some(node) => node.array(0),
        None => None,
    };
    match held {
        Some(cells) if side > 0 && side <= cells.lld() && side <= cells.cols() => Ok(Some((
            cells.get(side - 1, side - 1),
            micros,
        ))),
        _ => Ok(None),
    }
}

fn main(rt: HostRuntime) -> anyhow::Result<()> {
    let words: Vec<String> = env::args(&rt)?.collect(rt.alloc())?;
    if words.len() < 4 {
        return Err(anyhow::anyhow!("usage: scope_bench sum N TIMES | broadcast N SIDE [time]"));
    }
    let ranks = words[2].parse::<u32>()?;
    let size = words[3].parse::<u32>()?;
    if words[1].as_str() == "sum" {
        let all = plan_sums(rt.alloc(), ranks, size).or(Err(anyhow::anyhow!("no plan")))?;
        println!(rt; "{all} operations")?;
        return Ok(());
    }
    let Some((word, micros)) = broadcast(&rt, ranks, size)? else {
        return Err(anyhow::anyhow!("no broadcast"));
    };
    println!(rt; "the last word of the last rank is {word}")?;
    if words.len() > 4 {
        println!(rt; "run in order {micros} us")?;
    }
    Ok(())
}
