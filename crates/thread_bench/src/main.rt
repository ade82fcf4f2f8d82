//! Moves an N by N matrix from P by Q processes in blocks of MB by NB to P2 by Q2 in blocks of MB2 by NB2, in memory:
//! `thread_bench N P Q MB NB P2 Q2 MB2 NB2 MOST`, with at most MOST threads, or in order where MOST is 0. With one word more
//! it tells the microseconds of taking the buffers and of the run.
#![tactic(auto)]

mod timed;

use crate::timed::{Times, run_by_threads, run_in_order};
use std::env;
use std::test::Fail;
use thread_tests::setting::{Setting, arrived_all, begin_case, case_of};

fn main(rt: HostRuntime) -> Result<(), Fail> {
    let alloc = rt.alloc();
    let words: Vec<String> = env::args(&rt)?.collect(alloc)?;
    if words.len() < 11 {
        return Err(Fail::from("usage: thread_bench N P Q MB NB P2 Q2 MB2 NB2 MOST [time]"));
    }
    let mut numbers = Vec::new(alloc);
    for word in &words[1..11] {
        numbers.push(word.parse::<u32>()?)?;
    }
    let most = *numbers.get(9).ok_or("ten numbers")?;
    let case = case_of(&numbers).ok_or("the blocks")?;
    let Setting { trial, operations } = begin_case(alloc, &case, &numbers)?;
    println!(rt; "{operations} operations")?;
    let (contexts, nodes, times) = if most == 0 {
        run_in_order(&rt, trial)?
    } else {
        run_by_threads(&rt, trial, most)?
    };
    let right = arrived_all(alloc, &contexts, &case, &nodes)?;
    println!(rt; "all words right: {right}")?;
    if words.len() > 11 {
        let Times { prepare, run } = times;
        println!(rt; "prepare {prepare} us, run {run} us")?;
    }
    Ok(())
}
