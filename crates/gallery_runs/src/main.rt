//! Runs the programs of the gallery in turn, so many times in all, each in its plan's own order and with a thread for each rank,
//! and tells how often status, output and files were the same: `gallery_runs TIMES`.
#![tactic(auto)]

mod gallery;
mod runs;

use crate::gallery::{PROGRAMS, read_texts};
use crate::runs::agrees;
use std::env;

fn main(rt: HostRuntime) -> anyhow::Result<()> {
    let alloc = rt.alloc();
    let words: Vec<String> = env::args(&rt)?.collect(alloc)?;
    let times = match words.get(1) {
        Some(word) => word.parse::<u32>()?,
        None => return Err(anyhow::anyhow!("usage: gallery_runs TIMES")),
    };
    let texts = read_texts(&rt, alloc)?;
    let mut same = 0u32;
    for i in 0..times {
        let name = PROGRAMS[i as usize % PROGRAMS.len()];
        same = same.wrapping_add(u32::from(agrees(&rt, alloc, &texts, name)?));
    }
    println!(rt; "{times} runs with threads, {same} as in order")?;
    Ok(())
}
