//! Reads a grid program of 4,096 lines of about 40 bytes, so many times: for figures of the reader. `lang_bench TIMES`.
#![tactic(auto)]

use grid_lang::parse_program;
use std::alloc::{AllocError, Global};
use std::env;

const LINES: u32 = 4096;

const ARRAYS: u32 = 64;

// 64 ranks, a grid, 64 arrays, then exchanges that name them in turn.
fn program_text(alloc: Global) -> Result<String, AllocError> {
    let mut text = String::new(alloc);
    text.push_str("RANKS 64\nGRID world R 8 8\n")?;
    for k in 0..ARRAYS {
        let line = format!(in alloc; "MATRIX a_matrix_{k} 100 100\n")?;
        text.push_str(&line)?;
    }
    for k in 2 + ARRAYS..LINES {
        let array = k % ARRAYS;
        let line = format!(in alloc; "SUM world A H 0 0 a_matrix_{array} 1 1 99 99\n")?;
        text.push_str(&line)?;
    }
    Ok(text)
}

fn main(rt: HostRuntime) -> anyhow::Result<()> {
    let alloc = rt.alloc();
    let words: Vec<String> = env::args(&rt)?.collect(alloc)?;
    if words.len() != 2 {
        return Err(anyhow::anyhow!("usage: lang_bench TIMES"));
    }
    let times = words[1].parse::<u32>()?;
    let text = program_text(alloc)?;
    let mut lines = 0usize;
    for _ in 0..times {
        match parse_program(alloc, text.as_bytes()) {
            Ok(program) => lines = program.lines().len(),
            Err(_) => return Err(anyhow::anyhow!("the program was refused")),
        }
    }
    println!(rt;
        "{} bytes, {} lines, read {} times",
        text.len(),
        lines,
        times
    )?;
    Ok(())
}
