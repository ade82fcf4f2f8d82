//! The command `load`.
ghost use Rattle.std.specs.Prelude.{◌≡◌, ◌≤◌, [], Some};
ghost use Rattle.store_io.specs.Outside.{Outside};
ghost use Rattle.command_walks.specs.Following.{Prints};
ghost use Rattle.file_tools.specs.LoadWalk.{job_line, load_walk, sum_label};
ghost use Rattle.file_tools.specs.Troubles.{Follows};

use crate::trouble::Trouble;
use drawn_jobs::{Loaded, load_job};
use std::alloc::Global;
use store_io::{Sink, SinkErr};
use tool_lines::Part::{Count, Text, Words};
use tool_lines::say_to_end;

// What stands before the digits of the sum.
#[tactic(auto, using(crate::proofs::LoadLaws::below_zero, crate::proofs::LoadLaws::from_zero))]
fn label_of(sum: i64) -> &'static str
    ensures { result.now ≡ sum_label sum }
{
    if sum < 0 { " sum -" } else { " sum " }
}

// Tells the numbers of a job, and its sum.
#[tactic(auto, using(crate::proofs::LoadLaws::job_prints))]
fn tell_job<O: Sink>(out: &mut O, seed: u64, size: u32, job: &Loaded) -> Result<(), SinkErr>
    ensures { Prints result (job_line seed size job.now.meets job.now.messages job.now.copies job.now.sum)
        (O.state out.old) (O.state out.new) }
{
    let label = label_of(job.sum);
    let line = [
        Text("load "),
        Words(seed),
        Text(" "),
        Count(size),
        Text(" meets "),
        Words(job.meets),
        Text(" messages "),
        Count(job.messages),
        Text(" copies "),
        Count(job.copies),
        Text(label),
        Words(job.sum.unsigned_abs()),
    ];
    say_to_end(out, &line)
}

/// Does the job of a seed and a size, and tells its numbers on the output. No file is read or written.
#[tactic(auto, using(crate::proofs::LoadLaws::told_end, crate::proofs::LoadLaws::lost_end, crate::proofs::LoadLaws::load_stops))]
pub(crate) fn run_load<O: Sink>(
    alloc: Global,
    out: &mut O,
    seed: u64,
    size: u32,
) -> Result<(), Trouble>
    requires some { 1 ≤ size }
    requires few { size ≤ 2000 }
    ensures { (store : Outside) → Follows result (load_walk seed size) (Some []) store store (O.state out.old)
        (O.state out.new) }
{
    let job = match load_job(alloc, seed, size) {
        Ok(job) => job,
        Err(_) => return Err(Trouble::NoMemory),
    };
    match tell_job(out, seed, size, &job) {
        Ok(()) => Ok(()),
        Err(_) => Err(Trouble::Output),
    }
}
