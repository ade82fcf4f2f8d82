//! The top call.
ghost use Rattle.std.specs.Prelude.{◌≡◌, None, map, string_bytes};
ghost use Rattle.store_io.specs.Outside.{IsEither};
ghost use Rattle.tool_words.specs.CommandWords.{asked};
ghost use Rattle.spread_cells.specs.Spreading.{SpreadsByHome};
ghost use Rattle.spread_cells.specs.JoiningBack.{JoinsBack};
ghost use Rattle.file_tools.specs.ToolWalk.{walk_of, saved_names};
ghost use Rattle.command_walks.specs.Outcome.{IsOutcome, IsComplete};
ghost use Rattle.file_tools.specs.ThereAndBack.{SplitsAndJoins};

use crate::check::run_check;
use crate::join::run_join;
use crate::load::run_load;
use crate::moves::run_move;
use crate::run::run_file;
use crate::split::run_split;
use crate::target::Target;
use crate::tell::{report, report_usage};
use crate::trouble::Trouble;
use command_walks::Status;
use grid_exec::Mode;
use piece_file::Name;
use std::alloc::Global;
use store_io::{Sink, Store};
use tool_words::{Asked, How, Word, read_words};

/// The file that a word names.
pub fn file_named(word: Word) -> Name
    ensures { result ≡ word }
{
    Name::new(word.into_text().into_string())
}

// The seed of a run that is drawn; every other run goes in the plan's own order.
fn seed_of(how: How) -> Option<u64> {
    match how {
        How::Seed(seed) => Some(seed),
        _ => None,
    }
}

// How a program runs: in the order that a seed draws, or else in the plan's own.
fn mode_of(how: How) -> Mode {
    match seed_of(how) {
        Some(seed) => Mode::Seed(seed),
        None => Mode::InOrder,
    }
}

// Reads the words, does their command, and tells of its trouble.
#[tactic(auto, using(crate::proofs::ToolLaws::command_ends, crate::proofs::ToolLaws::usage_ends, crate::proofs::ToolLaws::never_usage))]
fn run_tool<S: Store, O: Sink, E: Sink>(
    alloc: Global,
    words: &[String],
    store: &mut S,
    out: &mut O,
    err: &mut E,
) -> Status
    ensures outcome { IsOutcome result (walk_of (map string_bytes words.now)) (saved_names (map string_bytes words.now))
        (S.state store.old) (S.state store.new) (O.state out.old) (O.state out.new) (E.state err.old) (E.state err.new) }
    ensures words { result ≡ Status.Words → asked (map string_bytes words.now) ≡ None }
    ensures outside { asked (map string_bytes words.now) ≡ None →
        IsEither (result ≡ Status.Words) (result ≡ Status.NoMemory) }
{
    let asked = match read_words(alloc, words) {
        Ok(Some(asked)) => asked,
        Ok(None) => return report_usage(err),
        Err(error) => return report(err, Err(Trouble::from(error))),
    };
    match asked {
        Asked::Split {
            input,
            output,
            p,
            q,
            mb,
            nb,
        } => {
            let target = Target {
                prefix: output.as_str(),
                nprow: p,
                npcol: q,
                mb,
                nb,
            };
            let done = run_split(alloc, store, file_named(input), &target);
            report(err, done)
        }
        Asked::Join { prefix, output } => {
            let done = run_join(alloc, store, prefix.as_str(), file_named(output));
            report(err, done)
        }
        Asked::Move {
            prefix,
            output,
            p,
            q,
            mb,
            nb,
            how,
        } => {
            let target = Target {
                prefix: output.as_str(),
                nprow: p,
                npcol: q,
                mb,
                nb,
            };
            let done = run_move(alloc, store, out, prefix.as_str(), &target, seed_of(how));
            report(err, done)
        }
        Asked::Check { program } => {
            let done = run_check(alloc, store, out, file_named(program));
            report(err, done)
        }
        Asked::Run { program, how } => {
            let done = run_file(alloc, store, out, file_named(program), mode_of(how));
            report(err, done)
        }
        Asked::Load { seed, size } => {
            let done = run_load(alloc, out, seed, size);
            report(err, done)
        }
    }
}

/// Does what the words ask for, over a store of files, an output and an error stream. The words are those of the command
/// line without the program's name: `split IN OUT P Q MB NB` spreads the matrix of the file IN over a grid of P by Q
/// processes in blocks of MB by NB, and writes the pieces `OUT.p.q`; `join PREFIX OUT` joins the pieces `PREFIX.p.q`, and
/// writes the matrix file OUT; `move PREFIX OUT P Q MB NB` moves the pieces `PREFIX.p.q` to such a grid and blocks, writes
/// them as `OUT.p.q`, and tells the numbers of meets, messages and copies on the output; `check PROGRAM` checks the grid
/// program of the file PROGRAM and tells its numbers on the output; `run PROGRAM` runs it, saves and prints; `load SEED SIZE`
/// makes a matrix from a number, moves it to another grid and back, and tells the numbers and the sum. It never waits and
/// always returns.
#[tactic(auto, using(spread_cells::proofs::SpreadLaws::by_home, spread_cells::proofs::BackLaws::joins_back, command_walks::proofs::Completeness::complete, crate::proofs::BackLaws::splits_and_joins))]
pub fn plain_tool<S: Store, O: Sink, E: Sink>(
    alloc: Global,
    words: &[String],
    store: &mut S,
    out: &mut O,
    err: &mut E,
) -> Status
    ensures outcome { IsOutcome result (walk_of (map string_bytes words.now)) (saved_names (map string_bytes words.now))
        (S.state store.old) (S.state store.new) (O.state out.old) (O.state out.new) (E.state err.old) (E.state err.new) }
    ensures complete { IsComplete result (walk_of (map string_bytes words.now)) (S.state store.old) (S.state store.new)
        (O.state out.old) (O.state out.new) }
    ensures words { result ≡ Status.Words → asked (map string_bytes words.now) ≡ None }
    ensures outside { asked (map string_bytes words.now) ≡ None →
        IsEither (result ≡ Status.Words) (result ≡ Status.NoMemory) }
    ensures pieces { SpreadsByHome }
    ensures back { JoinsBack }
    ensures there_and_back { SplitsAndJoins }
{
    run_tool(alloc, words, store, out, err)
}
