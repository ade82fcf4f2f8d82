//! The table of commands: what the positional words and the options of each ask for.
ghost use Rattle.std.specs.Prelude.{◌≡◌, map, IfOk, if◌then◌else◌, option_and_then};
ghost use Rattle.tool_words.specs.Line.{lent_texts};
ghost use Rattle.tool_words.specs.CommandWords.{how_by, target_of, split_of, join_of, move_of, check_of, run_of, load_of, asked_by};

use crate::command::Command;
use crate::numbers::{is_file_name, long_number, number};
use crate::target::Target;
use crate::{Asked, How, Word};
use std::alloc::{AllocError, Global};

// How a command runs, by its options: one stands once at most, and not beside the other.
fn how(threads: bool, seeds: &[&str]) -> Option<How>
    ensures { result ≡ how_by (if threads then 1 else 0) (map (λ s. s.now) seeds.now) }
{
    match (threads, seeds) {
        (false, []) => Some(How::Plain),
        (true, []) => Some(How::Threads),
        (false, [seed]) => Some(How::Seed(long_number(*seed, 0, u64::MAX)?)),
        _ => None,
    }
}

// `P Q MB NB`
#[tactic(auto, unfolding(crate::specs::CommandWords::target_of))]
fn target(p: &str, q: &str, mb: &str, nb: &str) -> Option<Target>
    ensures { result ≡ target_of p.now q.now mb.now nb.now }
{
    let p = number(p, 1, 64)?;
    let q = number(q, 1, 64)?;
    let mb = number(mb, 1, 1 << 24)?;
    let nb = number(nb, 1, 1 << 24)?;
    if p * q > 64 {
        return None;
    }
    Some(Target { p, q, mb, nb })
}

// `PREFIX OUT`
#[tactic(auto, unfolding(crate::specs::CommandWords::join_of))]
fn join(alloc: Global, places: &[&str]) -> Result<Option<Asked>, AllocError>
    ensures { IfOk result (λ r. r ≡ join_of (map (λ s. s.now) places.now)) }
{
    let [prefix, output] = places else {
        return Ok(None);
    };
    if !is_file_name(*prefix) || !is_file_name(*output) {
        return Ok(None);
    }
    Ok(Some(Asked::Join {
        prefix: Word::new(alloc, *prefix)?,
        output: Word::new(alloc, *output)?,
    }))
}

// `IN OUT P Q MB NB`
#[tactic(auto, unfolding(crate::specs::CommandWords::split_of))]
fn split(alloc: Global, places: &[&str]) -> Result<Option<Asked>, AllocError>
    ensures { IfOk result (λ r. r ≡ split_of (map (λ s. s.now) places.now)) }
{
    let [input, output, p, q, mb, nb] = places else {
        return Ok(None);
    };
    if !is_file_name(*input) || !is_file_name(*output) {
        return Ok(None);
    }
    let Some(target) = target(*p, *q, *mb, *nb) else {
        return Ok(None);
    };
    Ok(Some(Asked::Split {
        input: Word::new(alloc, *input)?,
        output: Word::new(alloc, *output)?,
        p: target.p,
        q: target.q,
        mb: target.mb,
        nb: target.nb,
    }))
}

// `PREFIX OUT P Q MB NB`
#[tactic(auto, unfolding(crate::specs::CommandWords::move_of))]
fn move_pieces(alloc: Global, places: &[&str], how: How) -> Result<Option<Asked>, AllocError>
    ensures { IfOk result (λ r. r ≡ move_of (map (λ s. s.now) places.now) how) }
{
    let [prefix, output, p, q, mb, nb] = places else {
        return Ok(None);
    };
    if !is_file_name(*prefix) || !is_file_name(*output) {
        return Ok(None);
    }
    let Some(target) = target(*p, *q, *mb, *nb) else {
        return Ok(None);
    };
    Ok(Some(Asked::Move {
        prefix: Word::new(alloc, *prefix)?,
        output: Word::new(alloc, *output)?,
        p: target.p,
        q: target.q,
        mb: target.mb,
        nb: target.nb,
        how,
    }))
}

// `PROGRAM`
#[tactic(auto, unfolding(crate::specs::CommandWords::check_of))]
fn check(alloc: Global, places: &[&str]) -> Result<Option<Asked>, AllocError>
    ensures { IfOk result (λ r. r ≡ check_of (map (λ s. s.now) places.now)) }
{
    let [program] = places else {
        return Ok(None);
    };
    if !is_file_name(*program) {
        return Ok(None);
    }
    Ok(Some(Asked::Check {
        program: Word::new(alloc, *program)?,
    }))
}

// `PROGRAM`
#[tactic(auto, unfolding(crate::specs::CommandWords::run_of))]
fn run(alloc: Global, places: &[&str], how: How) -> Result<Option<Asked>, AllocError>
    ensures { IfOk result (λ r. r ≡ run_of (map (λ s. s.now) places.now) how) }
{
    let [program] = places else {
        return Ok(None);
    };
    if !is_file_name(*program) {
        return Ok(None);
    }
    Ok(Some(Asked::Run {
        program: Word::new(alloc, *program)?,
        how,
    }))
}

// `SEED SIZE`
#[tactic(auto, unfolding(crate::specs::CommandWords::load_of))]
fn load(places: &[&str]) -> Option<Asked>
    ensures { result ≡ load_of (map (λ s. s.now) places.now) }
{
    let [seed, size] = places else {
        return None;
    };
    let seed = long_number(*seed, 0, u64::MAX)?;
    let size = number(*size, 1, 2000)?;
    Some(Asked::Load { seed, size })
}

/// What a command asks for with these positional words, run so.
fn by_command(
    alloc: Global,
    command: Command,
    places: &[&str],
    how: How,
) -> Result<Option<Asked>, AllocError>
    ensures { IfOk result (λ r. r ≡ asked_by command (map (λ s. s.now) places.now) how) }
{
    match (command, how) {
        (Command::Split, How::Plain) => split(alloc, places),
        (Command::Join, How::Plain) => join(alloc, places),
        (Command::Move, how) => move_pieces(alloc, places, how),
        (Command::Check, How::Plain) => check(alloc, places),
        (Command::Run, how) => run(alloc, places, how),
        (Command::Load, How::Plain) => Ok(load(places)),
        _ => Ok(None),
    }
}

// How a command runs, where values of `--seed` may be lent.
fn how_given(threads: bool, seeds: Option<&[&str]>) -> Option<How>
    ensures { result ≡ how_by (if threads then 1 else 0) (lent_texts seeds.entry) }
{
    match seeds {
        Some(seeds) => how(threads, seeds),
        None => how(threads, &[]),
    }
}

/// What a command asks for with these positional words, `--threads` or not, and these values of `--seed`.
pub(crate) fn asked(
    alloc: Global,
    command: Command,
    places: Option<&[&str]>,
    threads: bool,
    seeds: Option<&[&str]>,
) -> Result<Option<Asked>, AllocError>
    ensures { IfOk result (λ r. r ≡ option_and_then (asked_by command (lent_texts places.entry))
        (how_by (if threads then 1 else 0) (lent_texts seeds.entry))) }
{
    let Some(how) = how_given(threads, seeds) else {
        return Ok(None);
    };
    match places {
        Some(places) => by_command(alloc, command, places, how),
        None => by_command(alloc, command, &[], how),
    }
}
