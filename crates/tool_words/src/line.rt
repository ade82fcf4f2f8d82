//! What `clap` is told of the command line. Its own texts are never shown.
ghost use Rattle.std.specs.Prelude.{◌≡◌, IfOk, false};
ghost use Rattle.clap.specs.Words.{shape_of, app_of, rule_of};
ghost use Rattle.clap.specs.declared.builder.command.Command.TheViews.{out-Command};
ghost use Rattle.tool_words.specs.CommandNames.{every_command, name_of};
ghost use Rattle.tool_words.specs.Line.{places_rule, threads_rule, seed_rule, shape_named, bare_line, line_of};

use crate::command::Command;
use clap::{Arg, ArgAction};
use std::alloc::{AllocError, Global};

// The positional words of a command, any number of them.
fn places<'a>(alloc: Global) -> Arg<'a>
    ensures rule { rule_of result ≡ places_rule }
    ensures local { result.global ≡ false }
{
    Arg::new(alloc, "words").action(ArgAction::Append)
}

// `--threads`, without a value.
fn threads<'a>(alloc: Global) -> Arg<'a>
    ensures rule { rule_of result ≡ threads_rule }
    ensures local { result.global ≡ false }
{
    Arg::new(alloc, "threads")
        .long("threads")
        .action(ArgAction::SetTrue)
}

// `--seed S` or `--seed=S`; how often it stands is counted later.
fn seed<'a>(alloc: Global) -> Arg<'a>
    ensures rule { rule_of result ≡ seed_rule }
    ensures local { result.global ≡ false }
{
    Arg::new(alloc, "seed")
        .long("seed")
        .action(ArgAction::Append)
}

// A command. Each takes the same arguments, since the table says which of them it has.
#[tactic(auto, unfolding(crate::specs::Line::shape_named))]
fn subcommand<'a>(alloc: Global, command: Command) -> Result<clap::Command<'a>, AllocError>
    ensures shape { IfOk result (λ c. shape_of c ≡ shape_named (name_of command)) }
    ensures local { IfOk result (λ c. (out-Command c).has_globals ≡ false) }
{
    clap::Command::new(alloc, command.name())
        .arg(places(alloc))?
        .arg(threads(alloc))?
        .arg(seed(alloc))
}

// No help and no version, and no program's name before the words.
#[tactic(auto, unfolding(crate::specs::Line::bare_line))]
fn bare<'a>(alloc: Global) -> clap::Command<'a>
    ensures app { app_of result ≡ bare_line }
{
    clap::Command::new(alloc, "gridtool")
        .no_binary_name(true)
        .disable_help_flag(true)
        .disable_help_subcommand(true)
        .disable_version_flag(true)
}

/// The line with every command below it.
pub(crate) fn line<'a>(alloc: Global) -> Result<clap::Command<'a>, AllocError>
    ensures { IfOk result (λ c. app_of c ≡ line_of every_command) }
{
    let commands = Command::every();
    let mut line = bare(alloc);
    for command in &commands {
        line = line.subcommand(subcommand(alloc, *command)?)?;
    }
    Ok(line)
}
