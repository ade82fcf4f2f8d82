//! The words of the command line, read.
ghost use Rattle.std.specs.Prelude.{◌≡◌, IfOk, IfSome, map, string_bytes};
ghost use Rattle.tool_words.specs.CommandNames.{every_command};
ghost use Rattle.tool_words.specs.CommandWords.{command_named, asked};
ghost use Rattle.tool_words.specs.Within.{IsWithin};

use crate::command::Command;
use crate::line::line;
use crate::{Asked, table};
use clap::error::ErrorKind;
use std::alloc::{AllocError, Global};

// The command of this name.
fn named(name: &str) -> Option<Command>
    ensures { result ≡ command_named every_command name.now }
{
    let commands = Command::every();
    commands
        .iter()
        .copied()
        .find(|command| command.name() == name)
}

/// What the words ask for; none exactly where they aren't in the table. The words are those of the command line without the
/// program's name.
pub fn read_words(alloc: Global, words: &[String]) -> Result<Option<Asked>, AllocError>
    ensures asks { IfOk result (λ r. r ≡ asked (map string_bytes words.now)) }
    ensures within { IfOk result (λ r. IfSome r IsWithin) }
{
    let matches = match line(alloc)?.try_get_matches_from(words) {
        Ok(matches) => matches,
        Err(error) => {
            return match error.kind() {
                ErrorKind::OutOfMemory => Err(AllocError),
                _ => Ok(None),
            };
        }
    };
    let Some((name, given)) = matches.subcommand() else {
        return Ok(None);
    };
    let Some(command) = named(name) else {
        return Ok(None);
    };
    let places = given.get_raw("words");
    let seeds = given.get_raw("seed");
    table::asked(alloc, command, places, given.get_flag("threads"), seeds)
}
