//! What is told on the error stream of a command that didn't come to its end.
ghost use Rattle.std.specs.Prelude.{◌≡◌, IsTrue};
ghost use Rattle.tool_lines.specs.Texts.{out_of_memory};
ghost use Rattle.tool_lines.specs.Saying.{Says, Tells, Gains};
ghost use Rattle.command_walks.specs.declared.status.Status.TheVariants as status;
ghost use Rattle.file_tools.specs.Troubles.{line_of, status_in, line_in};
ghost use Rattle.file_tools.specs.Usage.{usage};

use crate::trouble::Trouble;
use command_walks::Status;
use program_walks::{exec_phrase, lang_phrase};
use store_io::{Sink, SinkErr};
use tool_lines::Part::{Text, Words};
use tool_lines::{matrix_phrase, piece_phrase, say, tell_at, tell_line};

// Why a command didn't come to its end.
fn tell<E: Sink>(err: &mut E, trouble: &Trouble)
    ensures { IsTrue (E.state err.old).told → Gains (E.state err.old) (E.state err.new) (line_of trouble.now) }
{
    match trouble {
        Trouble::Missing(name) => tell_line(err, &[Text(name.as_str())], &[Text(": missing")]),
        Trouble::Failed(name) => tell_line(err, &[Text(name.as_str())], &[Text(": store fault")]),
        Trouble::Matrix(name, error) => {
            let phrase = matrix_phrase(error.what);
            tell_at(err, name.as_str(), error.line, &phrase)
        }
        Trouble::Piece(name, line, fault) => {
            let phrase = piece_phrase(*fault);
            tell_at(err, name.as_str(), *line, &phrase)
        }
        Trouble::Program(name, line, fault) => {
            let phrase = lang_phrase(*fault);
            tell_at(err, name.as_str(), *line, &phrase)
        }
        Trouble::Line(name, line, fault) => {
            let phrase = exec_phrase(*fault);
            tell_at(err, name.as_str(), *line, &phrase)
        }
        Trouble::TooMany(words) => tell_line(err, &[], &[Text("too many words: "), Words(*words)]),
        Trouble::NoMemory => tell_line(err, &[], &[Text("out of memory")]),
        Trouble::Output => tell_line(err, &[], &[Text("output fault")]),
    }
}

/// Tells why a command didn't come to its end, if it didn't, and answers how the tool ends.
#[tactic(auto, using(crate::proofs::ToolLaws::says_nothing, crate::proofs::ToolLaws::not_done))]
pub fn report<E: Sink>(err: &mut E, done: Result<(), Trouble>) -> Status
    ensures status { result ≡ status_in done }
    ensures says { IsTrue (E.state err.old).told → Gains (E.state err.old) (E.state err.new) (line_in done) }
    ensures silent { result ≡ status.Done → E.state err.new ≡ E.state err.old }
{
    match done {
        Ok(()) => Status::Done,
        Err(trouble) => {
            tell(err, &trouble);
            trouble.status()
        }
    }
}

// The usage of all commands.
#[tactic(auto, unfolding(crate::specs::Usage::usage))]
fn say_usage<E: Sink>(err: &mut E) -> Result<(), SinkErr>
    ensures says { IsTrue (E.state err.old).told →
        Says result (E.state err.old) (E.state err.new) usage }
    ensures tells { Tells result (E.state err.old) (E.state err.new) }
{
    say(
        err,
        b"usage: gridtool split IN OUT P Q MB NB\n       gridtool join PREFIX OUT\n       gridtool move PREFIX OUT P Q MB NB [--threads | --seed S]\n       gridtool check PROGRAM\n       gridtool run PROGRAM [--threads | --seed S]\n       gridtool load SEED SIZE\n",
    )
}

/// Tells how the tool is used. A fault of the stream changes nothing.
#[tactic(auto, using(tool_lines::proofs::SayingLemmas::gains_all, tool_lines::proofs::SayingLemmas::gains_front))]
pub(crate) fn report_usage<E: Sink>(err: &mut E) -> Status
    ensures status { result ≡ status.Words }
    ensures says { IsTrue (E.state err.old).told → Gains (E.state err.old) (E.state err.new) usage }
{
    match say_usage(err) {
        Ok(()) => {}
        Err(_) => {}
    }
    Status::Words
}

/// Tells that memory was wanted before there were words for the call. A fault of the stream changes nothing.
pub fn no_memory<E: Sink>(err: &mut E) -> Status
    ensures status { result ≡ status.NoMemory }
    ensures says { IsTrue (E.state err.old).told → Gains (E.state err.old) (E.state err.new) out_of_memory }
{
    report(err, Err(Trouble::NoMemory))
}
