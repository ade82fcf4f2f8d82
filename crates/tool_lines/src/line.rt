//! Lines of the error stream, in parts. They take no memory.
ghost use Rattle.std.specs.Prelude.{◌++◌, IsTrue, map};
ghost use Rattle.line_text.specs.Lines.{ended};
ghost use Rattle.tool_lines.specs.Saying.{Says, Tells, Gains, part_text};
ghost use Rattle.tool_lines.specs.Texts.{joined, line, at_line, tool_name};

use self::Part::{Count, Text};
use itoa::Buffer;
use store_io::{Sink, SinkErr, sink_all};

/// A part of a line.
#[derive(Clone, Copy)]
pub enum Part<'a> {
    /// A text as it is.
    Text(&'a str),
    /// A number in decimal.
    Count(u32),
    /// A number of words in decimal.
    Words(u64),
    /// A number with a minus where it is negative.
    Info(i32),
}

/// Says a text.
#[tactic(auto, using(crate::proofs::SayingLemmas::says_front))]
pub fn say<E: Sink>(err: &mut E, text: &[u8]) -> Result<(), SinkErr>
    ensures says { IsTrue (E.state err.old).told →
        Says result (E.state err.old) (E.state err.new) text.now }
    ensures tells { Tells result (E.state err.old) (E.state err.new) }
{
    match sink_all(err, text) {
        Ok(()) => Ok(()),
        Err(error) => Err(error),
    }
}

// Says a part.
fn say_part<E: Sink>(err: &mut E, part: &Part<'_>) -> Result<(), SinkErr>
    ensures says { IsTrue (E.state err.old).told →
        Says result (E.state err.old) (E.state err.new) (part_text part.now) }
    ensures tells { Tells result (E.state err.old) (E.state err.new) }
{
    let mut digits = Buffer::new();
    match part {
        Part::Text(text) => say(err, text.as_bytes()),
        Part::Count(count) => say(err, digits.format(*count).as_bytes()),
        Part::Words(words) => say(err, digits.format(*words).as_bytes()),
        Part::Info(info) => say(err, digits.format(*info).as_bytes()),
    }
}

// Says these parts one after the other, up to the first at which the stream fails.
#[tactic(auto, using(crate::proofs::PartsLaws::none_said, crate::proofs::PartsLaws::one_said, crate::proofs::PartsLaws::all_said, crate::proofs::PartsLaws::part_failed))]
fn say_all<E: Sink>(err: &mut E, parts: &[Part<'_>]) -> Result<(), SinkErr>
    ensures says { IsTrue (E.state err.old).told →
        Says result (E.state err.old) (E.state err.new) (joined (map part_text parts.now)) }
    ensures tells { Tells result (E.state err.old) (E.state err.new) }
{
    for part in parts {
        match say_part(err, part) {
            Ok(()) => {}
            Err(error) => return Err(error),
        }
    }
    Ok(())
}

/// Says these parts and ends the line.
#[tactic(auto, using(crate::proofs::SayingLemmas::says_then, crate::proofs::SayingLemmas::front_then, crate::proofs::SayingLemmas::front_more))]
pub fn say_to_end<E: Sink>(err: &mut E, text: &[Part<'_>]) -> Result<(), SinkErr>
    ensures says { IsTrue (E.state err.old).told →
        Says result (E.state err.old) (E.state err.new) (ended (joined (map part_text text.now))) }
    ensures tells { Tells result (E.state err.old) (E.state err.new) }
{
    match say_all(err, text) {
        Ok(()) => say(err, b"\n"),
        Err(error) => Err(error),
    }
}

// Says where something is, and what.
#[tactic(auto, using(crate::proofs::SayingLemmas::says_then, crate::proofs::SayingLemmas::front_then, crate::proofs::SayingLemmas::front_more))]
fn say_placed<E: Sink>(err: &mut E, place: &[Part<'_>], text: &[Part<'_>]) -> Result<(), SinkErr>
    ensures says { IsTrue (E.state err.old).told →
        Says result (E.state err.old) (E.state err.new)
        (joined (map part_text place.now) ++ ended (joined (map part_text text.now))) }
    ensures tells { Tells result (E.state err.old) (E.state err.new) }
{
    match say_all(err, place) {
        Ok(()) => say_to_end(err, text),
        Err(error) => Err(error),
    }
}

#[tactic(auto, unfolding(crate::specs::Texts::tool_name))]
fn say_tool<E: Sink>(err: &mut E) -> Result<(), SinkErr>
    ensures says { IsTrue (E.state err.old).told →
        Says result (E.state err.old) (E.state err.new) tool_name }
    ensures tells { Tells result (E.state err.old) (E.state err.new) }
{
    say(err, b"gridtool: ")
}

// Says a line of the tool: its name, where something is, and what.
#[tactic(auto, using(crate::proofs::SayingLemmas::says_then, crate::proofs::SayingLemmas::front_then, crate::proofs::SayingLemmas::front_more))]
fn say_line<E: Sink>(err: &mut E, place: &[Part<'_>], text: &[Part<'_>]) -> Result<(), SinkErr>
    ensures says { IsTrue (E.state err.old).told →
        Says result (E.state err.old) (E.state err.new)
        (line (map part_text place.now) (map part_text text.now)) }
    ensures tells { Tells result (E.state err.old) (E.state err.new) }
{
    match say_tool(err) {
        Ok(()) => say_placed(err, place, text),
        Err(error) => Err(error),
    }
}

/// A line of the tool: its name, where something is, and what. A fault of the stream changes nothing.
#[tactic(auto, using(crate::proofs::SayingLemmas::gains_all, crate::proofs::SayingLemmas::gains_front))]
pub fn tell_line<E: Sink>(err: &mut E, place: &[Part<'_>], text: &[Part<'_>])
    ensures { IsTrue (E.state err.old).told →
        Gains (E.state err.old) (E.state err.new) (line (map part_text place.now) (map part_text text.now)) }
{
    match say_line(err, place, text) {
        Ok(()) => {}
        Err(_) => {}
    }
}

/// What is wrong with a line of a file. A fault of the stream changes nothing.
pub fn tell_at<E: Sink>(err: &mut E, name: &str, line: u32, text: &[Part<'_>])
    ensures { IsTrue (E.state err.old).told →
        Gains (E.state err.old) (E.state err.new) (at_line name.now line (map part_text text.now)) }
{
    let place = [Text(name), Text(": line "), Count(line), Text(": ")];
    tell_line(err, &place, text)
}
