//! The lines of an open file, one after the other.
ghost use Rattle.std.specs.Prelude.{◌≡◌, ◌≢◌, ◌≤◌, ◌<◌, ◌+◌, ◌^◌, ◌∷◌, ◌++◌, ℕ, suc, List, [], length, take, drop, true, false, IsTrue, IfOk, OnErr};
ghost use Rattle.std.specs.Bool.{OnTrue, OnFalse};
ghost use Rattle.line_text.specs.Lines.{without_return};
ghost use Rattle.text_io.specs.Reading.{Takes, Looks, unread};
ghost use Rattle.text_io.specs.LineReading.{ReaderView, lines_left, Finds, Moves, IsSame, KeepsLine, IsWhole};
ghost use Rattle.text_io.specs.Runs.{Runs, IsNear, Ends};

use crate::window::Window;
use std::marker::Model;
use store_io::{Store, StoreErr};

// one byte more than the longest line, for a carriage return
const ROOM: usize = 1025;

const LONGEST: usize = 1024;

const MOST: u64 = 1 << 30;

/// What can be wrong with a line, whatever the file holds: of both the first.
#[derive(Clone, Copy, Debug, PartialEq, Eq)]
pub enum LineFault {
    /// The file has more than 2^30 bytes, and byte number 2^30 + 1 is in this line.
    FileLong,
    /// The line has more than 1,024 bytes.
    LineLong,
}

/// What stands next in a file.
#[derive(Clone, Copy, Debug, PartialEq, Eq)]
pub enum Next {
    /// A line, which was taken.
    Line,
    /// Nothing: the file has ended.
    End,
    /// A line that is too long, or in which the file gets too long.
    Fault(LineFault),
}

// How the next line ended, with the number of its bytes: with a line end, at the file's end, or not within the limit.
#[derive(Clone, Copy)]
enum Run {
    Ended(u64),
    Last(u64),
    Far,
}

/// The lines of a store's open input, from its first on, through a window of 64 KiB. It takes no memory. Contracts see the
/// bytes that wait, the line that was taken last, the number of the next line, from 1, and the bytes of those that were taken.
#[derive(Drop)]
pub struct Reader {
    window: Window,
    text: [u8; ROOM],
    length: usize,
    number: u32,
    before: u64,
}

impl Model for Reader {
    ghost Value = { ReaderView };

    ghost view = { λ r. record { waiting = r.window; text = take r.length r.text; number = r.number; before = r.before } };

    ghost invariant = { λ r. (r.length ≤ 1025) × (r.before ≤ 2 ^ 30) × (r.number ≤ r.before + 1) };
}

impl Reader {
    /// No line was taken.
    pub fn new() -> Reader
        ensures { result ≡ record { waiting = []; text = []; number = 1; before = 0 } }
    {
        Reader {
            window: Window::new(),
            text: [0; ROOM],
            length: 0,
            number: 1,
            before: 0,
        }
    }

    /// The number of the next line, from 1.
    #[inline]
    pub fn number(&self) -> u32
        ensures { result ≡ self.now.number }
    {
        self.number
    }

    /// The line that was taken last, without its end and one carriage return before that.
    pub fn text(&self) -> &[u8]
        ensures { result.now ≡ self.now.text }
    {
        &self.text[..self.length]
    }

    // Keeps a byte of a line, where there is room.
    #[inline]
    #[tactic(auto, using(crate::proofs::RunSteps::kept_more, crate::proofs::RunSteps::kept_full))]
    fn keep(&mut self, byte: u8)
        ensures text { self.new.text ≡ take 1025 (self.old.text ++ byte ∷ []) }
        ensures waiting { self.new.waiting ≡ self.old.waiting }
        ensures number { self.new.number ≡ self.old.number }
        ensures before { self.new.before ≡ self.old.before }
    {
        if self.length < ROOM {
            self.text[self.length] = byte;
            self.length += 1;
        }
    }

    // Forgets the line that was taken last.
    fn clear(&mut self)
        ensures text { self.new.text ≡ [] }
        ensures waiting { self.new.waiting ≡ self.old.waiting }
        ensures number { self.new.number ≡ self.old.number }
        ensures before { self.new.before ≡ self.old.before }
    {
        self.length = 0;
    }

    // Whether another byte is there to look at.
    #[inline]
    fn more<S: Store>(&mut self, store: &mut S) -> Result<bool, StoreErr>
        ensures looks { Looks result self.old.waiting self.new.waiting (S.state store.old) (S.state store.new) }
        ensures same { KeepsLine self.old self.new }
    {
        self.window.more(store)
    }

    // The next byte.
    #[inline]
    fn pop(&mut self) -> u8
        requires { 0 < length self.old.waiting }
        ensures waiting { self.old.waiting ≡ result ∷ self.new.waiting }
        ensures same { KeepsLine self.old self.new }
    {
        self.window.pop()
    }

    // Takes the bytes of the next line, and its end.
    #[tactic(auto, using(crate::proofs::RunSteps::run_start, crate::proofs::RunSteps::run_next, crate::proofs::RunSteps::run_ended, crate::proofs::RunSteps::run_last))]
    fn take_run<S: Store>(&mut self, store: &mut S) -> Result<Run, StoreErr>
        ensures runs { IsTrue (S.state store.old).told →
            IfOk result (λ run. Runs run self.old.before (unread self.old.waiting (S.state store.old))
            (unread self.new.waiting (S.state store.new)) self.new.text) }
        ensures near { IfOk result (λ run. IsNear run self.old.before) }
        ensures number { self.new.number ≡ self.old.number }
        ensures before { self.new.before ≡ self.old.before }
        ensures takes { Takes result (S.state store.old) (S.state store.new) }
    {
        let before = self.before;
        let mut count = 0u64;
        self.clear();
        while before + count <= MOST {
            match self.more(store) {
                Ok(true) => {}
                Ok(false) => return Ok(Run::Last(count)),
                Err(error) => return Err(error),
            }
            let byte = self.pop();
            if byte == b'\n' {
                return Ok(Run::Ended(count));
            }
            self.keep(byte);
            count += 1;
        }
        Ok(Run::Far)
    }

    // Takes a line of so many bytes, with its end so many.
    #[tactic(auto, using(crate::proofs::RunSteps::long_run))]
    fn finish(&mut self, run: u64, bytes: u64) -> Next
        requires some { 1 ≤ bytes }
        requires near { bytes ≤ 2 ^ 32 }
        ensures ends { (text : List ℕ) → self.old.text ≡ take 1025 text → length text ≡ run →
            Ends result text bytes self.old self.new }
        ensures moves { Moves result self.old self.new }
        ensures waiting { self.new.waiting ≡ self.old.waiting }
    {
        if self.before + bytes > MOST {
            return Next::Fault(LineFault::FileLong);
        }
        if run > ROOM as u64 {
            return Next::Fault(LineFault::LineLong);
        }
        let length = length_without_return(&self.text[..self.length]);
        if length > LONGEST {
            return Next::Fault(LineFault::LineLong);
        }
        self.length = length;
        self.before += bytes;
        self.number += 1;
        Next::Line
    }

    /// Takes the next line. A line that is too long, or in which the file gets too long, isn't taken; nothing more can be read
    /// then.
    #[tactic(auto, using(crate::proofs::RunSteps::nothing_left))]
    pub fn next<S: Store>(&mut self, store: &mut S) -> Result<Next, StoreErr>
        ensures finds { IsTrue (S.state store.old).told →
            IfOk result (λ next. Finds next self.old self.new (lines_left self.old (S.state store.old))
            (lines_left self.new (S.state store.new))) }
        ensures moves { IfOk result (λ next. Moves next self.old self.new) }
        ensures same { OnErr result (IsSame self.old self.new) }
        ensures ended { IsTrue (S.state store.old).told →
            IfOk result (λ next. next ≡ Next.End → (S.state store.new).left ≡ []) }
        ensures takes { Takes result (S.state store.old) (S.state store.new) }
    {
        match self.take_run(store) {
            Ok(Run::Ended(run)) => Ok(self.finish(run, run + 1)),
            Ok(Run::Last(run)) => {
                if run == 0 {
                    Ok(Next::End)
                } else {
                    Ok(self.finish(run, run))
                }
            }
            Ok(Run::Far) => Ok(Next::Fault(LineFault::FileLong)),
            Err(error) => Err(error),
        }
    }

    /// The bytes that are there to look at.
    #[inline]
    pub fn at_hand(&self) -> &[u8]
        ensures { result.now ≡ self.now.waiting }
    {
        self.window.bytes()
    }

    /// Takes the next line where all of it is at hand, with its end so many bytes; false, and nothing is taken, where the file
    /// gets too long in it.
    #[inline]
    pub fn take_at_hand(&mut self, count: usize) -> bool
        requires whole { IsWhole (take count self.old.waiting) }
        requires some { 1 ≤ count }
        requires within { count ≤ length self.old.waiting }
        ensures far { OnFalse result (2 ^ 30 < self.old.before + count) }
        ensures same { OnFalse result (self.new ≡ self.old) }
        ensures near { OnTrue result (self.new.before ≤ 2 ^ 30) }
        ensures taken { OnTrue result (self.new ≡ record {
          waiting = drop count self.old.waiting;
          text = self.old.text;
          number = suc self.old.number;
          before = self.old.before + count;
        }) }
    {
        let bytes = count as u64;
        if bytes > MOST - self.before {
            return false;
        }
        self.window.skip(count);
        self.before += bytes;
        self.number += 1;
        true
    }
}

/// How long a line is without one carriage return at its end.
#[tactic(auto, using(crate::proofs::LineSteps::without_last, crate::proofs::LineSteps::without_none, crate::proofs::LineSteps::without_empty))]
fn length_without_return(line: &[u8]) -> usize
    ensures within { result ≤ length line.now }
    ensures kept { take result line.now ≡ without_return line.now }
{
    if line.is_empty() {
        return 0;
    }
    let last = line.len() - 1;
    if line[last] == b'\r' {
        last
    } else {
        line.len()
    }
}
