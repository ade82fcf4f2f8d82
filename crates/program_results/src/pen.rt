//! Text on its way to a sink through one buffer.
ghost use Rattle.std.specs.Prelude.{◌≡◌, ◌≤◌, ◌+◌, ◌++◌, [], ◌↔◌, ℕ, List, length, IsTrue, OnOk};
ghost use Rattle.std.specs.Fmt.{decimal, signed_decimal};
ghost use Rattle.tool_lines.specs.Saying.{Tells};
ghost use Rattle.program_results.specs.Pouring.{Pours};
ghost use Rattle.program_results.specs.Printing.{after_space};

use itoa::Buffer;
use std::marker::Model;
use store_io::{Sink, SinkErr, sink_all};

const ROOM: usize = 8192;

/// Bytes on their way to a sink, gathered so that few writes are made; seen as the list of bytes that wait. It takes no
/// memory. After a failure the bytes that wait are no longer of use.
#[derive(Drop)]
pub(crate) struct SinkPen {
    room: [u8; ROOM],
    used: usize,
}

impl Model for SinkPen {
    ghost use Rattle.std.specs.Prelude.{ℕ, List, take, ◌≤◌};

    ghost Value = { List ℕ };

    ghost view = { λ p. take p.used p.room };

    ghost invariant = { λ p. p.used ≤ 8192 };
}

impl SinkPen {
    /// Nothing waits.
    pub(crate) fn new() -> SinkPen
        ensures { result ≡ [] }
    {
        SinkPen {
            room: [0; ROOM],
            used: 0,
        }
    }

    #[inline]
    fn has_room(&self, count: usize) -> bool
        ensures { IsTrue result ↔ (length self.now + count ≤ 8192) }
    {
        count <= ROOM - self.used
    }

    #[inline]
    fn push(&mut self, bytes: &[u8])
        requires { length self.old + length bytes.now ≤ 8192 }
        ensures { self.new ≡ self.old ++ bytes.now }
    {
        let end = self.used + bytes.len();
        self.room[self.used..end].copy_from_slice(bytes);
        self.used = end;
    }

    /// Says what waits.
    #[inline(never)]
    #[tactic(auto, using(crate::proofs::PouringLaws::pours_all, crate::proofs::PouringLaws::front_of_all))]
    pub(crate) fn flush<O: Sink>(&mut self, out: &mut O) -> Result<(), SinkErr>
        ensures pours { IsTrue (O.state out.old).told →
            Pours result (O.state out.old) (O.state out.new) self.old self.new [] }
        ensures empty { OnOk result (self.new ≡ []) }
        ensures tells { Tells result (O.state out.old) (O.state out.new) }
    {
        match sink_all(out, &self.room[..self.used]) {
            Ok(()) => {
                self.used = 0;
                Ok(())
            }
            Err(error) => Err(error),
        }
    }

    // Says a piece at once, after what waits.
    #[tactic(auto, using(crate::proofs::PouringLaws::pours_past, crate::proofs::PouringLaws::front_past, crate::proofs::PouringLaws::front_waited))]
    fn say<O: Sink>(&mut self, out: &mut O, bytes: &[u8]) -> Result<(), SinkErr>
        ensures pours { IsTrue (O.state out.old).told →
            Pours result (O.state out.old) (O.state out.new) self.old self.new bytes.now }
        ensures tells { Tells result (O.state out.old) (O.state out.new) }
    {
        match self.flush(out) {
            Ok(()) => {}
            Err(error) => return Err(error),
        }
        match sink_all(out, bytes) {
            Ok(()) => Ok(()),
            Err(error) => Err(error),
        }
    }

    /// Puts a piece.
    #[tactic(auto, using(crate::proofs::PouringLaws::pours_none, crate::proofs::PouringLaws::pours_after, crate::proofs::PouringLaws::front_waited))]
    pub(crate) fn put<O: Sink>(&mut self, out: &mut O, bytes: &[u8]) -> Result<(), SinkErr>
        ensures pours { IsTrue (O.state out.old).told →
            Pours result (O.state out.old) (O.state out.new) self.old self.new bytes.now }
        ensures tells { Tells result (O.state out.old) (O.state out.new) }
    {
        if bytes.len() > ROOM {
            return self.say(out, bytes);
        }
        if !self.has_room(bytes.len()) {
            match self.flush(out) {
                Ok(()) => {}
                Err(error) => return Err(error),
            }
        }
        self.push(bytes);
        Ok(())
    }

    /// Puts a number in decimal.
    pub(crate) fn put_number<O: Sink>(&mut self, out: &mut O, number: u32) -> Result<(), SinkErr>
        ensures pours { IsTrue (O.state out.old).told →
            Pours result (O.state out.old) (O.state out.new) self.old self.new (decimal number) }
        ensures tells { Tells result (O.state out.old) (O.state out.new) }
    {
        let mut digits = Buffer::new();
        self.put(out, digits.format(number).as_bytes())
    }

    /// Puts an integer in decimal.
    pub(crate) fn put_signed<O: Sink>(&mut self, out: &mut O, value: i32) -> Result<(), SinkErr>
        ensures pours { IsTrue (O.state out.old).told →
            Pours result (O.state out.old) (O.state out.new) self.old self.new (signed_decimal value) }
        ensures tells { Tells result (O.state out.old) (O.state out.new) }
    {
        let mut digits = Buffer::new();
        self.put(out, digits.format(value).as_bytes())
    }
}
