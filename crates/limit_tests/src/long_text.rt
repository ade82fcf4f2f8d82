//! A text of any length, of which only the ends are held.
ghost use Rattle.std.specs.Prelude.{◌≤◌, length};

use std::alloc::{AllocError, Global};

// the bytes of a line of blanks, with its end
const WIDTH: u64 = 1024;

/// A head, lines of blanks up to a place, and a tail. Each line has 1,023 blanks, but for the first, which has those that are left.
#[derive(Drop)]
pub(crate) struct LongText {
    head: String,
    blanks: String,
    before: u64,
    tail: String,
}

impl LongText {
    /// So many bytes stand before the tail, the head among them.
    pub(crate) fn new(
        alloc: Global,
        head: String,
        before: u64,
        tail: String,
    ) -> Result<LongText, AllocError> {
        let mut line = " ".repeat(alloc, 1023)?;
        line.push('\n')?;
        Ok(LongText {
            head,
            blanks: line.repeat(alloc, 64)?,
            before,
            tail,
        })
    }

    /// How many lines end before the tail.
    pub(crate) fn lines_before(&self) -> u64 {
        let head = self.head.bytes().filter(|byte| *byte == b'\n').count() as u64;
        let blanks = self.before.saturating_sub(self.head.len() as u64);
        head.saturating_add(blanks.div_ceil(WIDTH))
    }

    // Some of the bytes from a place on where so many bytes of blank lines are left.
    fn blanks_left(&self, left: u64) -> &[u8] {
        let from = (WIDTH - left % WIDTH) % WIDTH;
        match self.blanks.as_bytes().get(from as usize..) {
            Some(run) => &run[..run.len().min(left as usize)],
            None => &[],
        }
    }

    // Some of the bytes from a place on that isn't in the head; none at the end.
    fn run_after_head(&self, place: u64) -> &[u8] {
        if place < self.before {
            return self.blanks_left(self.before - place);
        }
        let from = place - self.before;
        match self.tail.as_bytes().get(from as usize..) {
            Some(run) => run,
            None => &[],
        }
    }

    // Some of the bytes from a place on; none at the end.
    fn run_at(&self, place: u64) -> &[u8] {
        match self.head.as_bytes().get(place as usize..) {
            Some(run) if !run.is_empty() => run,
            _ => self.run_after_head(place),
        }
    }

    /// Copies the bytes from a place on, until the room is full or the text ends; how many they are.
    pub(crate) fn copy(&self, place: u64, room: &mut [u8]) -> usize
        ensures { result ≤ length room.old }
    {
        let mut done = 0;
        while done < room.len() {
            let run = self.run_at(place.saturating_add(done as u64));
            let count = run.len().min(room.len() - done);
            if count == 0 {
                return done;
            }
            room[done..done + count].copy_from_slice(&run[..count]);
            done += count;
        }
        done
    }
}
