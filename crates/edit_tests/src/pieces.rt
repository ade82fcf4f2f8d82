//! Piece files read a second time, and joined, as docs/FORMATS.md says it.
use crate::answers::{Answer, done, stopped};
use crate::lines::{Stop, line_fault, lines_of, number, refusal, words_of};
use crate::matrices::{Symmetry, column_of, count, empty_body, read_banner};
use std::alloc::{AllocError, Global};

/// A file of a store.
#[derive(Drop)]
pub(crate) struct File {
    pub(crate) name: String,
    pub(crate) bytes: Vec<u8>,
}

/// The numbers of line 2.
#[derive(Clone, Copy, PartialEq, Eq)]
struct Head {
    p: i64,
    q: i64,
    row: i64,
    column: i64,
    m: i64,
    n: i64,
    mb: i64,
    nb: i64,
    rsrc: i64,
    csrc: i64,
    lld: i64,
}

// How many of the first so many indices lie on a process.
fn owned(count: i64, block: i64, me: i64, source: i64, processes: i64) -> i64 {
    let mut owned = 0i64;
    for index in 0..count {
        if owner(index, block, source, processes) == me {
            owned = owned.wrapping_add(1);
        }
    }
    owned
}

// The process of an index.
fn owner(index: i64, block: i64, source: i64, processes: i64) -> i64 {
    let turn = index.checked_div(block).unwrap_or(0).wrapping_add(source);
    turn.checked_rem(processes).unwrap_or(0)
}

const LARGE: i64 = 1 << 24;

impl Head {
    // The head of twelve words.
    fn of_words(words: &[String]) -> Option<Head> {
        let [word, rest @ ..] = words else {
            return None;
        };
        let mut numbers = [0i64; 11];
        if word.as_str() != "%DESC" || rest.len() != 11 {
            return None;
        }
        for (place, word) in numbers.iter_mut().zip(rest) {
            let value = number(word.as_str(), b"+-")?;
            *place = i64::from(i32::try_from(value).ok()?);
        }
        let [p, q, row, column, m, n, mb, nb, rsrc, csrc, lld] = numbers;
        let head = Head {
            p,
            q,
            row,
            column,
            m,
            n,
            mb,
            nb,
            rsrc,
            csrc,
            lld,
        };
        let grid = p >= 1 && p <= 64 && q >= 1 && q <= 64 && p.wrapping_mul(q) <= 64;
        if grid && row >= 0 && row < p && column >= 0 && column < q {
            Some(head)
        } else {
            None
        }
    }

    fn agrees(&self, first: &Head) -> bool {
        let mut same = *first;
        same.row = self.row;
        same.column = self.column;
        same.lld = self.lld;
        *self == same
    }

    fn rows(&self) -> i64 {
        owned(self.m, self.mb, self.row, self.rsrc, self.p)
    }

    fn columns(&self) -> i64 {
        owned(self.n, self.nb, self.column, self.csrc, self.q)
    }

    // The number of the first bad entry.
    fn info(&self) -> Option<i32> {
        if self.m < 0 || self.m > LARGE {
            Some(-2)
        } else if self.n < 0 || self.n > LARGE {
            Some(-3)
        } else if self.mb < 1 || self.mb > LARGE {
            Some(-4)
        } else if self.nb < 1 || self.nb > LARGE {
            Some(-5)
        } else if self.rsrc < 0 || self.rsrc >= self.p {
            Some(-6)
        } else if self.csrc < 0 || self.csrc >= self.q {
            Some(-7)
        } else if self.lld > LARGE || self.lld < self.rows().max(1) {
            Some(-9)
        } else {
            None
        }
    }
}

/// A piece that was read.
#[derive(Drop)]
struct Piece {
    head: Head,
    words: Vec<i32>,
}

// The head of line 2, at a place of the grid.
fn read_head(
    alloc: Global,
    lines: &[Vec<u8>],
    first: Option<&Head>,
    place: (i64, i64),
) -> Result<Head, Stop> {
    let Some(line) = lines.get(1) else {
        return Err(refusal(alloc, 2, "bad DESC line"));
    };
    if let Some(text) = line_fault(line, false) {
        return Err(refusal(alloc, 2, text));
    }
    let words = words_of(alloc, line)?;
    let found = if line.as_slice().first() == Some(&b'%') {
        Head::of_words(&words)
    } else {
        None
    };
    let Some(head) = found else {
        return Err(refusal(alloc, 2, "bad DESC line"));
    };
    if first.is_some_and(|first| !head.agrees(first)) {
        return Err(refusal(alloc, 2, "disagrees with the first piece"));
    }
    if let Some(info) = head.info() {
        return Err(Stop::Refused(2, format!(in alloc; "INFO {info}")?));
    }
    if (head.row, head.column) != place {
        return Err(refusal(alloc, 2, "wrong place"));
    }
    Ok(head)
}

fn read_piece(
    alloc: Global,
    file: &[u8],
    first: Option<&Head>,
    place: (i64, i64),
    before: i64,
) -> Result<Piece, Stop> {
    let lines = lines_of(alloc, file)?;
    if read_banner(alloc, &lines)? != Symmetry::General {
        return Err(refusal(alloc, 1, "unknown symmetry"));
    }
    let head = read_head(alloc, &lines, first, place)?;
    let wanted = Some((head.lld, head.columns().max(1), before));
    let mut body = empty_body(alloc, Symmetry::General, wanted);
    let _size = body.read(alloc, &lines, 2)?;
    Ok(Piece {
        head,
        words: body.values,
    })
}

impl Piece {
    // The word of an element of the piece's own.
    fn word(&self, i: i64, j: i64) -> i32 {
        let head = &self.head;
        let row = owned(i, head.mb, head.row, head.rsrc, head.p);
        let column = owned(j, head.nb, head.column, head.csrc, head.q);
        let place = column.wrapping_mul(head.lld).wrapping_add(row);
        usize::try_from(place)
            .ok()
            .and_then(|place| self.words.get(place))
            .copied()
            .unwrap_or(0)
    }
}

// The text of the matrix of all pieces.
fn joined(alloc: Global, pieces: &[Piece], head: &Head) -> Result<String, AllocError> {
    let mut words = Vec::new(alloc);
    for j in 0..head.n {
        let column = owner(j, head.nb, head.csrc, head.q);
        for i in 0..head.m {
            let row = owner(i, head.mb, head.rsrc, head.p);
            for piece in pieces {
                if piece.head.row == row && piece.head.column == column {
                    words.push(piece.word(i, j))?;
                }
            }
        }
    }
    let values = column_of(alloc, &words)?;
    format!(in alloc;
        "%%MatrixMarket matrix array integer general\n{} {}\n{values}",
        head.m, head.n
    )
}

// The bytes of a file among some.
fn file_of<'a>(files: &'a [File], name: &str) -> Option<&'a [u8]> {
    for file in files {
        if file.name.as_str() == name {
            return Some(file.bytes.as_slice());
        }
    }
    None
}

/// The pieces that were read, by rows of the grid.
#[derive(Drop)]
struct Pieces {
    read: Vec<Piece>,
    first: Option<Head>,
    words: i64,
}

impl Pieces {
    // The place of the next piece, or None where all were read.
    fn next_place(&self) -> Option<(i64, i64)> {
        let read = i64::try_from(self.read.len()).unwrap_or(i64::MAX);
        let Some(first) = self.first else {
            return Some((0, 0));
        };
        if read < first.p.wrapping_mul(first.q) {
            Some((read.checked_div(first.q)?, read.checked_rem(first.q)?))
        } else {
            None
        }
    }

    // Reads the piece of a place.
    fn take(&mut self, alloc: Global, file: Option<&[u8]>, place: (i64, i64)) -> Result<(), Stop> {
        let Some(file) = file else {
            return Err(Stop::Missing);
        };
        let piece = read_piece(alloc, file, self.first.as_ref(), place, self.words)?;
        self.first = Some(self.first.unwrap_or(piece.head));
        self.words = self.words.saturating_add(count(&piece.words));
        Ok(self.read.push(piece)?)
    }
}

/// What a join of the pieces of `p` answers.
pub(crate) fn join(alloc: Global, files: &[File]) -> Result<Answer, AllocError> {
    let mut pieces = Pieces {
        read: Vec::new(alloc),
        first: None,
        words: 0,
    };
    for _ in 0..64 {
        let Some(place) = pieces.next_place() else {
            break;
        };
        let name = format!(in alloc; "p.{}.{}", place.0, place.1)?;
        let file = file_of(files, name.as_str());
        if let Err(stop) = pieces.take(alloc, file, place) {
            return stopped(alloc, name.as_str(), stop);
        }
    }
    match pieces.first {
        Some(head) => Ok(done(alloc, joined(alloc, &pieces.read, &head)?)),
        None => Err(AllocError),
    }
}
