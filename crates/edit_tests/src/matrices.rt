//! Matrix files read a second time, as docs/FORMATS.md says it.
use crate::answers::{Answer, done, stopped};
use crate::lines::{Stop, is_word, line_fault, lines_of, number, refusal, words_of};
use std::alloc::{AllocError, Global};

/// Which values a file stores.
#[derive(Clone, Copy, PartialEq, Eq)]
pub(crate) enum Symmetry {
    General,
    Symmetric,
    Skew,
}

/// The size line and the values, as they are read line after line.
#[derive(Drop)]
pub(crate) struct Body {
    pub(crate) symmetry: Symmetry,
    /// The leading dimension and the columns that a piece has to have, and the words of the pieces before it.
    pub(crate) wanted: Option<(i64, i64, i64)>,
    pub(crate) size: Option<(i64, i64)>,
    pub(crate) values: Vec<i32>,
}

// The faults of line 1 that words can have.
fn banner(words: &[String]) -> Result<Symmetry, &'static str> {
    let [first, object, format, field, symmetry] = words else {
        return Err("not a Matrix Market file");
    };
    if first.as_str() != "%%MatrixMarket" || !is_word(object.as_str(), "matrix") {
        return Err("not a Matrix Market file");
    }
    if !is_word(format.as_str(), "array") || !is_word(field.as_str(), "integer") {
        return Err("not an array of integers");
    }
    let symmetry = symmetry.as_str();
    if is_word(symmetry, "general") {
        Ok(Symmetry::General)
    } else if is_word(symmetry, "symmetric") {
        Ok(Symmetry::Symmetric)
    } else if is_word(symmetry, "skew-symmetric") {
        Ok(Symmetry::Skew)
    } else {
        Err("unknown symmetry")
    }
}

/// The symmetry that line 1 tells.
pub(crate) fn read_banner(alloc: Global, lines: &[Vec<u8>]) -> Result<Symmetry, Stop> {
    let Some(line) = lines.first() else {
        return Err(refusal(alloc, 1, "not a Matrix Market file"));
    };
    if let Some(text) = line_fault(line, false) {
        return Err(refusal(alloc, 1, text));
    }
    if line.as_slice().first() != Some(&b'%') {
        return Err(refusal(alloc, 1, "not a Matrix Market file"));
    }
    let words = words_of(alloc, line)?;
    match banner(&words) {
        Ok(symmetry) => Ok(symmetry),
        Err(text) => Err(refusal(alloc, 1, text)),
    }
}

/// How many values there are.
pub(crate) fn count(values: &[i32]) -> i64 {
    i64::try_from(values.len()).unwrap_or(i64::MAX)
}

impl Body {
    // The size that a line tells.
    fn size_of(&self, words: &[String]) -> Option<(i64, i64)> {
        let [rows, columns] = words else {
            return None;
        };
        let rows = number(rows.as_str(), b"+")?;
        let columns = number(columns.as_str(), b"+")?;
        let square = self.symmetry == Symmetry::General || rows == columns;
        let fits = rows <= 1 << 24 && columns <= 1 << 24 && rows.saturating_mul(columns) <= 1 << 26;
        if square && fits {
            Some((rows, columns))
        } else {
            None
        }
    }

    // How many values a file of this size stores.
    fn want(&self, rows: i64, columns: i64) -> i64 {
        match self.symmetry {
            Symmetry::General => rows.wrapping_mul(columns),
            Symmetry::Symmetric => rows.wrapping_mul(rows.wrapping_add(1)) / 2,
            Symmetry::Skew => rows.wrapping_mul(rows.wrapping_sub(1)) / 2,
        }
    }

    fn take_size(&mut self, alloc: Global, line: usize, words: &[String]) -> Result<(), Stop> {
        let Some((rows, columns)) = self.size_of(words) else {
            return Err(refusal(alloc, line, "bad size line"));
        };
        if let Some((lld, width, before)) = self.wanted {
            if (rows, columns) != (lld, width) {
                let text = format!(in alloc; "size is {rows} {columns}, want {lld} {width}")?;
                return Err(Stop::Refused(line, text));
            }
            let held = rows.wrapping_mul(columns).wrapping_add(before);
            if held > 1 << 26 {
                return Err(Stop::Refused(line, format!(in alloc; "too many words: {held}")?));
            }
        }
        self.size = Some((rows, columns));
        Ok(())
    }

    fn take_value(
        &mut self,
        alloc: Global,
        line: usize,
        words: &[String],
        want: i64,
    ) -> Result<(), Stop> {
        if count(&self.values) >= want {
            return Err(Stop::Refused(line, format!(in alloc; "too many values, want {want}")?));
        }
        let [word] = words else {
            return Err(refusal(alloc, line, "bad value"));
        };
        let Some(value) = number(word.as_str(), b"+-") else {
            return Err(refusal(alloc, line, "bad value"));
        };
        let least = if self.symmetry == Symmetry::Skew {
            -2_147_483_647
        } else {
            -2_147_483_648
        };
        match i32::try_from(value) {
            Ok(word) if value >= least => Ok(self.values.push(word)?),
            _ => Err(refusal(alloc, line, "value out of range")),
        }
    }

    fn take(&mut self, alloc: Global, line: usize, text: &[u8]) -> Result<(), Stop> {
        let is_comment = self.size.is_none() && text.first() == Some(&b'%');
        if let Some(fault) = line_fault(text, is_comment) {
            return Err(refusal(alloc, line, fault));
        }
        let words = words_of(alloc, text)?;
        if is_comment || words.is_empty() {
            return Ok(());
        }
        match self.size {
            None => self.take_size(alloc, line, &words),
            Some((rows, columns)) => {
                let want = self.want(rows, columns);
                self.take_value(alloc, line, &words, want)
            }
        }
    }

    /// Takes the lines after the first so many, and answers the size.
    pub(crate) fn read(
        &mut self,
        alloc: Global,
        lines: &[Vec<u8>],
        head: usize,
    ) -> Result<(i64, i64), Stop> {
        for (k, text) in lines.iter().enumerate() {
            if k >= head {
                self.take(alloc, k.saturating_add(1), text)?;
            }
        }
        let end = lines.len().saturating_add(1);
        let Some((rows, columns)) = self.size else {
            return Err(refusal(alloc, end, "bad size line"));
        };
        let (have, want) = (count(&self.values), self.want(rows, columns));
        if have < want {
            return Err(Stop::Refused(
                end,
                format!(in alloc; "too few values, have {have} want {want}")?,
            ));
        }
        Ok((rows, columns))
    }

    // The element of a row and a column.
    fn element(&self, rows: i64, i: i64, j: i64) -> i32 {
        let (row, column) = if i < j { (j, i) } else { (i, j) };
        // the places of the columns up to this one that no triangle stores
        let above = column.wrapping_mul(column.wrapping_add(1)) / 2;
        let lower = column
            .wrapping_mul(rows)
            .wrapping_sub(above)
            .wrapping_add(row);
        let place = match self.symmetry {
            Symmetry::General => j.wrapping_mul(rows).wrapping_add(i),
            Symmetry::Symmetric => lower,
            Symmetry::Skew if i == j => return 0,
            Symmetry::Skew => lower.wrapping_sub(column).wrapping_sub(1),
        };
        let word = usize::try_from(place)
            .ok()
            .and_then(|place| self.values.get(place))
            .copied()
            .unwrap_or(0);
        if self.symmetry == Symmetry::Skew && i < j {
            word.wrapping_neg()
        } else {
            word
        }
    }

    /// The values of the whole matrix by columns.
    pub(crate) fn whole(
        &self,
        alloc: Global,
        rows: i64,
        columns: i64,
    ) -> Result<Vec<i32>, AllocError> {
        let mut words = Vec::new(alloc);
        for j in 0..columns {
            for i in 0..rows {
                words.push(self.element(rows, i, j))?;
            }
        }
        Ok(words)
    }
}

/// Nothing read yet of a body.
pub(crate) fn empty_body(
    alloc: Global,
    symmetry: Symmetry,
    wanted: Option<(i64, i64, i64)>,
) -> Body {
    Body {
        symmetry,
        wanted,
        size: None,
        values: Vec::new(alloc),
    }
}

/// The lines of some numbers.
pub(crate) fn column_of(alloc: Global, words: &[i32]) -> Result<String, AllocError> {
    let mut text = String::new(alloc);
    for word in words {
        text.push_str(format!(in alloc; "{word}\n")?.as_str())?;
    }
    Ok(text)
}

// The piece that a file is split into on one process, in blocks of 64 by 64.
fn only_piece(alloc: Global, file: &[u8]) -> Result<String, Stop> {
    let lines = lines_of(alloc, file)?;
    let symmetry = read_banner(alloc, &lines)?;
    let mut body = empty_body(alloc, symmetry, None);
    let (rows, columns) = body.read(alloc, &lines, 1)?;
    let (lld, width) = (rows.max(1), columns.max(1));
    let mut words = body.whole(alloc, rows, columns)?;
    if words.is_empty() {
        for _ in 0..lld.wrapping_mul(width) {
            words.push(0)?;
        }
    }
    let values = column_of(alloc, &words)?;
    Ok(format!(in alloc;
        "%%MatrixMarket matrix array integer general\n%DESC 1 1 0 0 {rows} {columns} 64 64 0 0 {lld}\n{lld} {width}\n{values}"
    )?)
}

/// What a split of the file `f` onto one process, in blocks of 64 by 64, answers.
pub(crate) fn split_alone(alloc: Global, file: &[u8]) -> Result<Answer, AllocError> {
    match only_piece(alloc, file) {
        Ok(piece) => Ok(done(alloc, piece)),
        Err(stop) => stopped(alloc, "f", stop),
    }
}
