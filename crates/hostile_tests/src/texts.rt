//! Texts and words from short forms, as the tables write them.
use std::alloc::{AllocError, Global};

const BANNER: &str = "%%MatrixMarket matrix array integer general\n";

const BLANKS: &str = "                                                                ";

const ZEROS: &str = "0000000000000000000000000000000000000000000000000000000000000000";

const ENDS: &str =
    "\n\n\n\n\n\n\n\n\n\n\n\n\n\n\n\n\n\n\n\n\n\n\n\n\n\n\n\n\n\n\n\n\n\n\n\n\n\n\n\n\n\n\n\n\n\n\n\n\n\n\n\n\n\n\n\n\n\n\n\n\n\n\n\n";

// What a character of a short form stands for where it isn't itself.
fn meaning(alloc: Global, c: char) -> Result<String, AllocError> {
    match c {
        '/' => String::from_str(alloc, "\n"),
        '_' => BLANKS.repeat(alloc, 16),
        '^' => ZEROS.repeat(alloc, 16),
        '~' => ENDS.repeat(alloc, 16),
        '*' => "1234567\n".repeat(alloc, 20_000),
        _ => {
            let mut own = String::new(alloc);
            own.push(c)?;
            Ok(own)
        }
    }
}

/// A text from its short form: `B/` at the start is the banner of general matrix files, another `/` the end of a line, and `_`, `^` and
/// `~` are 1,024 blanks, zeros and ends of lines. `*` is 20,000 lines `1234567`.
pub(crate) fn text(alloc: Global, short: &str) -> Result<String, AllocError> {
    let (mut text, rest) = match short.strip_prefix("B/") {
        Some(rest) => (String::from_str(alloc, BANNER)?, rest),
        None => (String::new(alloc), short),
    };
    for c in rest.chars() {
        text.push_str(meaning(alloc, c)?.as_str())?;
    }
    Ok(text)
}

/// The words of a line.
pub(crate) fn words(alloc: Global, line: &str) -> Result<Vec<String>, AllocError> {
    let mut words = Vec::new(alloc);
    for word in line.split_whitespace() {
        words.push(String::from_str(alloc, word)?)?;
    }
    Ok(words)
}
