//! The words of the command line read a second time, as docs/FORMATS.md says it.
use std::alloc::{AllocError, Global};

// The number of a word of 1 to 20 digits, from the least to the most.
fn number(word: &str, least: u64, most: u64) -> Option<u64> {
    if word.is_empty() || word.len() > 20 {
        return None;
    }
    let mut value = 0u64;
    for digit in word.bytes() {
        if !digit.is_ascii_digit() {
            return None;
        }
        let digit = u64::from(digit.wrapping_sub(b'0'));
        value = value.checked_mul(10)?.checked_add(digit)?;
    }
    if least <= value && value <= most {
        Some(value)
    } else {
        None
    }
}

fn is_name(word: &str) -> bool {
    !word.is_empty() && word.len() <= 1024 && word.bytes().all(|byte| byte != 0)
}

// The numbers of a grid and its blocks.
fn is_grid(words: &[&str]) -> bool {
    let [p, q, mb, nb] = words else {
        return false;
    };
    let Some(rows) = number(*p, 1, 64) else {
        return false;
    };
    let Some(columns) = number(*q, 1, 64) else {
        return false;
    };
    rows.wrapping_mul(columns) <= 64
        && number(*mb, 1, 1 << 24).is_some()
        && number(*nb, 1, 1 << 24).is_some()
}

// What was read of the words after the command.
#[derive(Drop)]
struct Sorted<'a> {
    places: Vec<&'a str>,
    options: usize,
    bad: bool,
    all_places: bool,
    wants_seed: bool,
}

impl<'a> Sorted<'a> {
    // Takes the next word.
    fn take(&mut self, word: &'a str) -> Result<(), AllocError> {
        if self.wants_seed {
            self.wants_seed = false;
            self.bad = self.bad || number(word, 0, u64::MAX).is_none();
        } else if self.all_places || word == "-" || !word.starts_with("-") {
            self.places.push(word)?;
        } else if word == "--" {
            self.all_places = true;
        } else {
            self.options = self.options.saturating_add(1);
            match word.strip_prefix("--seed=") {
                Some(seed) => self.bad = self.bad || number(seed, 0, u64::MAX).is_none(),
                None if word == "--seed" => self.wants_seed = true,
                None => self.bad = self.bad || word != "--threads",
            }
        }
        Ok(())
    }
}

/// What words ask for, as far as a store without files tells it.
#[derive(Drop)]
pub(crate) enum Asked {
    /// The command reads this file before any other.
    Reads(String),
    /// A load of a seed and a size.
    Loads(u64, u64),
    Usage,
}

// The words after the command, sorted.
fn words_after<'a>(alloc: Global, words: &'a [String]) -> Result<Sorted<'a>, AllocError> {
    let mut sorted = Sorted {
        places: Vec::new(alloc),
        options: 0,
        bad: false,
        all_places: false,
        wants_seed: false,
    };
    for word in words {
        sorted.take(word.as_str())?;
    }
    Ok(sorted)
}

// Whether these names and numbers stand in the table of a command that reads files.
fn is_in_table(command: &str, places: &[&str]) -> bool {
    match (command, places) {
        ("check", [program]) | ("run", [program]) => is_name(*program),
        ("join", [prefix, out]) => is_name(*prefix) && is_name(*out),
        ("split", [from, out, grid @ ..]) | ("move", [from, out, grid @ ..]) => {
            is_name(*from) && is_name(*out) && is_grid(grid)
        }
        _ => false,
    }
}

// The seed and the size of a load.
fn load_of(places: &[&str]) -> Option<Asked> {
    let [seed, size] = places else {
        return None;
    };
    let seed = number(*seed, 0, u64::MAX)?;
    Some(Asked::Loads(seed, number(*size, 1, 2000)?))
}

/// What the words ask for.
pub(crate) fn asked_by(alloc: Global, words: &[String]) -> Result<Asked, AllocError> {
    let Some((command, rest)) = words.split_first() else {
        return Ok(Asked::Usage);
    };
    let command = command.as_str();
    let sorted = words_after(alloc, rest)?;
    let most = usize::from(command == "move" || command == "run");
    let places = sorted.places.as_slice();
    if sorted.bad || sorted.wants_seed || sorted.options > most {
        return Ok(Asked::Usage);
    }
    if command == "load" {
        return Ok(load_of(places).unwrap_or(Asked::Usage));
    }
    if !is_in_table(command, places) {
        return Ok(Asked::Usage);
    }
    let first = places.first().copied().unwrap_or("");
    let is_prefix = command == "join" || command == "move";
    let end = if is_prefix { ".0.0" } else { "" };
    Ok(Asked::Reads(format!(in alloc; "{first}{end}")?))
}
