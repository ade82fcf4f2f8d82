//! The tests: 2,000 drawn edits each of good matrix files, pieces and words.
use crate::answers::{Answer, stopped};
use crate::asked::{Asked, asked_by};
use crate::edits::{Draws, edited_text};
use crate::lines::{Stop, lines_of, words_of};
use crate::matrices::split_alone;
use crate::pieces::{File, join};
use crate::setting::{Setting, empty_setting};
use std::alloc::{AllocError, Global};
use std::process::Abort;
use std::test::Fail;

const EDITS: u32 = 2000;

static MATRICES: [&str; 6] = [
    "%%MatrixMarket matrix array integer general\n3 2\n1\n2\n3\n4\n5\n6\n",
    "%%MatrixMarket matrix array integer general\n% note\n+2 02\n\n-2147483648\n2147483647\n+0\n\n-0\n \n\n",
    "%%MatrixMarket matrix array integer symmetric\n3 3\n1\n2\n3\n4\n5\n6\n",
    "%%MatrixMarket Matrix ARRAY integer skew-symmetric\n%\n3 3\n-7\n2147483647\n9",
    "%%MatrixMarket matrix array integer general\n0 5\n",
    "%%MatrixMarket  matrix\tarray integer\tgeneral \r\n1\t3\r\n1\r\n2\r\n3\r\n",
];

// Whether the tool splits a file as the second reading does.
fn is_split_so(alloc: Global, setting: &mut Setting, file: &[u8]) -> Result<bool, AllocError> {
    let answer = split_alone(alloc, file)?;
    let words = words_of(alloc, b"split f x 1 1 64 64")?;
    Ok(setting.store.put("f", file) && setting.answers(alloc, &words, "x.0.0", &answer))
}

#[test]
fn edited_matrices(rt: HostRuntime) -> Result<(), Fail> {
    let alloc = rt.alloc();
    let mut draws = Draws::new(25);
    for k in 0..EDITS {
        let good = draws.one_of(&MATRICES);
        let file = edited_text(alloc, &mut draws, good.as_bytes())?;
        let mut setting = empty_setting(alloc)?;
        assert!(rt; is_split_so(alloc, &mut setting, &file)?, "edit {k}");
    }
    Ok(())
}

static PIECES: [(&str, &str); 4] = [
    (
        "p.0.0",
        "%%MatrixMarket matrix array integer general\n%DESC 2 2 0 0 3 4 2 3 1 0 3\n3 3\n3\n-1\n-1\n6\n-1\n-1\n9\n-1\n-1\n",
    ),
    (
        "p.0.1",
        "%%MatrixMarket matrix array integer general\n%DESC 2 2 0 1 3 4 2 3 1 0 1\n1 1\n12\n",
    ),
    (
        "p.1.0",
        "%%MatrixMarket matrix array integer general\n%DESC +2 02 1 0 3 4 2 3 1 0 2\n% x\n\n2 3\n1\n2\n4\n5\n7\n8\n",
    ),
    (
        "p.1.1",
        "%%MatrixMarket matrix array integer general\n%DESC 2 2 1 1 3 4 2 3 1 0 2\n2 1\n10\n11\n",
    ),
];

// The pieces, with edits of the one at a place.
fn edited_pieces_at(alloc: Global, draws: &mut Draws, at: usize) -> Result<Vec<File>, AllocError> {
    let mut files = Vec::new(alloc);
    for (k, (name, good)) in PIECES.iter().enumerate() {
        let name = String::from_str(alloc, *name)?;
        let bytes = if k == at {
            edited_text(alloc, draws, good.as_bytes())?
        } else {
            Vec::from_slice(alloc, good.as_bytes())?
        };
        files.push(File { name, bytes })?;
    }
    Ok(files)
}

// Whether the tool joins the pieces as the second reading does.
fn are_joined_so(alloc: Global, setting: &mut Setting, files: &[File]) -> Result<bool, AllocError> {
    let mut fits = true;
    for file in files {
        fits = setting.store.put(file.name.as_str(), &file.bytes) && fits;
    }
    let answer = join(alloc, files)?;
    let words = words_of(alloc, b"join p o")?;
    Ok(fits && setting.answers(alloc, &words, "o", &answer))
}

#[test]
fn edited_pieces(rt: HostRuntime) -> Result<(), Fail> {
    let alloc = rt.alloc();
    let mut draws = Draws::new(26);
    for k in 0..EDITS {
        let at = draws.below(PIECES.len());
        let files = edited_pieces_at(alloc, &mut draws, at)?;
        let mut setting = empty_setting(alloc)?;
        assert!(rt;
            are_joined_so(alloc, &mut setting, &files)?,
            "edit {k} of piece {at}"
        );
    }
    Ok(())
}

// Words, one on each line.
static WORDS: [&str; 10] = [
    "split\na.mtx\nx\n2\n3\n16777216\n1\n",
    "split\n--\n-a\nx\n64\n1\n2\n00000000000000000002\n",
    "join\np\no\n",
    "move\np\no\n8\n8\n4\n5\n--seed\n5\n",
    "move\n--seed=18446744073709551615\np\no\n2\n3\n4\n5\n",
    "move\np\n--threads\no\n2\n3\n4\n5\n",
    "run\np\n--seed\n0\n",
    "check\n-\n",
    "load\n18446744073709551615\n7\n",
    "load\n--\n0\n00000000000000000019\n",
];

const USAGE: &str =
    "usage: gridtool split IN OUT P Q MB NB\n       gridtool join PREFIX OUT\n       gridtool move PREFIX OUT P Q MB NB [--threads | --seed S]\n       gridtool check PROGRAM\n       gridtool run PROGRAM [--threads | --seed S]\n       gridtool load SEED SIZE\n";

// The words of some lines.
fn words_of_lines(alloc: Global, lines: &[Vec<u8>]) -> Result<Vec<String>, AllocError> {
    let mut words = Vec::new(alloc);
    for line in lines {
        let mut word = String::new(alloc);
        for byte in line {
            word.push(char::from(*byte))?;
        }
        words.push(word)?;
    }
    Ok(words)
}

// Whether the tool loads this seed and size.
fn is_loaded_so(
    alloc: Global,
    setting: &mut Setting,
    words: &[String],
    seed: u64,
    size: u64,
) -> Result<bool, AllocError> {
    let status = setting.run(alloc, words);
    let front = format!(in alloc; "load {seed} {size} meets ")?;
    Ok(
        status == 0
            && setting.err.bytes().is_empty()
            && setting.out.bytes().starts_with(front.as_bytes()),
    )
}

// Whether the tool takes the words as the second reading does, over no files.
fn are_taken_so(
    alloc: Global,
    setting: &mut Setting,
    words: &[String],
) -> Result<bool, AllocError> {
    let answer = match asked_by(alloc, words)? {
        Asked::Loads(seed, size) => return is_loaded_so(alloc, setting, words, seed, size),
        Asked::Reads(name) => stopped(alloc, name.as_str(), Stop::Missing)?,
        Asked::Usage => Answer {
            status: 2,
            saved: String::new(alloc),
            told: String::from_str(alloc, USAGE)?,
        },
    };
    Ok(setting.answers(alloc, words, "o", &answer))
}

#[test]
fn edited_words(rt: HostRuntime) -> Result<(), Fail> {
    let alloc = rt.alloc();
    let mut draws = Draws::new(27);
    for k in 0..EDITS {
        let good = draws.one_of(&WORDS);
        let lines = edited_text(alloc, &mut draws, good.as_bytes())?;
        let words = words_of_lines(alloc, &lines_of(alloc, &lines)?)?;
        let mut setting = empty_setting(alloc)?;
        assert!(rt; are_taken_so(alloc, &mut setting, &words)?, "edit {k}");
    }
    Ok(())
}
