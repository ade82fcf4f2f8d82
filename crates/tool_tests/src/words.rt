//! The words of the command line.
use file_tools::{Status, plain_tool};
use std::alloc::{AllocError, Global};
use std::process::Abort;
use std::test::Fail;
use store_io::{MemSink, MemStore};
use tool_words::{Asked, How, read_words};

// The words of a line, each separated from the next by one blank; an empty line has no words.
fn words(alloc: Global, line: &str) -> Result<Vec<String>, AllocError> {
    let mut words = Vec::new(alloc);
    if line.is_empty() {
        return Ok(words);
    }
    for word in line.split(' ') {
        words.push(String::from_str(alloc, word)?)?;
    }
    Ok(words)
}

fn how_text(alloc: Global, how: &How) -> Result<String, AllocError> {
    match how {
        How::Plain => String::from_str(alloc, "plain"),
        How::Threads => String::from_str(alloc, "threads"),
        How::Seed(seed) => format!(in alloc; "seed {seed}"),
    }
}

// What is asked, with one blank between its parts.
fn asked_text(alloc: Global, asked: &Asked) -> Result<String, AllocError> {
    match asked {
        Asked::Split {
            input,
            output,
            p,
            q,
            mb,
            nb,
        } => {
            format!(in alloc;
                "split {} {} {p} {q} {mb} {nb}",
                input.as_str(),
                output.as_str()
            )
        }
        Asked::Join { prefix, output } => {
            format!(in alloc; "join {} {}", prefix.as_str(), output.as_str())
        }
        Asked::Move {
            prefix,
            output,
            p,
            q,
            mb,
            nb,
            how,
        } => {
            let how = how_text(alloc, how)?;
            format!(in alloc;
                "move {} {} {p} {q} {mb} {nb} {how}",
                prefix.as_str(),
                output.as_str()
            )
        }
        Asked::Check { program } => format!(in alloc; "check {}", program.as_str()),
        Asked::Run { program, how } => {
            let how = how_text(alloc, how)?;
            format!(in alloc; "run {} {how}", program.as_str())
        }
        Asked::Load { seed, size } => format!(in alloc; "load {seed} {size}"),
    }
}

// What the words ask for.
fn text_of(alloc: Global, words: &[String]) -> Result<String, AllocError> {
    match read_words(alloc, words)? {
        Some(asked) => asked_text(alloc, &asked),
        None => String::from_str(alloc, "nothing"),
    }
}

// Splits and joins, and what they ask for.
static SPLITS: [(&str, &str); 10] = [
    ("split a.mtx x 1 1 2 2", "split a.mtx x 1 1 2 2"),
    ("split -- a.mtx x 1 1 2 2", "split a.mtx x 1 1 2 2"),
    ("split a.mtx -- x 1 1 2 2", "split a.mtx x 1 1 2 2"),
    ("split a.mtx x 1 1 2 2 --", "split a.mtx x 1 1 2 2"),
    ("split -- a.mtx -- 1 1 2 2", "split a.mtx -- 1 1 2 2"),
    (
        "split -- -a --threads 8 8 1 1",
        "split -a --threads 8 8 1 1",
    ),
    ("split - - 1 64 1 16777216", "split - - 1 64 1 16777216"),
    ("split a x 08 8 00000000000000000002 2", "split a x 8 8 2 2"),
    ("join p o", "join p o"),
    ("join -- p -o", "join p -o"),
];

// Moves, checks and loads.
static MOVES: [(&str, &str); 10] = [
    ("move p o 2 3 4 5", "move p o 2 3 4 5 plain"),
    ("move p o 2 3 4 5 --threads", "move p o 2 3 4 5 threads"),
    ("move --threads p o 2 3 4 5", "move p o 2 3 4 5 threads"),
    ("move p o --seed 5 2 3 4 5", "move p o 2 3 4 5 seed 5"),
    (
        "move p o 2 3 4 5 --seed=18446744073709551615",
        "move p o 2 3 4 5 seed 18446744073709551615",
    ),
    ("check p", "check p"),
    ("check -- --", "check --"),
    ("load 0 1", "load 0 1"),
    (
        "load 18446744073709551615 2000",
        "load 18446744073709551615 2000",
    ),
    ("load 00000000000000000000 1", "load 0 1"),
];

// Runs of programs.
static RUNS: [(&str, &str); 7] = [
    ("run p", "run p plain"),
    ("run p --threads", "run p threads"),
    ("run p --seed 5", "run p seed 5"),
    ("run p --seed=5", "run p seed 5"),
    ("run --seed 1 2", "run 2 seed 1"),
    ("run --seed=1 -- -p", "run -p seed 1"),
    ("run -- --threads", "run --threads plain"),
];

// Splits that aren't in the table: wrong numbers, names or options.
static NO_SPLITS: [&str; 17] = [
    "split a x 1 1 000000000000000000002 2",
    "split a x 8 9 1 1",
    "split a x 0 1 1 1",
    "split a x 1 65 1 1",
    "split a x 1 1 0 1",
    "split a x 1 1 1 16777217",
    "split a x 1 1 +1 1",
    "split a x 1 1 1 -1",
    "split a x 1 1 1 1x",
    "split a x 1 1 2",
    "split a x 1 1 2 2 2",
    "split a  1 1 2 2",
    "split a x  1 2 2",
    "split a x 1 1 2 2 --threads",
    "split a x 1 1 2 2 --seed 1",
    "split --help",
    "split -h",
];

// Runs whose options aren't in the table.
static NO_RUNS: [&str; 22] = [
    "run p --threads=",
    "run p --threads=x",
    "run p --seed=",
    "run p --seed",
    "run p --seed ",
    "run p --seed -5",
    "run p --seed +5",
    "run p --seed -",
    "run p --seed -- 5",
    "run p --seed --threads",
    "run --seed p",
    "run p --seed 1 --threads",
    "run p --threads --seed=1",
    "run p --seed 1 --seed 1",
    "run p --see 1",
    "run p --thread",
    "run p --Threads",
    "run p -t",
    "run p -- --threads",
    "run -p",
    "run ",
    "run p\0q",
];

// First words that name no command.
static NO_COMMANDS: [&str; 13] = [
    "Split a x 1 1 2 2",
    "SPLIT a x 1 1 2 2",
    "spli a x 1 1 2 2",
    "-- split a x 1 1 2 2",
    "--threads run p",
    "--help",
    "--version",
    "help",
    "help split",
    "--",
    "-",
    "",
    "convert p o 1",
];

// Other commands that aren't in the table.
static NO_OTHERS: [&str; 15] = [
    "join p -o",
    "join p",
    "join p o --seed 1",
    "move p o 2 3 4 5 --seed=18446744073709551616",
    "move p o 8 9 4 5",
    "move p o 2 3 4 5 --threads --threads",
    "check --",
    "check",
    "check p --threads",
    "load 18446744073709551616 1",
    "load 99999999999999999999 1",
    "load 0 0",
    "load 0 2001",
    "load 0",
    "load 1 2 --seed 3",
];

// Each line asks for what stands beside it.
fn asks_so(rt: &impl Abort, alloc: Global, cases: &[(&str, &str)]) -> Result<(), Fail> {
    for (line, text) in cases {
        let words = words(alloc, *line)?;
        let found = text_of(alloc, &words)?;
        assert_eq!(rt; found.as_str(), *text, "{line}");
    }
    Ok(())
}

// No line asks for anything.
fn asks_nothing(rt: &impl Abort, alloc: Global, lines: &[&str]) -> Result<(), Fail> {
    for line in lines {
        let words = words(alloc, *line)?;
        let found = text_of(alloc, &words)?;
        assert_eq!(rt; found.as_str(), "nothing", "{line}");
    }
    Ok(())
}

#[test]
fn words_and_what_they_ask_for(rt: HostRuntime) -> Result<(), Fail> {
    let alloc = rt.alloc();
    asks_so(&rt, alloc, &SPLITS)?;
    asks_so(&rt, alloc, &MOVES)?;
    asks_so(&rt, alloc, &RUNS)
}

#[test]
fn words_outside_the_table(rt: HostRuntime) -> Result<(), Fail> {
    let alloc = rt.alloc();
    asks_nothing(&rt, alloc, &NO_SPLITS)?;
    asks_nothing(&rt, alloc, &NO_RUNS)?;
    asks_nothing(&rt, alloc, &NO_COMMANDS)?;
    asks_nothing(&rt, alloc, &NO_OTHERS)
}

// `check` and a name of so many bytes.
fn check_of(alloc: Global, bytes: u32) -> Result<Vec<String>, AllocError> {
    let mut name = String::new(alloc);
    for _ in 0..bytes {
        name.push('n')?;
    }
    let mut words = words(alloc, "check")?;
    words.push(name)?;
    Ok(words)
}

#[test]
fn long_names(rt: HostRuntime) -> Result<(), Fail> {
    let alloc = rt.alloc();
    let longest = check_of(alloc, 1024)?;
    let found = text_of(alloc, &longest)?;
    assert_eq!(rt; found.len(), 1030);
    let too_long = check_of(alloc, 1025)?;
    let found = text_of(alloc, &too_long)?;
    assert_eq!(rt; found.as_str(), "nothing");
    Ok(())
}

const MATRIX: &[u8; 60] = b"%%MatrixMarket matrix array integer general\n3 2\n1\n2\n3\n4\n5\n6\n";

const PIECE: &[u8; 88] =
    b"%%MatrixMarket matrix array integer general\n%DESC 1 1 0 0 3 2 2 2 0 0 3\n3 2\n1\n2\n3\n4\n5\n6\n";

// The words of the line split the matrix on one process.
fn splits(rt: &impl Abort, alloc: Global, line: &str) -> Result<(), Fail> {
    let mut store = MemStore::new(alloc, 4096, 8)?;
    let mut out = MemSink::new(alloc, 16)?;
    let mut err = MemSink::new(alloc, 256)?;
    assert!(rt; store.put("a.mtx", MATRIX));
    let words = words(alloc, line)?;
    let status = plain_tool(alloc, &words, &mut store, &mut out, &mut err);
    assert_eq!(rt; status, Status::Done, "{line}");
    assert_eq!(rt; store.file("x.0.0"), Some(PIECE.as_slice()));
    assert!(rt; err.bytes().is_empty());
    Ok(())
}

#[test]
fn dashes_through_the_tool(rt: HostRuntime) -> Result<(), Fail> {
    let alloc = rt.alloc();
    splits(&rt, alloc, "split a.mtx x 1 1 2 2")?;
    splits(&rt, alloc, "split -- a.mtx x 1 1 2 2")
}

#[test]
fn no_help(rt: HostRuntime) -> Result<(), Fail> {
    let alloc = rt.alloc();
    let mut store = MemStore::new(alloc, 4096, 8)?;
    let mut out = MemSink::new(alloc, 16)?;
    let mut err = MemSink::new(alloc, 256)?;
    let words = words(alloc, "split --help")?;
    let status = plain_tool(alloc, &words, &mut store, &mut out, &mut err);
    assert_eq!(rt; status.code(), 2);
    assert_eq!(rt;
        err.bytes(),
        b"usage: gridtool split IN OUT P Q MB NB\n       gridtool join PREFIX OUT\n       gridtool move PREFIX OUT P Q MB NB [--threads | --seed S]\n       gridtool check PROGRAM\n       gridtool run PROGRAM [--threads | --seed S]\n       gridtool load SEED SIZE\n".as_slice()
    );
    assert!(rt; out.bytes().is_empty());
    Ok(())
}
