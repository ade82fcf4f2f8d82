//! The command `move` on files in memory.
use file_tools::{Status, plain_tool};
use itoa::Buffer;
use std::alloc::{AllocError, Global};
use std::test::Fail;
use store_io::{MemSink, MemStore};
use tool_tests::running::{holds, words};

const ROW_0: &[u8; 82] =
    b"%%MatrixMarket matrix array integer general\n%DESC 2 1 0 0 4 1 1 1 0 0 2\n2 1\n10\n30\n";

const ROW_1: &[u8; 82] =
    b"%%MatrixMarket matrix array integer general\n%DESC 2 1 1 0 4 1 1 1 0 0 2\n2 1\n20\n40\n";

const BLOCK_0: &[u8; 82] =
    b"%%MatrixMarket matrix array integer general\n%DESC 2 1 0 0 4 1 2 1 0 0 2\n2 1\n10\n20\n";

const BLOCK_1: &[u8; 82] =
    b"%%MatrixMarket matrix array integer general\n%DESC 2 1 1 0 4 1 2 1 0 0 2\n2 1\n30\n40\n";

// A store that holds the pieces of a 4 by 1 matrix, dealt out row by row over two processes.
fn rows(alloc: Global) -> Result<MemStore, AllocError> {
    let mut store = MemStore::new(alloc, 4096, 8)?;
    let _held = store.put("s.0.0", ROW_0) && store.put("s.1.0", ROW_1);
    Ok(store)
}

// A run of the tool on the words of a line.
fn run(
    alloc: Global,
    store: &mut MemStore,
    out: &mut MemSink,
    err: &mut MemSink,
    line: &str,
) -> Result<Status, AllocError> {
    let words = words(alloc, line)?;
    Ok(plain_tool(alloc, &words, store, out, err))
}

#[test]
fn rows_moved_to_blocks_of_two(rt: HostRuntime) -> Result<(), Fail> {
    let alloc = rt.alloc();
    let lines = [
        "move s t 2 1 2 1",
        "move s t 2 1 2 1 --seed 1",
        "move --threads s t 2 1 2 1",
    ];
    for line in lines {
        let mut store = rows(alloc)?;
        let mut out = MemSink::new(alloc, 64)?;
        let mut err = MemSink::new(alloc, 256)?;
        let status = run(alloc, &mut store, &mut out, &mut err, line)?;
        assert_eq!(rt; status, Status::Done, "{line}");
        assert!(rt; holds(&store, "t.0.0", BLOCK_0) && holds(&store, "t.1.0", BLOCK_1));
        assert!(rt; holds(&store, "s.0.0", ROW_0) && holds(&store, "s.1.0", ROW_1));
        assert_eq!(rt; out.bytes(), b"meets 4 messages 2 copies 2\n".as_slice());
        assert!(rt; err.bytes().is_empty());
    }
    Ok(())
}

#[test]
fn moved_pieces_in_the_place_of_the_pieces(rt: HostRuntime) -> Result<(), Fail> {
    let alloc = rt.alloc();
    let mut store = rows(alloc)?;
    let mut out = MemSink::new(alloc, 64)?;
    let mut err = MemSink::new(alloc, 256)?;
    // all is read before the first piece is written
    let status = run(alloc, &mut store, &mut out, &mut err, "move s s 2 1 2 1")?;
    assert_eq!(rt; status, Status::Done);
    assert!(rt; holds(&store, "s.0.0", BLOCK_0) && holds(&store, "s.1.0", BLOCK_1));
    Ok(())
}

#[test]
fn an_output_without_room_for_the_numbers(rt: HostRuntime) -> Result<(), Fail> {
    let alloc = rt.alloc();
    for room in [0, 5, 6, 27] {
        let mut store = rows(alloc)?;
        let mut out = MemSink::new(alloc, room)?;
        let mut err = MemSink::new(alloc, 256)?;
        let status = run(alloc, &mut store, &mut out, &mut err, "move s t 2 1 2 1")?;
        assert_eq!(rt; status, Status::Sink);
        assert_eq!(rt; status.code(), 5);
        assert!(rt; holds(&store, "t.0.0", BLOCK_0) && holds(&store, "t.1.0", BLOCK_1));
        assert!(rt; b"meets 4 messages 2 copies 2\n".starts_with(out.bytes()));
        assert_eq!(rt; err.bytes(), b"gridtool: output fault\n".as_slice());
    }
    Ok(())
}

// The piece of a matrix without rows and with so many columns, on one process.
fn no_rows(alloc: Global) -> Result<String, AllocError> {
    let mut text = String::from_str(
        alloc,
        "%%MatrixMarket matrix array integer general\n%DESC 1 1 0 0 0 1032700 1 1 0 0 1\n1 1032700\n",
    )?;
    for _ in 0..1_032_700 {
        text.push_str("0\n")?;
    }
    Ok(text)
}

#[test]
fn a_move_above_the_limit(rt: HostRuntime) -> Result<(), Fail> {
    let alloc = rt.alloc();
    let mut store = MemStore::new(alloc, 2_200_000, 4)?;
    let mut out = MemSink::new(alloc, 64)?;
    let mut err = MemSink::new(alloc, 256)?;
    let text = no_rows(alloc)?;
    assert!(rt; store.put("s.0.0", text.as_bytes()));
    // 65 arrays of one row
    let status = run(alloc, &mut store, &mut out, &mut err, "move s t 64 1 1 1")?;
    assert_eq!(rt; status, Status::Refused);
    assert_eq!(rt;
        err.bytes(),
        b"gridtool: too many words: 67125500\n".as_slice()
    );
    assert!(rt; store.file("t.0.0").is_none() && out.bytes().is_empty());
    Ok(())
}

// The text of a matrix of 1,000 by 1,000 elements, among them negative ones.
fn thousand(alloc: Global) -> Result<String, AllocError> {
    let mut text = String::from_str(
        alloc,
        "%%MatrixMarket matrix array integer general\n1000 1000\n",
    )?;
    let mut word = 1u32;
    let mut digits = Buffer::new();
    for _ in 0..1_000_000 {
        word = word.wrapping_mul(1_664_525).wrapping_add(1_013_904_223);
        let value = (word / 4096) as i32 - 524_288;
        text.push_str(digits.format(value))?;
        text.push_str("\n")?;
    }
    Ok(text)
}

#[test]
fn a_thousand_rows_split_moved_and_joined(rt: HostRuntime) -> Result<(), Fail> {
    let alloc = rt.alloc();
    let text = thousand(alloc)?;
    let mut store = MemStore::new(alloc, 40_000_000, 64)?;
    let mut out = MemSink::new(alloc, 64)?;
    let mut err = MemSink::new(alloc, 256)?;
    assert!(rt; store.put("m", text.as_bytes()));
    let lines = ["split m x 4 4 64 64", "move x y 2 8 32 32", "join y n"];
    for line in lines {
        let status = run(alloc, &mut store, &mut out, &mut err, line)?;
        assert_eq!(rt; status, Status::Done, "{line}");
    }
    assert!(rt; holds(&store, "n", text.as_bytes()));
    assert_eq!(rt;
        out.bytes(),
        b"meets 1024 messages 60 copies 4\n".as_slice()
    );
    Ok(())
}
