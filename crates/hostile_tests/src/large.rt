//! Sizes that need much memory, which is there: no clause rules out a body that answers out of memory above some size.
use crate::running::does;
use crate::setting::Setting;
use crate::texts::text;
use std::alloc::{AllocError, Global};
use std::test::Fail;

// A file of this many lines of one digit after its head.
fn sevens(alloc: Global, head: &str, count: u32) -> Result<String, AllocError> {
    let mut text = text(alloc, head)?;
    for _ in 0..count {
        text.push_str("7\n")?;
    }
    Ok(text)
}

#[test]
fn arrays_of_more_than_two_to_the_24_words(rt: HostRuntime) -> Result<(), Fail> {
    let alloc = rt.alloc();
    let program =
        "RANKS 1/GRID w R 1 1/ARRAY a w 4097 4097 64 64 0 0/ARRAY b w 2 2 1 1 0 0/FILL a 1 1 10000 0/GEMR2D 2 2 a 4096 4096 b 1 1 w/PRINT b/";
    let whole = sevens(alloc, "B/4097 4097/", 4097 * 4097)?;
    let mut setting = Setting::new(alloc, 140_000_000)?;
    assert!(rt; setting.store.put("m", whole.as_bytes()));
    assert!(rt; setting.put(alloc, "p", program)?);
    does(
        &rt,
        alloc,
        &mut setting,
        &[
            ("check p", "ranks 1/operations 1/messages 0/words 16785413/"),
            ("run p", "b 2 2/40954096 40964096/40954097 40964097/"),
            ("split m x 1 1 4097 4097", ""),
            ("move x y 1 1 64 64", "meets 4225 messages 0 copies 1/"),
            ("join y n", ""),
        ],
    )?;
    assert!(rt; setting.holds("n", whole.as_bytes()));
    Ok(())
}

// A program of 2,789 lines and so many SEND lines, which take one operation each. With 30 of them it has 2^20 operations.
fn full_program(alloc: Global, sends: usize) -> Result<String, AllocError> {
    let sums = "SUM w A H -1 0 v 1 1 1 1\n".repeat(alloc, 2759)?;
    let sends = "SEND w 0 0 v 1 1 1 1 0 0\n".repeat(alloc, sends)?;
    format!(in alloc;
        "RANKS 64\nGRID w R 8 8\nMATRIX v 1 1\nMATRIX u 1 1\nFILL u 0 0 0 1\n{sums}BCAST w A H 0 1 u 1 1 1 1\n{sends}PRINT u 63\n"
    )
}

#[test]
fn a_program_of_most_operations(rt: HostRuntime) -> Result<(), Fail> {
    let alloc = rt.alloc();
    let full = full_program(alloc, 30)?;
    let past = full_program(alloc, 31)?;
    let mut setting = Setting::new(alloc, 300_000)?;
    assert!(rt; setting.store.put("p", full.as_bytes()) && setting.store.put("q", past.as_bytes()));
    let numbers = "ranks 64/operations 1048576/messages 347727/words 347855/";
    does(
        &rt,
        alloc,
        &mut setting,
        &[("check p", numbers), ("run p", "u rank 63 1 1/1/")],
    )?;
    for line in ["check q", "run q"] {
        setting.clear_streams(alloc)?;
        assert_eq!(rt; setting.run(alloc, line)?, 1, "{line}");
        assert!(rt;
            setting.told(alloc, "q: line 2796: too many operations")?,
            "{line}"
        );
    }
    Ok(())
}
