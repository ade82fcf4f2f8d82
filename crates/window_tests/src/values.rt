//! Values of every length, cut by the edge of the window at each of their bytes.
use mm_text::read_matrix;
use std::alloc::{AllocError, Global};
use std::test::Fail;
use store_io::MemStore;

const BANNER: &str = "%%MatrixMarket matrix array integer general\n";

// The lines of eight bytes that stand before the value.
const LINES: usize = 8180;

static VALUES: [(&str, i32); 34] = [
    ("0", 0),
    ("7", 7),
    ("-7", -7),
    ("+7", 7),
    ("42", 42),
    ("-42", -42),
    ("+42", 42),
    ("007", 7),
    ("365", 365),
    ("-365", -365),
    ("9876", 9876),
    ("-9876", -9876),
    ("+9876", 9876),
    ("54321", 54_321),
    ("-54321", -54_321),
    ("123456", 123_456),
    ("-123456", -123_456),
    ("7654321", 7_654_321),
    ("-7654321", -7_654_321),
    ("12345678", 12_345_678),
    ("-12345678", -12_345_678),
    ("+12345678", 12_345_678),
    ("00000008", 8),
    ("987654321", 987_654_321),
    ("-987654321", -987_654_321),
    ("000000009", 9),
    ("1234567890", 1_234_567_890),
    ("-1234567890", -1_234_567_890),
    ("+2147483647", 2_147_483_647),
    ("2147483647", 2_147_483_647),
    ("-2147483647", -2_147_483_647),
    ("-2147483648", -2_147_483_648),
    ("0000000010", 10),
    ("-00000000011", -11),
];

// Whether the words are those of the lines, the value, and one line more.
fn are_read(words: &[i32], value: i32) -> bool {
    for (i, word) in words.iter().enumerate() {
        if *word != if i == LINES { value } else { 1_234_567 } {
            return false;
        }
    }
    words.len() == LINES + 2
}

// Whether the value is read where the window's edge, at byte 65,536, comes so many bytes after its first one.
fn is_read_cut(
    alloc: Global,
    before: &str,
    text: &str,
    value: i32,
    cut: usize,
) -> Result<bool, AllocError> {
    let filler = "x".repeat(alloc, 43usize.saturating_sub(cut))?;
    let file = format!(in alloc; "{BANNER}%{filler}\n8182 1\n{before}{text}\n1234567\n")?;
    let mut store = MemStore::new(alloc, 80_000, 1)?;
    let fits = store.put("f", file.as_bytes());
    match read_matrix(alloc, &mut store, "f") {
        Ok(whole) => Ok(fits && are_read(&whole.words, value)),
        Err(_) => Ok(false),
    }
}

#[test]
fn values_cut_by_the_window(rt: HostRuntime) -> Result<(), Fail> {
    let alloc = rt.alloc();
    let before = "1234567\n".repeat(alloc, LINES)?;
    for (text, value) in VALUES {
        for cut in 0..14usize {
            let read = is_read_cut(alloc, before.as_str(), text, value, cut)?;
            assert!(rt; read, "{text} cut at {cut}");
        }
    }
    Ok(())
}
