//! Matrix files: what is read of each, or which line is refused and why.
use crate::drops::Drops;
use mm_text::{Cells, LoadErr, MmErr, MmFault, read_matrix};
use std::alloc::{AllocError, Global};
use std::test::Fail;
use store_io::MemStore;

const BANNER: &str = "%%MatrixMarket matrix array integer general\n";

// A store that holds these texts, one after the other, as the file `f`.
fn store_of(alloc: Global, parts: &[&str]) -> Result<Option<MemStore>, AllocError> {
    let mut text = String::new(alloc);
    for part in parts {
        text.push_str(part)?;
    }
    let mut store = MemStore::new(alloc, 8192, 2)?;
    if store.put("f", text.as_bytes()) {
        Ok(Some(store))
    } else {
        Ok(None)
    }
}

// Whether this fault stands in this line, read at once and byte by byte.
fn is_refused(alloc: Global, parts: &[&str], line: u32, what: MmFault) -> Result<bool, AllocError> {
    let wanted = Some(LoadErr::Mm(MmErr { line, what }));
    let Some(mut store) = store_of(alloc, parts)? else {
        return Ok(false);
    };
    let Some(inner) = store_of(alloc, parts)? else {
        return Ok(false);
    };
    let mut drops = Drops { inner };
    Ok(
        read_matrix(alloc, &mut store, "f").err() == wanted
            && read_matrix(alloc, &mut drops, "f").err() == wanted,
    )
}

// Whether the file is read as these words in so many rows and columns, at once and byte by byte.
fn is_read(
    alloc: Global,
    parts: &[&str],
    rows: u32,
    columns: u32,
    words: &[i32],
) -> Result<bool, AllocError> {
    let Some(mut store) = store_of(alloc, parts)? else {
        return Ok(false);
    };
    let Some(inner) = store_of(alloc, parts)? else {
        return Ok(false);
    };
    let mut drops = Drops { inner };
    let (Ok(one), Ok(two)) = (
        read_matrix(alloc, &mut store, "f"),
        read_matrix(alloc, &mut drops, "f"),
    ) else {
        return Ok(false);
    };
    Ok(
        one.rows() == rows
            && one.columns() == columns
            && one.words.as_slice() == words
            && two.words.as_slice() == words,
    )
}

#[test]
fn files_that_are_read(rt: HostRuntime) -> Result<(), Fail> {
    let alloc = rt.alloc();
    let cases: [(&str, &str, u32, u32, &[i32]); 12] = [
        (BANNER, "3 2\n1\n2\n3\n4\n5\n6\n", 3, 2, &[1, 2, 3, 4, 5, 6]),
        (BANNER, "3 2\n1\n2\n3\n4\n5\n6", 3, 2, &[1, 2, 3, 4, 5, 6]),
        (
            "%%MatrixMarket matrix array integer general\r\n",
            "3 2\r\n1\r\n2\r\n3\r\n4\r\n5\r\n6\r\n",
            3,
            2,
            &[1, 2, 3, 4, 5, 6],
        ),
        (BANNER, "0 5\n", 0, 5, &[]),
        (
            "%%MatrixMarket MATRIX Array Integer Symmetric\n% note\n",
            "2 2\n+1\n2\n3\n",
            2,
            2,
            &[1, 2, 2, 3],
        ),
        (
            "%%MatrixMarket matrix array integer skew-symmetric\n",
            "2 2\n5\n",
            2,
            2,
            &[0, 5, -5, 0],
        ),
        (
            "%%MatrixMarket matrix array integer symmetric\n",
            "3 3\n1\n2\n3\n4\n5\n6\n",
            3,
            3,
            &[1, 2, 3, 2, 4, 5, 3, 5, 6],
        ),
        (
            "%%MatrixMarket matrix array integer skew-symmetric\n",
            "3 3\n1\n2\n3\n",
            3,
            3,
            &[0, 1, 2, -1, 0, 3, -2, -3, 0],
        ),
        (
            BANNER,
            "1 4\n-2147483648\n2147483647\n-0\n+0\n",
            1,
            4,
            &[-2147483648, 2147483647, 0, 0],
        ),
        (
            "%%MatrixMarket  matrix\tarray integer general \n%\n\n% \u{e9}\n \t\n",
            "\t+2 \t001 \n\n 0007\n\n-00008 \n \n\n",
            2,
            1,
            &[7, -8],
        ),
        (
            "%%MatrixMarket matrix array integer skew-symmetric\n",
            "1 1\n",
            1,
            1,
            &[0],
        ),
        (
            "%%MatrixMarket matrix array integer symmetric\n",
            "0 0\n",
            0,
            0,
            &[],
        ),
    ];
    for (head, body, rows, columns, words) in cases {
        assert!(rt;
            is_read(alloc, &[head, body], rows, columns, words)?,
            "{head}{body}"
        );
    }
    Ok(())
}

#[test]
fn files_that_are_refused(rt: HostRuntime) -> Result<(), Fail> {
    let alloc = rt.alloc();
    let skew = "%%MatrixMarket matrix array integer skew-symmetric\n";
    let cases = [
        ("", "", 1, MmFault::Banner),
        ("\n", "", 1, MmFault::Banner),
        (" ", BANNER, 1, MmFault::Banner),
        (
            "%%matrixmarket matrix array integer general\n",
            "1 1\n7\n",
            1,
            MmFault::Banner,
        ),
        (
            "%%MatrixMarket matrix array integer\n",
            "1 1\n7\n",
            1,
            MmFault::Banner,
        ),
        (
            "%%MatrixMarket matrix array integer general x\n",
            "1 1\n7\n",
            1,
            MmFault::Banner,
        ),
        (
            "%%MatrixMarket vector array integer general\n",
            "1 1\n7\n",
            1,
            MmFault::Banner,
        ),
        (
            "%%MatrixMarket matrix coordinate integer general\n",
            "",
            1,
            MmFault::Field,
        ),
        (
            "%%MatrixMarket matrix array real general\n",
            "",
            1,
            MmFault::Field,
        ),
        (
            "%%MatrixMarket matrix array integer hermitian\n",
            "",
            1,
            MmFault::Symmetry,
        ),
        (
            "%%MatrixMarket matrix array integer \u{e9}\n",
            "",
            1,
            MmFault::NotText,
        ),
        ("%%MatrixMarket\u{1} matrix\n", "", 1, MmFault::NotText),
        (BANNER, "", 2, MmFault::Size),
        (BANNER, "% only\n", 3, MmFault::Size),
        (BANNER, "16777216 5\n", 2, MmFault::Size),
        (BANNER, "16777217 0\n", 2, MmFault::Size),
        (BANNER, "-1 2\n", 2, MmFault::Size),
        (BANNER, "2\n", 2, MmFault::Size),
        (BANNER, "2 2 2\n", 2, MmFault::Size),
        (BANNER, "99999999999999999999999 0\n", 2, MmFault::Size),
        (
            "%%MatrixMarket matrix array integer symmetric\n",
            "2 3\n",
            2,
            MmFault::Size,
        ),
        (BANNER, "16777216 4\n", 3, MmFault::TooFew(0, 67108864)),
        (BANNER, "3 2\n1\n2\n3\n4\n5\n", 8, MmFault::TooFew(5, 6)),
        (BANNER, "3 2\n1\n2\n3\n4\n5\n6\n7\n", 9, MmFault::TooMany(6)),
        (BANNER, "0 5\n1\n", 3, MmFault::TooMany(0)),
        (BANNER, "2147483648 1\n1\n", 2, MmFault::Size),
        (BANNER, "3 2\n2147483648\n", 3, MmFault::Range),
        (BANNER, "3 2\n-2147483649\n", 3, MmFault::Range),
        (
            BANNER,
            "1 1\n99999999999999999999999999\n",
            3,
            MmFault::Range,
        ),
        (skew, "2 2\n-2147483648\n", 3, MmFault::Range),
        (skew, "3 3\n1\n2\n3\n4\n", 6, MmFault::TooMany(3)),
        (BANNER, "1 1\n1 2\n", 3, MmFault::Value),
        (BANNER, "1 1\n1.0\n", 3, MmFault::Value),
        (BANNER, "1 1\n+\n", 3, MmFault::Value),
        (BANNER, "1 1\n+-1\n", 3, MmFault::Value),
        (BANNER, "1 1\n% no comment\n1\n", 3, MmFault::Value),
        (BANNER, "1 1\n1\n% no comment\n", 4, MmFault::TooMany(1)),
        (BANNER, "1 1\n1\r\r\n", 3, MmFault::NotText),
        (BANNER, "1 1\n\u{7f}\n", 3, MmFault::NotText),
        (BANNER, "1 1\n1\n\u{b}\n", 4, MmFault::NotText),
    ];
    for (head, body, line, what) in cases {
        assert!(rt;
            is_refused(alloc, &[head, body], line, what)?,
            "{head}{body}"
        );
    }
    Ok(())
}

#[test]
fn lines_of_1024_and_1025_bytes(rt: HostRuntime) -> Result<(), Fail> {
    let alloc = rt.alloc();
    // sixteen times sixty-four
    let wide = "                                                                ".repeat(
        alloc, 16,
    )?;
    let zeros = "0000000000000000000000000000000000000000000000000000000000000000".repeat(
        alloc, 16,
    )?;
    let (wide, zeros) = (wide.as_str(), zeros.as_str());
    let (Some(blanks), Some(digits), Some(rest)) = (wide.get(43..), zeros.get(1..), wide.get(1..))
    else {
        return Ok(assert!(rt; false));
    };
    let banner = "%%MatrixMarket matrix array integer general";
    assert!(rt; is_read(alloc, &[banner, blanks, "\n1 1\n5\n"], 1, 1, &[5])?);
    assert!(rt;
        is_refused(
            alloc,
            &[banner, blanks, " \n1 1\n5\n"],
            1,
            MmFault::LineLong
        )?
    );
    assert!(rt; is_read(alloc, &[BANNER, "%", rest, "\n1 1\n5\n"], 1, 1, &[5])?);
    assert!(rt; is_read(alloc, &[BANNER, "%", rest, "\r\n1 1\n5\n"], 1, 1, &[5])?);
    assert!(rt;
        is_refused(
            alloc,
            &[BANNER, "%", wide, "\n1 1\n5\n"],
            2,
            MmFault::LineLong
        )?
    );
    assert!(rt; is_read(alloc, &[BANNER, "1 1\n", digits, "7\n"], 1, 1, &[7])?);
    assert!(rt;
        is_refused(
            alloc,
            &[BANNER, "1 1\n", zeros, "7\n"],
            3,
            MmFault::LineLong
        )?
    );
    assert!(rt; is_refused(alloc, &[BANNER, "1 1\n1", wide, "\n"], 3, MmFault::LineLong)?);
    Ok(())
}
