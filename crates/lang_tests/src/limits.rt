//! Texts at a limit and one past it.
use crate::reading::{fault_of, lines_of};
use grid_lang::LangFault;
use std::test::Fail;

#[test]
fn lines_of_a_program(rt: HostRuntime) -> Result<(), Fail> {
    let alloc = rt.alloc();
    let fills = "FILL v 1 10 100 1000 # no comment here\n";
    let kept = "FILL v 1 10 100 1000\n";
    let body = kept.repeat(alloc, 4094)?;
    let most = format!(in alloc; "RANKS 1\nMATRIX v 1 1\n{body}")?;
    assert_eq!(rt; lines_of(alloc, most.as_bytes()), Some(4096));
    for more in ["\n", "#", " ", "FILL v 1 1 1 1", "\u{1}"] {
        let past = format!(in alloc; "{most}{more}")?;
        assert_eq!(rt;
            fault_of(alloc, past.as_bytes()),
            Some((4097, LangFault::Limit))
        );
    }
    let other = format!(in alloc; "RANKS 1\nMATRIX v 1 1\n{fills}")?;
    assert_eq!(rt;
        fault_of(alloc, other.as_bytes()),
        Some((3, LangFault::Words))
    );
    Ok(())
}

#[test]
fn bytes_of_a_line(rt: HostRuntime) -> Result<(), Fail> {
    let alloc = rt.alloc();
    // sixteen times sixty-four
    let wide = "                                                                ".repeat(
        alloc, 16,
    )?;
    let Some(shorter) = wide.as_str().get(8..) else {
        assert!(rt; false);
        return Ok(());
    };
    let Some(comment) = wide.as_str().get(1..) else {
        assert!(rt; false);
        return Ok(());
    };
    let fits = format!(in alloc; "{shorter}RANKS 1\r\n{shorter} RANKS 1\n")?;
    assert_eq!(rt;
        fault_of(alloc, fits.as_bytes()),
        Some((2, LangFault::Order))
    );
    let blank = format!(in alloc; "RANKS 1\n{wide}\n#{comment}\n")?;
    assert_eq!(rt; lines_of(alloc, blank.as_bytes()), Some(1));
    let long = format!(in alloc; "RANKS 1\n{wide} \n")?;
    assert_eq!(rt;
        fault_of(alloc, long.as_bytes()),
        Some((2, LangFault::Limit))
    );
    let long = format!(in alloc; "RANKS 1\n#{wide}\n")?;
    assert_eq!(rt;
        fault_of(alloc, long.as_bytes()),
        Some((2, LangFault::Limit))
    );
    Ok(())
}

#[test]
fn grids_and_arrays(rt: HostRuntime) -> Result<(), Fail> {
    let alloc = rt.alloc();
    let mut text = String::from_str(alloc, "RANKS 1\n")?;
    for k in 0..8u32 {
        text = format!(in alloc; "{text}GRID g{k} R 1 1\nMAP h{k} 1 1 0\n")?;
    }
    assert_eq!(rt; lines_of(alloc, text.as_bytes()), Some(17));
    for more in ["GRID g R 1 1\n", "MAP g 1 1 0\n"] {
        let past = format!(in alloc; "{text}{more}")?;
        assert_eq!(rt;
            fault_of(alloc, past.as_bytes()),
            Some((18, LangFault::Limit))
        );
    }
    for k in 0..32u32 {
        text = format!(in alloc; "{text}ARRAY a{k} g0 1 1 1 1 0 0\nMATRIX m{k} 1 1\n")?;
    }
    assert_eq!(rt; lines_of(alloc, text.as_bytes()), Some(81));
    for more in ["ARRAY a g0 1 1 1 1 0 0\n", "MATRIX m 1 1\n"] {
        let past = format!(in alloc; "{text}{more}")?;
        assert_eq!(rt;
            fault_of(alloc, past.as_bytes()),
            Some((82, LangFault::Limit))
        );
    }
    Ok(())
}

#[test]
fn names_and_maps(rt: HostRuntime) -> Result<(), Fail> {
    let alloc = rt.alloc();
    // thirty-two characters
    let name = "abcdefghijklmnopqrstuvwxyz_12345";
    let fits = format!(in alloc; "RANKS 1\nGRID {name} R 1 1\nBARRIER {name} A\n")?;
    assert_eq!(rt; lines_of(alloc, fits.as_bytes()), Some(3));
    let past = format!(in alloc; "RANKS 1\nGRID {name}6 R 1 1\n")?;
    assert_eq!(rt;
        fault_of(alloc, past.as_bytes()),
        Some((2, LangFault::Name))
    );
    let mut ranks = String::new(alloc);
    for rank in 0..64u32 {
        ranks = format!(in alloc; "{ranks} {rank}")?;
    }
    let fits = format!(in alloc; "RANKS 64\nMAP g 8 8{ranks}\n")?;
    assert_eq!(rt; lines_of(alloc, fits.as_bytes()), Some(2));
    let past = format!(in alloc; "RANKS 64\nMAP g 8 8{ranks} 0\n")?;
    assert_eq!(rt;
        fault_of(alloc, past.as_bytes()),
        Some((2, LangFault::Words))
    );
    let wrong = format!(in alloc; "RANKS 64\nMAP g 16 8{ranks}\n")?;
    assert_eq!(rt;
        fault_of(alloc, wrong.as_bytes()),
        Some((2, LangFault::Words))
    );
    Ok(())
}
