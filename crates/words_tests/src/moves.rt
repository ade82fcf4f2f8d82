//! Words of selected elements moved within a rank and between ranks.

use crate::checks::are_moved;
use crate::trial::{array_of, run, staged, words_of};
use msg_core::Stage;
use pack_words::{
    Cut, Diag, LocalArray, RankMem, RankOp, Region, Regions, Shape, Span, Uplo, count,
};
use std::alloc::Global;
use std::test::Fail;

// The three forms of a list of regions.
#[derive(Clone, Copy, Debug)]
enum Form {
    One,
    Listed,
    Crossed,
}

// The region of these rows and columns, at the same places of the array and of the cut.
fn region(i: u32, rows: u32, j: u32, cols: u32) -> Region {
    Region {
        li: i,
        lj: j,
        rows,
        cols,
        i0: i,
        j0: j,
    }
}

fn span(first: u32, len: u32) -> Span {
    Span {
        first,
        place: first,
        len,
    }
}

// The whole of 3 by 2 elements: as one region, as row 0 above rows 1 and 2, or as those of these two row runs by two columns
// that the cut touches.
fn whole(alloc: Global, form: Form, cut: &Cut) -> Option<Regions> {
    match form {
        Form::One => Some(Regions::one(region(0, 3, 0, 2))),
        Form::Listed => {
            let list = [region(0, 1, 0, 2), region(1, 2, 0, 2)];
            Some(Regions::new(Vec::from_array(alloc, list).ok()?))
        }
        Form::Crossed => {
            let rows = Vec::from_array(alloc, [span(0, 1), span(1, 2)]).ok()?;
            let cols = Vec::from_array(alloc, [span(0, 1), span(1, 1)]).ok()?;
            if rows.len() > 2 || cols.len() > 2 {
                return None;
            }
            Regions::crossed(alloc, rows, cols, cut).ok()
        }
    }
}

// An array of 3 by 2 words and one of zeros.
fn two(alloc: Global) -> Option<Vec<LocalArray>> {
    let words = array_of(alloc, 3, &[1, 2, 3, 11, 12, 13])?;
    let zeros = array_of(alloc, 3, &[0, 0, 0, 0, 0, 0])?;
    Vec::from_array(alloc, [words, zeros]).ok()
}

// Rank 0 copies what the cut selects of its first array into its second, and sends it to rank 1, which receives it into its second.
fn moved(alloc: Global, cut: Cut, form: Form) -> Option<Stage<RankMem>> {
    let regions = whole(alloc, form, &cut)?;
    if !are_moved(&regions, &cut) {
        return None;
    }
    let (from, to) = (whole(alloc, form, &cut)?, whole(alloc, form, &cut)?);
    let copy = RankOp::copy(alloc, 0, from, 1, to, cut).ok()?;
    let put = RankOp::Put {
        to: 1,
        array: 0,
        regions: regions.counted(&cut),
        cut,
    };
    let get = RankOp::Get {
        from: 0,
        array: 1,
        regions: whole(alloc, form, &cut)?,
        cut,
    };
    let ops = Vec::from_array(alloc, [(0, copy), (0, put), (1, get)]).ok()?;
    staged(alloc, two(alloc)?, two(alloc)?, ops)
}

#[test]
fn trapezoids_move(rt: HostRuntime) -> Result<(), Fail> {
    let alloc = rt.alloc();
    let whole = [1, 2, 3, 11, 12, 13];
    let rows = [
        (Shape::Ge, whole),
        (Shape::Tr(Uplo::Upper, Diag::N), [1, 2, 0, 11, 12, 13]),
        (Shape::Tr(Uplo::Upper, Diag::U), [1, 0, 0, 11, 12, 0]),
    ];
    for form in [Form::One, Form::Listed, Form::Crossed] {
        for (shape, want) in rows {
            for seed in [None, Some(1)] {
                let cut = Cut { shape, m: 3, n: 2 };
                let after = run(moved(alloc, cut, form).ok_or("a stage")?, seed);
                for (rank, array, want) in [
                    (0, 0, whole),
                    (0, 1, want),
                    (1, 0, whole),
                    (1, 1, want),
                ] {
                    let words = words_of(alloc, &after, rank, array).ok_or("words")?;
                    assert_eq!(rt;
                        words.as_slice(),
                        want.as_slice(),
                        "{form:?}, rank {rank}, array {array}"
                    );
                }
            }
        }
    }
    Ok(())
}

#[test]
fn counts(rt: HostRuntime) -> Result<(), Fail> {
    // 2 by 3 elements below the diagonal, and none of one element above it
    let rows = [
        (Shape::Tr(Uplo::Lower, Diag::N), 2, 3, 5),
        (Shape::Tr(Uplo::Upper, Diag::U), 1, 1, 0),
        (Shape::Ge, 2, 3, 6),
    ];
    for (shape, m, n, want) in rows {
        let cut = Cut { shape, m, n };
        let list = [region(0, m, 0, n)];
        assert!(rt; are_moved(&Regions::one(list[0]), &cut));
        assert_eq!(rt; count(&list, &cut), want);
    }
    Ok(())
}

#[test]
fn ranks_without_arrays(rt: HostRuntime) -> Result<(), Fail> {
    let alloc = rt.alloc();
    let ops = [
        (
            0,
            RankOp::Pulse {
                peer: 1,
                sends: true,
            },
        ),
        (
            1,
            RankOp::Pulse {
                peer: 0,
                sends: false,
            },
        ),
    ];
    let ops = Vec::from_array(alloc, ops)?;
    let stage = staged(alloc, Vec::new(alloc), Vec::new(alloc), ops).ok_or("a stage")?;
    let after = run(stage, None);
    assert_eq!(rt; after.len(), 2);
    for node in after.iter() {
        assert!(rt; node.array(0).is_none());
    }
    Ok(())
}
