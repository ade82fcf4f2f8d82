//! Local arrays at worked sizes, with each refusal.
ghost use Rattle.std.specs.Prelude.{◌≡◌, IfOk};

use pack_words::{ArrayErr, LocalArray};
use std::alloc::Global;
use std::test::Fail;

// Two columns of 3 words, of which the word of row i and column j is 10 i + j.
fn numbered(alloc: Global) -> Result<LocalArray, ArrayErr>
    ensures rows { IfOk result (λ array. array.lld ≡ 3) }
    ensures columns { IfOk result (λ array. array.cols ≡ 2) }
{
    let mut array = LocalArray::new(alloc, 3, 2)?;
    array.set(1, 0, 10);
    array.set(2, 0, 20);
    array.set(0, 1, 1);
    array.set(1, 1, 11);
    array.set(2, 1, 21);
    Ok(array)
}

#[test]
fn new_arrays(rt: HostRuntime) -> Result<(), Fail> {
    // the leading dimension and the columns, with the refusal
    let rows: [(u32, u32, Option<ArrayErr>); 12] = [
        (1, 0, None),
        (2, 3, None),
        (1 << 24, 0, None),
        (0, 5, Some(ArrayErr::BadLead)),
        (0, u32::MAX, Some(ArrayErr::BadLead)),
        ((1 << 24) + 1, 0, Some(ArrayErr::BadLead)),
        (u32::MAX, u32::MAX, Some(ArrayErr::BadLead)),
        (2, 33_554_433, Some(ArrayErr::TooLarge(67_108_866))),
        (1 << 24, 5, Some(ArrayErr::TooLarge(83_886_080))),
        (1, 67_108_865, Some(ArrayErr::TooLarge(67_108_865))),
        (1, u32::MAX, Some(ArrayErr::TooLarge(4_294_967_295))),
        (
            1 << 24,
            u32::MAX,
            Some(ArrayErr::TooLarge(72_057_594_021_150_720)),
        ),
    ];
    for (lld, cols, want) in rows {
        let answer = LocalArray::new(rt.alloc(), lld, cols);
        if let Ok(array) = &answer {
            assert_eq!(rt; (array.lld(), array.cols()), (lld, cols));
        }
        assert_eq!(rt; answer.err(), want, "at {lld} by {cols}");
    }
    Ok(())
}

#[test]
fn words_begin_at_zero(rt: HostRuntime) -> Result<(), Fail> {
    let array = LocalArray::new(rt.alloc(), 2, 3).map_err(|_| "an array")?;
    for j in 0..3 {
        assert_eq!(rt; array.column(j), [0, 0].as_slice());
        for i in 0..2 {
            assert_eq!(rt; array.get(i, j), 0);
        }
    }
    Ok(())
}

#[test]
fn words_stand_by_columns(rt: HostRuntime) -> Result<(), Fail> {
    let mut array = numbered(rt.alloc()).map_err(|_| "an array")?;
    assert_eq!(rt; array.column(0), [0, 10, 20].as_slice());
    assert_eq!(rt; array.column(1), [1, 11, 21].as_slice());
    array.set(2, 0, i32::MIN);
    assert_eq!(rt; array.column(0), [0, 10, i32::MIN].as_slice());
    assert_eq!(rt; array.column(1), [1, 11, 21].as_slice());
    assert_eq!(rt; array.get(2, 0), i32::MIN);
    assert_eq!(rt; array.get(0, 1), 1);
    Ok(())
}
