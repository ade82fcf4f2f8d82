//! How two held words are joined.
use fold_ops::{AbsMax, AbsMin, Combine, Held, SumMod};

const fn held(value: i32, place: u32) -> Held {
    Held { value, place }
}

#[test]
fn sums_wrap_and_keep_the_lesser_place(rt: HostRuntime) {
    let rows = [
        (held(1, 0), held(2, 1), held(3, 0)),
        (held(-5, 3), held(5, 2), held(0, 2)),
        (held(2147483647, 0), held(1, 0), held(-2147483648, 0)),
        (held(-2147483648, 4), held(-1, 7), held(2147483647, 4)),
    ];
    for (a, b, want) in rows {
        assert_eq!(rt; SumMod::join(a, b), want);
        assert_eq!(rt; SumMod::join(b, a), want);
    }
}

#[test]
fn the_greater_absolute_value_then_the_lesser_place_then_the_greater_word(rt: HostRuntime) {
    let rows = [
        (held(-7, 5), held(6, 0), held(-7, 5)),
        (
            held(-2147483648, 1),
            held(2147483647, 0),
            held(-2147483648, 1),
        ),
        (held(-5, 0), held(5, 1), held(-5, 0)),
        (held(-5, 2), held(5, 2), held(5, 2)),
    ];
    for (a, b, want) in rows {
        assert_eq!(rt; AbsMax::join(a, b), want);
        assert_eq!(rt; AbsMax::join(b, a), want);
    }
}

#[test]
fn the_lesser_absolute_value_then_the_lesser_place_then_the_greater_word(rt: HostRuntime) {
    let rows = [
        (held(-7, 0), held(6, 5), held(6, 5)),
        (
            held(-2147483648, 0),
            held(2147483647, 1),
            held(2147483647, 1),
        ),
        (held(-5, 0), held(5, 1), held(-5, 0)),
        (held(-5, 2), held(5, 2), held(5, 2)),
    ];
    for (a, b, want) in rows {
        assert_eq!(rt; AbsMin::join(a, b), want);
        assert_eq!(rt; AbsMin::join(b, a), want);
    }
}
