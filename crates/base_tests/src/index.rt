//! Index functions at worked values and at their limits.

use index_tools::{iceil, ilcm, indxg2l, indxg2p, indxl2g, infog1l, numroc};

// Eleven indices in blocks of two over three processes, the first block on process 1: process 0 has 4, 5 and 10.
#[test]
fn eleven_indices_over_three_processes(rt: HostRuntime) {
    assert_eq!(rt; numroc(11, 2, 0, 1, 3), 3);
    assert_eq!(rt; numroc(11, 2, 1, 1, 3), 4);
    assert_eq!(rt; numroc(11, 2, 2, 1, 3), 4);
    assert_eq!(rt; indxg2p(7, 2, 0, 1, 3), 1);
    assert_eq!(rt; indxg2l(7, 2, 0, 1, 3), 3);
    assert_eq!(rt; indxl2g(3, 2, 1, 1, 3), 7);
    assert_eq!(rt; indxl2g(3, 2, 0, 1, 3), 11);
    assert_eq!(rt; infog1l(7, 2, 3, 0, 1), (3, 1));
    assert_eq!(rt; infog1l(7, 2, 3, 1, 1), (3, 1));
}

#[test]
fn limits_of_indices(rt: HostRuntime) {
    assert_eq!(rt; numroc(0, 1, 0, 0, 1), 0);
    assert_eq!(rt; numroc(5, 8, 0, 0, 2), 5);
    assert_eq!(rt; numroc(5, 8, 1, 0, 2), 0);
    assert_eq!(rt; numroc(1 << 24, 1 << 24, 63, 63, 64), 1 << 24);
    assert_eq!(rt; indxl2g(1 << 24, 1, 63, 0, 64), 1 << 30);
    assert_eq!(rt; indxl2g(1 << 24, 1 << 24, 0, 1, 64), 64 << 24);
}

#[test]
fn quotients_and_multiples(rt: HostRuntime) {
    assert_eq!(rt; iceil(7, 2), 4);
    assert_eq!(rt; iceil(8, 2), 4);
    assert_eq!(rt; iceil(0, 5), 0);
    assert_eq!(rt; iceil(u32::MAX, 2), 1 << 31);
    assert_eq!(rt; ilcm(6, 4), 12);
    assert_eq!(rt; ilcm(1, 1), 1);
    assert_eq!(rt; ilcm(1 << 30, (1 << 30) - 1), (1 << 60) - (1 << 30));
}
