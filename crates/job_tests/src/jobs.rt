//! The numbers and sums of jobs, by their seeds and sizes.

use drawn_jobs::{Loaded, load_job};
use std::test::Fail;

// Seed, size, meets, messages, copies and sum; the sums are those of the drawn numbers, as bench/second.py reads their definition.
static JOBS: [(u64, u32, u64, u32, u32, i64); 5] = [
    (0, 1, 2, 0, 2, 335_903_614),
    (18_446_744_073_709_551_615, 2, 2, 0, 2, -2_538_091_664),
    (5, 65, 18, 16, 2, 17_644_347_294),
    (7, 257, 162, 120, 8, -278_724_580_874),
    (7, 1000, 2048, 120, 8, 1_627_338_780_948),
];

#[test]
fn numbers_and_sums(rt: HostRuntime) -> Result<(), Fail> {
    for (seed, size, meets, messages, copies, sum) in JOBS {
        let job = load_job(rt.alloc(), seed, size)?;
        let wanted = Loaded {
            meets,
            messages,
            copies,
            sum,
        };
        assert_eq!(rt; job, wanted, "load {seed} {size}");
    }
    Ok(())
}
