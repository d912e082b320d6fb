//! Fractions that are none, and the votes that reach those that are.
use coin_frac::{FracFault, Unit, reaches};

/// Whether so many votes of all reach the threshold num / den.
fn reached(yes: u64, all: u64, num: u64, den: u64) -> Result<bool, FracFault> {
    Ok(reaches(yes, all, Unit::new(num, den)?))
}

#[test]
fn thresholds(rt: HostRuntime) {
    for (yes, all, num, den, wanted) in [
        (66, 100, 67, 100, Ok(false)),
        (67, 100, 67, 100, Ok(true)),
        (0, 0, 1, 100, Ok(false)),
        (0, 0, 0, 1, Ok(true)),
        (1, 1, 1, 0, Err(FracFault::ZeroDen)),
        (1, 1, 2, 1, Err(FracFault::AboveOne)),
    ] {
        assert_eq!(rt; reached(yes, all, num, den), wanted);
    }
}
