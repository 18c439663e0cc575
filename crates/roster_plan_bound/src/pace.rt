//! How prices move from one look to the next. Nothing rests on it.

use crate::parts::PARTS;
use crate::tuning::{
    DIVE_SOFTNESS, DIVE_STEPS, DIVE_STRIDE, FEWEST_PRICE_STEPS, FIRST_SOFTNESS, FIRST_STRIDE,
    LEAST_STRIDE, MOST_LACKING, MOST_PRICE_STEPS, MOST_STRIDE, SOFTEST_LATE, STRIDES_OF_UNITS,
};

/// So much more is little, in parts of a cost unit.
const LITTLE: i64 = PARTS as i64 / 3;

/// How far prices may move from the best ones, how soft covers are at first, in parts of a cost unit, how
/// often prices move before the next look, how dear the month is, and how many looks in a row have said more,
/// or, below 0, no more.
#[derive(Clone, Copy)]
pub(crate) struct Pace {
    pub(crate) stride: i64,
    pub(crate) softness: i64,
    pub(crate) steps: u32,
    pub(crate) dear: i64,
    run: i32,
}

impl Pace {
    /// That of the first prices of a month so dear.
    pub(crate) fn first(dear: i64) -> Pace {
        Pace {
            stride: FIRST_STRIDE.wrapping_mul(dear),
            softness: FIRST_SOFTNESS.wrapping_mul(dear),
            steps: FEWEST_PRICE_STEPS,
            dear,
            run: 0,
        }
    }

    /// That of the first looks of a dive in a month so dear.
    pub(crate) fn of_dive(dear: i64) -> Pace {
        Pace {
            stride: DIVE_STRIDE.wrapping_mul(dear),
            softness: DIVE_SOFTNESS.wrapping_mul(dear),
            steps: DIVE_STEPS,
            dear,
            run: 0,
        }
    }

    /// The next one after a look that said so much more than the best one before, in parts of a cost unit:
    /// harder if that was little, and softer if it was more. The first looks that say much less show columns
    /// that were lacking, so they change no softness. In the month nobody has more units for a pairing, below
    /// 0 or above.
    pub(crate) fn after(self, gain: i64, most_units: i64) -> Pace {
        let run = run_after(self.run, gain);
        let widest = widest_stride(self.dear, most_units);
        let next = Pace {
            stride: stride_after(self.stride, run, widest),
            run,
            ..self
        };
        if gain > LITTLE {
            return next.softer();
        }
        if gain < -LITTLE && run >= -MOST_LACKING {
            return next;
        }
        next.harder()
    }

    /// The same with softer covers, and fewer steps.
    fn softer(self) -> Pace {
        let most = FIRST_SOFTNESS.wrapping_mul(self.dear);
        Pace {
            softness: (self.softness.wrapping_mul(3) / 2).min(most),
            steps: (self.steps.wrapping_mul(2) / 3).max(FEWEST_PRICE_STEPS),
            ..self
        }
    }

    /// The same with harder covers, and more steps.
    fn harder(self) -> Pace {
        Pace {
            softness: (self.softness.wrapping_mul(3) / 10).max(SOFTEST_LATE),
            steps: (self.steps.wrapping_mul(3) / 2).min(MOST_PRICE_STEPS),
            ..self
        }
    }
}

/// How many looks in a row have said more after one that said so much more, or, below 0, no more.
fn run_after(run: i32, gain: i64) -> i32 {
    if gain > 0 {
        run.max(0).saturating_add(1)
    } else {
        run.min(0).saturating_sub(1)
    }
}

/// How far prices may move at most in a month so dear: further if units are many.
fn widest_stride(dear: i64, most_units: i64) -> i64 {
    let by_units = most_units.wrapping_mul(PARTS as i64) / STRIDES_OF_UNITS;
    MOST_STRIDE.wrapping_mul(dear).max(by_units)
}

/// The next stride, no more than the widest: wider after a look that said more, and twice so after the next
/// ones, nearer after the second in a row that said no more.
fn stride_after(stride: i64, run: i32, widest: i64) -> i64 {
    match run {
        2.. => wider(wider(stride, widest), widest),
        1 => wider(stride, widest),
        -1 | 0 => stride,
        _ => narrower(stride),
    }
}

/// The next stride after one that said more, no more than the widest.
fn wider(stride: i64, widest: i64) -> i64 {
    (stride.wrapping_mul(3) / 2).min(widest)
}

/// The next stride after one that said no more.
fn narrower(stride: i64) -> i64 {
    (stride.wrapping_mul(3) / 5).max(LEAST_STRIDE)
}
