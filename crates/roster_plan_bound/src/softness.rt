//! Weights that fall by half for each so many parts, and logarithms, in whole numbers.

use crate::tuning::ONE;

/// The powers of two from 2 to the 24th down by sixteenths.
const POWERS: [i64; 16] = [
    16_777_216, 16_065_897, 15_384_737, 14_732_456, 14_107_831, 13_509_688, 12_936_906, 12_388_408,
    11_863_166, 11_360_193, 10_878_545, 10_417_318, 9_975_645, 9_552_700, 9_147_686, 8_759_844,
];

/// The weight of what is so far above the least.
pub(crate) fn weight_of(above: i64, softness: i64) -> i64 {
    let sixteenths = above.wrapping_mul(16) / softness.max(1);
    let halves = sixteenths / 16;
    if sixteenths < 0 || halves >= 24 {
        return 0;
    }
    POWERS[(sixteenths % 16) as usize] >> halves
}

/// A weight as a share of the sum.
pub(crate) fn share_of(weight: i64, sum: i64) -> i64 {
    weight.wrapping_mul(ONE) / sum.max(1)
}

/// What two amounts cost at least, about: the less, and something less if the other one is near. And which part
/// of `ONE` the first one has of that.
pub(crate) fn soft_least(first: i64, second: i64, softness: i64) -> (i64, i64) {
    let least = first.min(second);
    let above = first.max(second).wrapping_sub(least);
    let weight = weight_of(above, softness) / (POWERS[0] / ONE);
    let both = ONE.wrapping_add(weight);
    let share = if first < second {
        share_of(ONE, both)
    } else {
        share_of(weight, both)
    };
    (least.wrapping_sub(saved_by(weight, softness)), share)
}

/// By how much two amounts are less than the lesser one, whose weight is `ONE`: the logarithm to base 2 of
/// both weights, nearly.
fn saved_by(weight: i64, softness: i64) -> i64 {
    let bend = weight.wrapping_mul(22_708) / ONE;
    let logarithm = weight.wrapping_mul(88_244_i64.wrapping_sub(bend)) / ONE;
    (softness / 16).wrapping_mul(logarithm) / (ONE / 16)
}

/// The logarithm to base 2 of a share, from -4 to 4, as so many parts of `ONE`; nearly.
pub(crate) fn logarithm(share: i64) -> i64 {
    let least = ONE / 16;
    if share <= least {
        return -4 * ONE;
    }
    if share >= 16 * ONE {
        return 4 * ONE;
    }
    let mut power: i64 = -4;
    let mut rest = share.wrapping_mul(16);
    for _ in 0..8 {
        if rest < 2 * ONE {
            return power.wrapping_mul(ONE).wrapping_add(rest.wrapping_sub(ONE));
        }
        rest /= 2;
        power = power.wrapping_add(1);
    }
    4 * ONE
}
