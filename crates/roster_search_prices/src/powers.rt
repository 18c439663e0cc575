//! Powers of two and logarithms, in whole numbers.

/// What is left of 2^30 after so many 32nds of a halving.
const POWERS: [u64; 32] = [
    1_073_741_824,
    1_050_733_750,
    1_028_218_693,
    1_006_186_086,
    984_625_593,
    963_527_097,
    942_880_699,
    922_676_709,
    902_905_650,
    883_558_244,
    864_625_413,
    846_098_273,
    827_968_132,
    810_226_482,
    792_864_999,
    775_875_537,
    759_250_124,
    742_980_960,
    727_060_410,
    711_481_005,
    696_235_434,
    681_316_544,
    666_717_336,
    652_430_958,
    638_450_708,
    624_770_026,
    611_382_492,
    598_281_826,
    585_461_880,
    572_916_640,
    560_640_217,
    548_626_854,
];

/// The least that a logarithm is taken of.
const LEAST: u64 = 64;

/// What is left of 2^30 after a halving for each 2^(`softness` + 5) that `excess` has.
#[inline]
pub(crate) fn halved(excess: u64, softness: u32) -> u64 {
    let steps = excess >> (softness % 64);
    let halvings = steps / 32;
    if halvings > 30 {
        return 0;
    }
    POWERS[(steps % 32) as usize] >> halvings
}

/// The logarithm of `x` to base 2, in parts of 2^16: 16 places behind the point, of which some seven are
/// right. Of what is below 64 it is that of 64.
pub(crate) fn logarithm(x: u64) -> i64 {
    let x = if x < LEAST { LEAST } else { x };
    let whole = x.ilog2();
    let rest = if whole < 16 {
        (x << (16 - whole)) % 65_536
    } else {
        (x >> (whole - 16)) % 65_536
    };
    let bend = (rest * (65_536 - rest) / 65_536).wrapping_mul(22_486) / 65_536 % 65_536;
    i64::from(whole) * 65_536 + (rest as i64) + (bend as i64)
}
