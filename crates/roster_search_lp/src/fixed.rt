//! Numbers in parts of a whole, in words of 64 bits. Sums and products that pass a word wrap: nothing that is
//! proved rests on them.

/// One whole. With 2^30 parts programs of 48 rows went astray.
pub(crate) const WHOLE: i64 = 1 << WHOLE_BITS;

const WHOLE_BITS: u32 = 40;

/// Half a part of a product of two numbers in parts of a whole.
const HALF: i128 = 1 << (WHOLE_BITS - 1);

/// All bits of a word.
const WORD: u128 = 0xffff_ffff_ffff_ffff;

/// A sum of products, divided by a whole and rounded; what passes a word is cut off.
#[inline]
pub(crate) fn rounded(sum: i128) -> i64 {
    let parts = sum.wrapping_add(HALF).cast_unsigned() >> WHOLE_BITS;
    ((parts & WORD) as u64).cast_signed()
}

/// The product of two numbers.
#[inline]
pub(crate) fn product(a: i64, b: i64) -> i128 {
    i128::from(a).wrapping_mul(i128::from(b))
}

/// The product of two numbers of which one is in parts of a whole.
#[inline]
pub(crate) fn times(a: i64, b: i64) -> i64 {
    rounded(product(a, b))
}

/// What `a` is of `b`, in parts of a whole; `a` itself if `b` is a whole, and 0 if it is 0.
pub(crate) fn part_of(a: i64, b: i64) -> i64 {
    if b == WHOLE {
        return a;
    }
    if b == 0 {
        return 0;
    }
    let parts = product(a, WHOLE).wrapping_div(i128::from(b));
    ((parts.cast_unsigned() & WORD) as u64).cast_signed()
}
