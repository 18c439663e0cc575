//! Reading a list at a place that may be past its end.

/// The number at place `i`, or 0 past the end.
#[inline]
pub fn number_at(numbers: &[i64], i: usize) -> i64 {
    if i < numbers.len() { numbers[i] } else { 0 }
}
