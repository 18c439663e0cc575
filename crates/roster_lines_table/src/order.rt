//! The order of sets.

ghost use Rattle.std.specs.Prelude.{◌≡◌};
ghost use Rattle.roster_model.specs.Places.{places_le};

use roster_values::Set;

/// Whether the first set isn't after the second, compared place by place; a proper part from the front
/// comes first.
pub(crate) fn is_at_most(a: &Set, b: &Set) -> bool
    ensures { result ≡ places_le a.now b.now }
{
    let mut from = 0;
    while let Some(p) = a.first_from(from) {
        let Some(q) = b.first_from(from) else {
            return false;
        };
        if p != q {
            return p < q;
        }
        from = p + 1;
    }
    true
}
