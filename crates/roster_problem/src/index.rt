//! The entries of each place of a table, without a look at the others.

ghost use Rattle.std.specs.Prelude.{◌≡◌, ◌<◌, ◌≤◌, ◌++◌, ◌∷◌, [], ℕ, Bool, IfOk, OnOk, Option, Some, All};
ghost use Rattle.std.specs.Prelude.{length, replicate, slice_get, slice_index_or, slice_set};
ghost use Rattle.std.specs.Fn.{FnReturnsAt};
ghost use Rattle.roster_problem.specs.Duties.{IsIndex, is_at};

use std::alloc::{AllocError, Global};
use std::marker::Model;

/// Lists of positions, one for each place of a table.
#[derive(Drop)]
pub(crate) struct Lists {
    lists: Vec<Vec<u16>>,
}

impl Model for Lists {
    ghost use Rattle.std.specs.Prelude.{List, ℕ, map};

    ghost Value = { List (List ℕ) };

    ghost view = { λ l. map (λ list. list.items) l.lists.items };
}

impl Lists {
    /// Empty lists.
    fn new(alloc: Global, places: usize) -> Result<Lists, AllocError>
        ensures { IfOk result (λ lists. lists ≡ replicate places []) }
    {
        let mut lists = Vec::with_capacity(alloc, places)?;
        for _ in 0..places {
            lists.push(Vec::new(alloc))?;
        }
        Ok(Lists { lists })
    }

    /// Puts a position at the end of the list of a place.
    fn push(&mut self, place: usize, position: u16) -> Result<(), AllocError>
        requires { place < length self.old }
        ensures { OnOk result (self.new
            ≡ slice_set self.old place (slice_index_or self.old place [] ++ position ∷ [])) }
    {
        self.lists[place].push(position)?;
        Ok(())
    }

    /// The list of a place.
    pub(crate) fn list(&self, place: usize) -> &[u16]
        requires { place < length self.now }
        ensures { slice_get self.now place ≡ Some result.now }
    {
        self.lists[place].as_slice()
    }
}

/// For each place the positions of the entries that belong to it, in ascending order.
pub(crate) fn by_place<T, F: Fn(&T) -> Option<usize>>(
    alloc: Global,
    places: usize,
    entries: &[T],
    place_of: F,
) -> Result<Lists, AllocError>
    requires callable { F.IsAlwaysCallable place_of }
    requires bound { length entries.now ≤ u16.MAX }
    requires there { All (λ entry. (p : ℕ)
        → FnReturnsAt F.Fn place_of entry (Some p) → p < places) entries.now }
    ensures index { (belongs : ℕ → T → Bool)
        → ((p : ℕ) (entry : T) (place : Option ℕ)
        → FnReturnsAt F.Fn place_of entry place → belongs p entry ≡ is_at p place)
        → IfOk result (IsIndex belongs places entries.now) }
    ensures given { IfOk result (λ _. All (λ entry. (place : Option ℕ)
        × FnReturnsAt F.Fn place_of entry place) entries.now) }
{
    let mut lists = Lists::new(alloc, places)?;
    for (i, entry) in entries.iter().enumerate() {
        if let Some(place) = place_of(entry) {
            lists.push(place, i as u16)?;
        }
    }
    Ok(lists)
}
