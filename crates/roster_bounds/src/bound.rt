//! What every roster of a node costs at least.

ghost use Rattle.std.specs.Prelude.{◌≡◌, ◌<◌, ◌≤◌, ◌≤ℤ◌, ◌^◌, ℕ, true, IsTrue, List, Some, length, neg_ℤ};
ghost use Rattle.std.specs.Prelude.{pos, slice_get};
ghost use Rattle.std.specs.List.{range_with_len};
ghost use Rattle.roster_model.specs.Costs.{cost_of, total};
ghost use Rattle.roster_model.specs.Lines.{IsLine};
ghost use Rattle.roster_model.specs.Places.{places_le, set_of};
ghost use Rattle.roster_model.specs.Rosters.{key_le, key_of};
ghost use Rattle.roster_cost.specs.Amounts.{IsWithin};
ghost use Rattle.roster_cost.specs.Priced.{penalties_and_prices};
ghost use Rattle.roster_lines_table.specs.Person.{lines_at};
ghost use Rattle.roster_bounds.specs.Amounts.{most_prices, AreReduced};
ghost use Rattle.roster_bounds.specs.Chosen.{line_set, penalty_or_price, price_at, reduced_at, IsOfNode};
ghost use Rattle.roster_bounds.specs.Chosen.{Meets};
ghost use Rattle.roster_bounds.specs.declared.prices.TheConstants.{MOST_PRICE};

use crate::node::Node;
use crate::reduced::{MOST_REDUCED, lesser};
use roster_cost::{Key, priced_shares_add_up};
use roster_model::limits::{MOST_PAIRINGS, MOST_PERSONS};

impl<'a> Node<'a> {
    /// At most the cost of every roster of the node, in cost units.
    ///
    /// It is the cost of the lines; for the next person the least reduced cost of a line that shares no
    /// pairing with them, and for each later person the least of all lines; and for each pairing that no
    /// line has the smaller of its price and its penalty. With a line for each person it is the cost of
    /// the lines and the penalties of the other pairings. It takes no memory.
    pub fn bound(&self) -> i64
        ensures { (places : List ℕ) → IsOfNode self.now places
            → result ≤ℤ cost_of self.now.tables.problem places }
    {
        priced_shares_add_up();
        word_at_most(self.persons_bound() + i128::from(self.pairings_bound()))
    }

    /// Whether no roster of the node has an earlier key: yes only if that is so. It takes no memory.
    pub fn may_skip(&self, key: &Key<'_>) -> bool
        requires { length key.now.places ≡ length self.now.tables.problem.pairings }
        ensures { IsTrue result → (places : List ℕ) → IsOfNode self.now places
            → key_le key.now (key_of self.now.tables.problem places) ≡ true }
    {
        let bound = self.bound();
        if bound == key.cost {
            return self.is_behind(key.places);
        }
        bound > key.cost
    }

    /// Whether no roster of the node stands before the places: yes only if that is so.
    fn is_behind(&self, places: &[u16]) -> bool
        requires { length places.now ≡ length self.now.tables.problem.pairings }
        ensures { IsTrue result → (others : List ℕ) → IsOfNode self.now others
            → places_le places.now others ≡ true }
    {
        for (p, place) in places.iter().enumerate() {
            let least = self.least_place(p);
            if *place != least {
                return *place < least;
            }
        }
        true
    }

    /// At most the reduced costs of the lines of all persons, in each roster of the node.
    fn persons_bound(&self) -> i128
        ensures below { (places : List ℕ) → IsOfNode self.now places
            → result ≤ℤ total (λ k. reduced_at self.now.tables k (set_of k places))
            (range_with_len 0 (length self.now.tables.problem.persons)) }
        ensures fits { AreReduced MOST_PERSONS result }
    {
        let persons = self.tables.problem().persons().len();
        prove!(persons <= MOST_PERSONS);
        let mut sum = self.reduced;
        for k in self.lines.len()..persons {
            sum += self.person_bound(k);
        }
        sum
    }

    /// At most the reduced cost of the line of person `k`, in each roster of the node.
    fn person_bound(&self, k: usize) -> i128
        requires left { length self.now.lines ≤ k }
        requires person { k < length self.now.tables.problem.persons }
        ensures below { (places : List ℕ) → IsOfNode self.now places
            → result ≤ℤ reduced_at self.now.tables k (set_of k places) }
        ensures fits { AreReduced 1 result }
    {
        // With no line chosen, nothing is shared with one.
        if k == 0 {
            return self.tables.bound_of(k);
        }
        if k == self.lines.len() {
            self.next_bound()
        } else {
            self.tables.bound_of(k)
        }
    }

    /// At most the reduced cost of each line of the next person that shares no pairing with the lines.
    fn next_bound(&self) -> i128
        requires { length self.now.lines < length self.now.tables.problem.persons }
        ensures below { (set : List ℕ)
            → IsLine self.now.tables.problem (length self.now.lines) set
            → ¬ Meets self.now.tables.table self.now.lines set
            → result ≤ℤ reduced_at self.now.tables (length self.now.lines) set }
        ensures fits { AreReduced 1 result }
    {
        let mut least = MOST_REDUCED;
        for i in 0..self.tables.width(self.lines.len()) {
            least = lesser(least, self.reduced_if_apart(i));
        }
        least
    }

    /// The reduced cost of line `i` of the next person, or no less than any if the line shares a
    /// pairing with the lines.
    fn reduced_if_apart(&self, i: usize) -> i128
        requires person { length self.now.lines < length self.now.tables.problem.persons }
        requires line { i < length (lines_at self.now.tables.table (length self.now.lines)) }
        ensures below { ¬ Meets self.now.tables.table self.now.lines
            (line_set self.now.tables.table (length self.now.lines) i)
            → result ≤ℤ reduced_at self.now.tables (length self.now.lines)
            (line_set self.now.tables.table (length self.now.lines) i) }
        ensures fits { AreReduced 1 result }
    {
        if self.meets(i) {
            return MOST_REDUCED;
        }
        self.tables.reduced(self.lines.len(), i)
    }

    /// At most the penalties of open pairings and the prices of the others, in each roster of the node.
    fn pairings_bound(&self) -> i64
        ensures below { (places : List ℕ) → IsOfNode self.now places
            → result ≤ℤ penalties_and_prices (price_at self.now.tables.prices)
            (length self.now.tables.problem.persons) 0 self.now.tables.problem.pairings places }
        ensures fits { IsWithin most_prices result }
    {
        let pairings = self.tables.problem().pairings().len();
        prove!(pairings <= MOST_PAIRINGS);
        let mut sum = 0;
        for p in 0..pairings {
            sum += self.pairing_bound(p);
        }
        sum
    }

    /// At most what pairing `p` adds to that.
    fn pairing_bound(&self, p: usize) -> i64
        requires { p < length self.now.tables.problem.pairings }
        ensures below { (places : List ℕ) (x : ℕ) → IsOfNode self.now places
            → slice_get places p ≡ Some x
            → result ≤ℤ penalty_or_price self.now.tables p x }
        ensures fits { IsWithin MOST_PRICE result }
    {
        if self.placed.has(p) {
            return self.tables.price(p);
        }
        if self.lines.len() == self.tables.problem().persons().len() {
            return self.tables.penalty(p);
        }
        self.tables.penalty_or_price(p)
    }
}

/// The number, or the greatest of a word of 64 bits if it is above that.
fn word_at_most(number: i128) -> i64
    requires { neg_ℤ (pos (2 ^ 63)) ≤ℤ number }
    ensures { result ≤ℤ number }
{
    if number > i128::from(i64::MAX) {
        return i64::MAX;
    }
    number as i64
}
