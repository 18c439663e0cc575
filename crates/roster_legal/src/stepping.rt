//! Sets that are judged with one pairing more, out of what is known of them.

ghost use Rattle.std.specs.Prelude.{◌≡◌, ◌<◌, ◌-◌, ◌||◌, ℕ, [], true, false, IfOk, MatchOption, length};
ghost use Rattle.std.specs.Prelude.{slice_index};
ghost use Rattle.std.specs.List.Sorted.{IsStrictlyIncreasing};
ghost use Rattle.roster_model.specs.Rules.{duty_list, is_among};
ghost use Rattle.roster_legal.specs.Stepping.{with_next, AreDutiesOf, AreRoomsOf, IsLegalNext, IsNext};

use crate::listing::merge;
use crate::loads::Loads;
use roster_cumulative::{rooms_of, take_room};
use roster_problem::{DutyList, Problem};
use roster_restrules::busy_days;
use roster_values::Set;
use std::alloc::{AllocError, Global};
use std::marker::Model;

/// Memory of sets that are done with.
#[derive(Drop)]
pub struct Spare {
    alloc: Global,
    lists: Vec<Vec<u16>>,
}

impl Spare {
    /// No memory so far.
    pub fn new(alloc: Global) -> Spare {
        Spare {
            alloc,
            lists: Vec::new(alloc),
        }
    }

    /// Memory for a list, with nothing in it.
    fn take(&mut self) -> Vec<u16>
        ensures { result.items ≡ [] }
    {
        match self.lists.pop() {
            Some(mut list) => {
                list.clear();
                list
            }
            None => Vec::new(self.alloc),
        }
    }

    /// Keeps the memory of a list, if there is room to note that.
    fn give(&mut self, list: Vec<u16>) {
        let _ = self.lists.push(list);
    }
}

/// A legal set of a person, with its duties, what they leave of the judged sums, and the days of the
/// month that they make busy, as the bits of a word. Contracts see the set, and what stands behind it.
#[derive(Drop)]
pub struct JudgedSet<'a> {
    pub(crate) loads: &'a Loads<'a>,
    set: Set,
    pub(crate) depth: u32,
    busy: u32,
    positions: Vec<u16>,
    pub(crate) rooms: Vec<u16>,
}

impl<'a> Model for JudgedSet<'a> {
    ghost use Rattle.roster_legal.specs.Stepping.{IsStepped, Stepped};

    ghost Value = { Stepped };

    ghost view = { λ j. record { loads = j.loads.now; set = j.set } };

    ghost invariant = { λ j. IsStepped j.loads.now j.set j.depth j.positions.items j.rooms.items
        j.busy };
}

impl<'a> JudgedSet<'a> {
    /// The empty set.
    pub fn empty(alloc: Global, loads: &'a Loads<'a>) -> Result<JudgedSet<'a>, AllocError>
        ensures { IfOk result (λ judged. judged ≡ record { loads = loads.now; set = [] }) }
    {
        let (problem, k) = (loads.problem(), loads.person());
        let positions = fixed_positions(alloc, loads)?;
        let fixed = merge(alloc, problem, k, &Set::empty())?;
        let rooms = fixed_rooms(alloc, problem, k, &fixed)?;
        Ok(JudgedSet {
            loads,
            set: Set::empty(),
            depth: 0,
            busy: busy_days(problem.days_of(k), &fixed),
            positions,
            rooms,
        })
    }

    /// The set with the pairing at place `p` behind, if that is legal. Each two pairings are legal together,
    /// so the rules that speak of one duty or of two hold. Only Recovery and the rules that count days or
    /// minutes are judged, and only of three pairings or more.
    pub fn with(&self, p: usize, spare: &mut Spare) -> Result<Option<JudgedSet<'a>>, AllocError>
        requires { IsNext self.now p }
        ensures { IfOk result (λ judged. MatchOption judged (¬ IsLegalNext self.now p)
            (λ longer. (longer ≡ with_next self.now p) × IsLegalNext self.now p)) }
    {
        let loads = self.loads;
        let busy = self.busy | loads.busy(p);
        if !self.keeps_counted_with(p, busy) {
            return Ok(None);
        }
        let more = loads.problem().duties_of(p);
        let positions = joined(spare.take(), &self.positions, more)?;
        if !self.keeps_recovery_with(p, &positions) {
            spare.give(positions);
            return Ok(None);
        }
        let rooms = left(spare.take(), &self.rooms, loads.load(p))?;
        let mut set = self.set;
        set.put(p);
        Ok(Some(JudgedSet {
            loads,
            set,
            depth: self.depth + 1,
            busy,
            positions,
            rooms,
        }))
    }

    /// Keeps its memory for others.
    pub fn done(self, spare: &mut Spare) {
        spare.give(self.positions);
        spare.give(self.rooms);
    }
}

/// The positions of the fixed duties.
fn fixed_positions(alloc: Global, loads: &Loads<'_>) -> Result<Vec<u16>, AllocError>
    ensures { IfOk result
        (λ positions. AreDutiesOf loads.now.problem loads.now.person [] positions.items) }
{
    let mut positions = Vec::new(alloc);
    positions.extend_from_slice(loads.problem().fixed(loads.person()))?;
    Ok(positions)
}

/// What the fixed duties of person k, which are the list, leave of the judged sums.
fn fixed_rooms(
    alloc: Global,
    problem: &Problem,
    k: usize,
    list: &DutyList,
) -> Result<Vec<u16>, AllocError>
    requires person { k < length problem.now.persons }
    requires list { list.now ≡ duty_list problem.now k [] }
    ensures { IfOk result (λ rooms. AreRoomsOf problem.now k [] rooms.items) }
{
    let person = problem.person(k);
    let rooms = rooms_of(alloc, problem.days_of(k), list, person.year, person.eleven)?;
    Ok(rooms)
}

/// The positions of both, in order.
fn joined(memory: Vec<u16>, old: &[u16], more: &[u16]) -> Result<Vec<u16>, AllocError>
    requires empty { memory.items ≡ [] }
    requires old { IsStrictlyIncreasing old.now }
    requires more { IsStrictlyIncreasing more.now }
    requires apart { (i : ℕ) → is_among old.now i ≡ true → is_among more.now i ≡ false }
    ensures rising { IfOk result (λ positions. IsStrictlyIncreasing positions.items) }
    ensures members { IfOk result (λ positions. (i : ℕ)
        → is_among positions.items i ≡ (is_among old.now i || is_among more.now i)) }
{
    let mut positions = memory;
    positions.extend_from_slice(old)?;
    positions.extend_from_slice(more)?;
    positions.sort_unstable();
    Ok(positions)
}

/// What the loads leave of the rooms.
fn left(memory: Vec<u16>, rooms: &[u16], loads: &[u16]) -> Result<Vec<u16>, AllocError>
    requires empty { memory.items ≡ [] }
    requires same { length loads.now ≡ length rooms.now }
    ensures long { IfOk result (λ left. length left.items ≡ length rooms.now) }
    ensures each { IfOk result (λ left. (j : ℕ)
        → slice_index left.items j ≡ slice_index rooms.now j - slice_index loads.now j) }
{
    let mut left = memory;
    left.extend_from_slice(rooms)?;
    take_room(&mut left, loads);
    Ok(left)
}
