//! What a search looks up. Nothing rests on it: what it says wrong costs time, and no roster its
//! legality.

ghost use Rattle.std.specs.Prelude.{◌≡◌, ◌<◌, length};

use crate::sets::{add, amount_at, is_within, only, set_at};
use roster_bases::{base_of_pairing, is_person_of};
use roster_cost::{fixed_flight, pairing_flight};
use roster_legal::Judge;
use roster_problem::Problem;
use roster_values::Set;
use std::alloc::{AllocError, Global};

/// Two pairings of which one begins so long after the end of the other, in minutes, don't touch.
const FAR: i64 = 3 * 24 * 60;

/// How many persons are asked whether two pairings go together.
const MOST_ASKED: usize = 3;

/// What persons can fly, what goes together, and what a set costs.
#[derive(Drop)]
pub(crate) struct Tables<'a> {
    problem: &'a Problem,
    crew: Crew,
    flights: Flights,
}

/// What is looked up by person.
#[derive(Drop)]
struct Crew {
    able: Vec<Set>,
    fixed: Vec<i64>,
    targets: Vec<i64>,
}

/// What is looked up by pairing.
#[derive(Drop)]
struct Flights {
    rivals: Vec<Set>,
    minutes: Vec<i64>,
    begins: Vec<i64>,
    penalties: Vec<i64>,
}

impl Crew {
    /// What the persons of a problem can fly, and what of their targets is left.
    fn new(alloc: Global, problem: &Problem) -> Result<Crew, AllocError> {
        let able = all_able(alloc, problem)?;
        let fixed = fixed_minutes(alloc, problem)?;
        let targets = targets(alloc, problem)?;
        Ok(Crew {
            able,
            fixed,
            targets,
        })
    }
}

impl Flights {
    /// The pairings of a problem, of which persons can fly these.
    fn new(alloc: Global, problem: &Problem, able: &[Set]) -> Result<Flights, AllocError> {
        let begins = times(alloc, problem, false)?;
        let rivals = all_rivals(alloc, problem, able, &begins)?;
        let minutes = minutes(alloc, problem)?;
        let penalties = penalties(alloc, problem)?;
        Ok(Flights {
            rivals,
            minutes,
            begins,
            penalties,
        })
    }
}

impl<'a> Tables<'a> {
    /// The tables of a problem.
    pub(crate) fn new(alloc: Global, problem: &'a Problem) -> Result<Tables<'a>, AllocError> {
        let crew = Crew::new(alloc, problem)?;
        let flights = Flights::new(alloc, problem, &crew.able)?;
        Ok(Tables {
            problem,
            crew,
            flights,
        })
    }

    /// How many persons there are.
    pub(crate) fn persons(&self) -> usize {
        self.crew.able.len()
    }

    /// How many pairings there are.
    pub(crate) fn pairings(&self) -> usize {
        self.flights.rivals.len()
    }

    /// The pairings that person `k` can fly alone.
    pub(crate) fn able(&self, k: usize) -> Set {
        set_at(&self.crew.able, k)
    }

    /// The pairings that nobody flies with the one at place `p`.
    pub(crate) fn rivals(&self, p: usize) -> Set {
        set_at(&self.flights.rivals, p)
    }

    /// When the pairing at place `p` begins.
    pub(crate) fn begin(&self, p: usize) -> i64 {
        amount_at(&self.flights.begins, p)
    }

    /// What it costs to leave the pairing at place `p` open.
    pub(crate) fn penalty(&self, p: usize) -> i64 {
        amount_at(&self.flights.penalties, p)
    }

    /// What it costs to leave a set open.
    pub(crate) fn penalties(&self, set: &Set) -> i64 {
        let mut sum: i64 = 0;
        let mut from = 0;
        while let Some(p) = set.first_from(from) {
            sum = sum.wrapping_add(self.penalty(p));
            from = p + 1;
        }
        sum
    }

    /// What the set costs with person `k`.
    pub(crate) fn line(&self, k: usize, set: &Set) -> i64 {
        let mut units: i64 = 0;
        let mut from = 0;
        while let Some(p) = set.first_from(from) {
            units = units.wrapping_add(self.problem.units(k, p));
            from = p + 1;
        }
        units.wrapping_add(self.missed(k, self.flight(k, set)))
    }

    /// The minutes of flight of person `k` with the set, those of fixed duties among them.
    pub(crate) fn flight(&self, k: usize, set: &Set) -> i64 {
        let mut flight = amount_at(&self.crew.fixed, k);
        let mut from = 0;
        while let Some(p) = set.first_from(from) {
            flight = flight.wrapping_add(amount_at(&self.flights.minutes, p));
            from = p + 1;
        }
        flight
    }

    /// What it costs more that person `k`, who flies so much, has the pairing at place `p` too.
    pub(crate) fn more(&self, k: usize, flight: i64, p: usize) -> i64 {
        let with = flight.wrapping_add(amount_at(&self.flights.minutes, p));
        let missed = self.missed(k, with).wrapping_sub(self.missed(k, flight));
        missed.wrapping_add(self.problem.units(k, p))
    }

    /// What it costs that person `k` flies so much.
    fn missed(&self, k: usize, flight: i64) -> i64 {
        flight
            .wrapping_sub(amount_at(&self.crew.targets, k))
            .wrapping_abs()
            .wrapping_mul(i64::from(self.problem.weight()))
    }

    /// Those of a set that can't be flown with some of another one.
    pub(crate) fn meeting(&self, set: &Set, others: &Set) -> Set {
        let mut found = Set::empty();
        let mut from = 0;
        while let Some(p) = set.first_from(from) {
            if self.rivals(p).meets(others) {
                add(&mut found, p);
            }
            from = p + 1;
        }
        found
    }

    /// Those of a set that begin from `first` to `last`.
    pub(crate) fn between(&self, set: &Set, first: i64, last: i64) -> Set {
        let mut found = Set::empty();
        let mut from = 0;
        while let Some(p) = set.first_from(from) {
            let begin = self.begin(p);
            if begin >= first && begin <= last {
                add(&mut found, p);
            }
            from = p + 1;
        }
        found
    }
}

/// Minutes as a signed number.
fn signed(minutes: u64) -> i64 {
    i64::try_from(minutes).unwrap_or(i64::MAX)
}

/// For each person the pairings that are legal alone.
fn all_able(alloc: Global, problem: &Problem) -> Result<Vec<Set>, AllocError> {
    let mut able = Vec::new(alloc);
    for k in 0..problem.persons().len() {
        able.push(able_of(alloc, problem, k)?)?;
    }
    Ok(able)
}

fn able_of(alloc: Global, problem: &Problem, k: usize) -> Result<Set, AllocError> {
    let mut judge = Judge::new(alloc, problem);
    let mut able = Set::empty();
    for p in 0..problem.pairings().len() {
        if fits(&mut judge, problem, k, &only(p))? {
            add(&mut able, p);
        }
    }
    Ok(able)
}

/// Whether the set is legal for person `k`, if there are this person and these pairings.
fn fits(judge: &mut Judge<'_>, problem: &Problem, k: usize, set: &Set) -> Result<bool, AllocError>
    requires { judge.old ≡ problem.now }
    ensures { judge.new ≡ problem.now }
{
    if k >= problem.persons().len() || !is_within(set, problem.pairings().len()) {
        return Ok(false);
    }
    judge.is_legal(k, set)
}

/// When each pairing begins, or ends.
pub(crate) fn times(alloc: Global, problem: &Problem, ends: bool) -> Result<Vec<i64>, AllocError> {
    let mut times = Vec::new(alloc);
    for p in 0..problem.pairings().len() {
        times.push(time_of(problem, p, ends))?;
    }
    Ok(times)
}

fn time_of(problem: &Problem, p: usize, ends: bool) -> i64
    requires { p < length problem.now.pairings }
{
    let positions = problem.duties_of(p);
    let position = if ends {
        positions.last()
    } else {
        positions.first()
    };
    let Some(position) = position else { return 0 };
    let Some(duty) = problem.duties().get(usize::from(*position)) else {
        return 0;
    };
    if ends {
        duty.release.get()
    } else {
        duty.report.get()
    }
}

/// For each pairing those that can't be flown with it.
fn all_rivals(
    alloc: Global,
    problem: &Problem,
    able: &[Set],
    begins: &[i64],
) -> Result<Vec<Set>, AllocError> {
    let ends = times(alloc, problem, true)?;
    let mut rivals = Vec::new(alloc);
    for p in 0..problem.pairings().len() {
        rivals.push(rivals_of(alloc, problem, able, begins, &ends, p)?)?;
    }
    Ok(rivals)
}

fn rivals_of(
    alloc: Global,
    problem: &Problem,
    able: &[Set],
    begins: &[i64],
    ends: &[i64],
    p: usize,
) -> Result<Set, AllocError> {
    let mut judge = Judge::new(alloc, problem);
    let mut rivals = Set::empty();
    for q in 0..problem.pairings().len() {
        let after = amount_at(begins, q).wrapping_sub(amount_at(ends, p));
        let before = amount_at(begins, p).wrapping_sub(amount_at(ends, q));
        if q == p || after > FAR || before > FAR {
            continue;
        }
        let both = only(p).or(&only(q));
        if !go_together(&mut judge, problem, able, &both, p, q)? {
            add(&mut rivals, q);
        }
    }
    Ok(rivals)
}

/// Whether both pairings are legal together for one of the first persons who can fly each.
fn go_together(
    judge: &mut Judge<'_>,
    problem: &Problem,
    able: &[Set],
    both: &Set,
    p: usize,
    q: usize,
) -> Result<bool, AllocError>
    requires { judge.old ≡ problem.now }
    ensures { judge.new ≡ problem.now }
{
    let mut asked: usize = 0;
    for (k, set) in able.iter().enumerate() {
        if set.has(p) && set.has(q) && asked < MOST_ASKED {
            if fits(judge, problem, k, both)? {
                return Ok(true);
            }
            asked += 1;
        }
    }
    Ok(false)
}

/// The minutes of flight of the fixed duties of each person.
fn fixed_minutes(alloc: Global, problem: &Problem) -> Result<Vec<i64>, AllocError> {
    let mut fixed = Vec::new(alloc);
    for k in 0..problem.persons().len() {
        fixed.push(signed(fixed_flight(problem, k)))?;
    }
    Ok(fixed)
}

fn targets(alloc: Global, problem: &Problem) -> Result<Vec<i64>, AllocError> {
    let mut targets = Vec::new(alloc);
    for person in problem.persons() {
        targets.push(i64::from(person.target))?;
    }
    Ok(targets)
}

/// What it costs to leave each pairing open, in cost units.
pub fn penalties(alloc: Global, problem: &Problem) -> Result<Vec<i64>, AllocError> {
    let mut penalties = Vec::new(alloc);
    for pairing in problem.pairings() {
        penalties.push(i64::from(pairing.penalty))?;
    }
    Ok(penalties)
}

/// The minutes of flight of each pairing, by the days of its base.
fn minutes(alloc: Global, problem: &Problem) -> Result<Vec<i64>, AllocError> {
    let mut minutes = Vec::new(alloc);
    for p in 0..problem.pairings().len() {
        minutes.push(minutes_of(problem, p))?;
    }
    Ok(minutes)
}

fn minutes_of(problem: &Problem, p: usize) -> i64
    requires { p < length problem.now.pairings }
{
    let base = base_of_pairing(problem, p);
    for k in 0..problem.persons().len() {
        if is_person_of(problem, k, base) {
            return signed(pairing_flight(problem, k, p));
        }
    }
    0
}
