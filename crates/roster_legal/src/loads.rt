//! What a person's rules see of each duty and of each pairing.

ghost use Rattle.std.specs.Prelude.{◌≡◌, ◌<◌, ◌↔◌, true, All, IfOk, IsTrue, filter, length};
ghost use Rattle.roster_model.specs.Problem.{home_of};
ghost use Rattle.roster_model.specs.Rules.{is_among};
ghost use Rattle.roster_model.specs.Rules.Recovery.{KeepsRecovery};
ghost use Rattle.roster_problem.specs.Duties.{is_of_pairing, picked, IsInOrder};
ghost use Rattle.roster_restrules.specs.Busy.{AreBusyDays};
ghost use Rattle.roster_legal.specs.Stepping.{AreLoads, IsLoad, IsLoadOf, IsPlaced};

use roster_cumulative::loads_of;
use roster_model::limits::MOST_PAIRINGS;
use roster_problem::{DutyList, Problem};
use roster_restrules::{Times, busy_days};
use roster_values::Set;
use std::alloc::{AllocError, Global};
use std::marker::Model;

/// What a pairing takes of each judged sum, in minutes, and the days of the month that it makes busy, as
/// the bits of a word; nothing is said of one that isn't looked at.
#[derive(Drop)]
pub(crate) struct Load {
    pub(crate) minutes: Vec<u16>,
    pub(crate) busy: u32,
}

/// What the rules of a person see of the problem's duties, and of some pairings: each is looked at once.
/// Contracts see the problem, the person, and these pairings.
#[derive(Drop)]
pub struct Loads<'a> {
    problem: &'a Problem,
    person: usize,
    among: Set,
    times: Times<'a>,
    loads: Vec<Load>,
}

impl<'a> Model for Loads<'a> {
    ghost use Rattle.roster_legal.specs.Stepping.{IsLoaded, Loaded};

    ghost Value = { Loaded };

    ghost view = { λ l. record { problem = l.problem.now; person = l.person; among = l.among } };

    ghost invariant = { λ l. IsLoaded
        (record { problem = l.problem.now; person = l.person; among = l.among })
        l.times l.loads.items };
}

impl<'a> Loads<'a> {
    /// Looks at all duties, and at the pairings of the set, for person `k`.
    pub fn new(
        alloc: Global,
        problem: &'a Problem,
        k: usize,
        among: Set,
    ) -> Result<Loads<'a>, AllocError>
        requires { k < length problem.now.persons }
        ensures { IfOk result
            (λ loads. loads ≡ record { problem = problem.now; person = k; among = among }) }
    {
        let times = Times::new(alloc, problem.days_of(k), problem.duties())?;
        let loads = all_loads(alloc, problem, k, &among)?;
        prove!(problem.pairings().len() <= MOST_PAIRINGS);
        Ok(Loads {
            problem,
            person: k,
            among,
            times,
            loads,
        })
    }

    /// The problem.
    pub(crate) fn problem(&self) -> &'a Problem
        ensures value { result.now ≡ self.now.problem }
        ensures placed { IsPlaced self.now }
    {
        self.problem
    }

    /// The place of the person.
    pub(crate) fn person(&self) -> usize
        ensures { result ≡ self.now.person }
    {
        self.person
    }

    /// What a pairing takes, if it is one of these.
    pub(crate) fn load(&self, p: usize) -> &[u16]
        requires { p < length self.now.problem.pairings }
        ensures { is_among self.now.among p ≡ true
            → IsLoadOf self.now.problem self.now.person p result.now }
    {
        self.loads[p].minutes.as_slice()
    }

    /// The days of the month that a pairing makes busy, if it is one of these.
    pub(crate) fn busy(&self, p: usize) -> u32
        requires { p < length self.now.problem.pairings }
        ensures { is_among self.now.among p ≡ true
            → AreBusyDays (home_of self.now.problem self.now.person).days
            (filter (is_of_pairing p) self.now.problem.duties) result }
    {
        self.loads[p].busy
    }

    /// Whether recurrent rests follow one another soon enough on the list of the duties at the
    /// positions, which are those of a set.
    pub(crate) fn keep_recovery(&self, positions: &[u16]) -> bool
        requires within { All (λ i. i < length self.now.problem.duties) positions.now }
        requires ordered { IsInOrder (picked self.now.problem.duties positions.now) }
        ensures { IsTrue result ↔ KeepsRecovery (home_of self.now.problem self.now.person).days
            (picked self.now.problem.duties positions.now) }
    {
        self.times.keep_recovery(positions)
    }
}

/// What each pairing of the set takes.
fn all_loads(
    alloc: Global,
    problem: &Problem,
    k: usize,
    among: &Set,
) -> Result<Vec<Load>, AllocError>
    requires { k < length problem.now.persons }
    ensures { IfOk result (λ loads. AreLoads
        (record { problem = problem.now; person = k; among = among.now }) loads.items) }
{
    let mut loads = Vec::new(alloc);
    for p in 0..problem.pairings().len() {
        let load = load_if(alloc, problem, k, p, among.has(p))?;
        loads.push(load)?;
    }
    Ok(loads)
}

/// What the pairing takes, if it is wanted.
fn load_if(
    alloc: Global,
    problem: &Problem,
    k: usize,
    p: usize,
    is_wanted: bool,
) -> Result<Load, AllocError>
    requires person { k < length problem.now.persons }
    requires place { p < length problem.now.pairings }
    ensures { IfOk result (λ load. is_wanted ≡ true → IsLoad problem.now k p load) }
{
    if !is_wanted {
        return Ok(Load {
            minutes: Vec::new(alloc),
            busy: 0,
        });
    }
    let load = load_of(alloc, problem, k, p)?;
    Ok(load)
}

/// What the pairing takes.
fn load_of(alloc: Global, problem: &Problem, k: usize, p: usize) -> Result<Load, AllocError>
    requires person { k < length problem.now.persons }
    requires place { p < length problem.now.pairings }
    ensures { IfOk result (IsLoad problem.now k p) }
{
    let mut positions = Vec::new(alloc);
    positions.extend_from_slice(problem.duties_of(p))?;
    let list = DutyList::new(problem.duties(), positions);
    let days = problem.days_of(k);
    let minutes = loads_of(alloc, days, &list)?;
    let busy = busy_days(days, &list);
    Ok(Load { minutes, busy })
}
