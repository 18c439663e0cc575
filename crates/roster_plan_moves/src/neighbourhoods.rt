//! Which neighbourhood is searched next. Nothing rests on it: each choice may be another one.

ghost use Rattle.std.specs.Prelude.{◌≡◌, IfOk, length};

use crate::mates::{base_of, is_of_base, mates_of, open_of, persons_sought};
use crate::openings::{nearest, open_from};
use crate::random::Random;
use crate::search::set_of;
use crate::sets::{add, amount_at, without};
use crate::tables::times;
use roster_lines::{Between, Pairs};
use roster_problem::{Problem, open_number};
use roster_values::Set;
use std::alloc::{AllocError, Global};

/// Where the random numbers begin.
const SEED: u64 = 20_240_302;

/// The minutes of a day.
const DAY: i64 = 24 * 60;

/// About so many open pairings of a base may be given to its persons.
const MOST_OPEN: usize = 12;

/// Sizes are in such parts of a person or of a day.
const PARTS: u32 = 4;

/// How large the kinds of neighbourhoods are at first: of three persons, of twelve days, and of eight
/// days.
const FIRST_SIZES: [u32; 3] = [3 * PARTS, 12 * PARTS, 8 * PARTS];

/// The kind of those round a wish, and how large they are at first: of eight days. The others have come
/// before.
const WISHES: usize = FIRST_SIZES.len();

const FIRST_SIZE_OF_WISHES: u32 = 8 * PARTS;

/// How many persons are free there beside who has the pairing and who would fly it.
const OTHERS: usize = 4;

/// How many of a few persons are near to having an open pairing, if any of them are.
const NEAR: usize = 4;

/// How large a neighbourhood may become: of more days than a month has.
const GREATEST_SIZE: u32 = 40 * PARTS;

/// How small a neighbourhood may become: of two persons, or of two days.
const LEAST_SIZE: u32 = 2 * PARTS;

/// How much larger the next one of a kind is if the search of one ends.
const GROWS_BY: u32 = 1;

/// How much smaller the next one of a kind is if the search of one is given up.
const SHRINKS_BY: u32 = PARTS;

/// Neighbourhoods of some persons, of some days, and, if there is a roster to stay near, round what somebody
/// would fly for fewer units. They grow as long as searches of them end, and shrink if one is given up.
#[derive(Drop)]
pub struct Neighbourhoods {
    random: Random,
    // Who is of a base that is sought.
    persons: Vec<usize>,
    // When pairings begin.
    begins: Vec<i64>,
    // The kinds and how large they are, and the kind of the last one.
    sizes: Vec<u32>,
    kind: usize,
}

/// A neighbourhood of a roster.
#[derive(Drop)]
pub struct Neighbourhood {
    /// What each person must keep and may have beside.
    pub wanted: Vec<Between>,
    kind: usize,
}

/// A pairing, who has it, and somebody who would fly it for fewer units.
#[derive(Clone, Copy)]
struct Wish {
    pairing: usize,
    holder: usize,
    taker: usize,
}

impl Neighbourhoods {
    /// Those of a problem, in bases that are sought. `sought` says of each base, by its number, whether it
    /// is; one past the list is. If these places give somebody a pairing there, they are of a roster to stay
    /// near.
    pub fn new(
        alloc: Global,
        problem: &Problem,
        sought: &[bool],
        places: &[u16],
    ) -> Result<Neighbourhoods, AllocError> {
        let persons = persons_sought(alloc, problem, sought)?;
        let begins = times(alloc, problem, false)?;
        let sizes = first_sizes(alloc, has_some(places, &persons))?;
        Ok(Neighbourhoods {
            random: Random::new(SEED),
            persons,
            begins,
            sizes,
            kind: 0,
        })
    }

    /// From now on neighbourhoods are in bases that are sought, as `new` has them. Their sizes stay.
    pub fn seek(
        &mut self,
        alloc: Global,
        problem: &Problem,
        sought: &[bool],
    ) -> Result<(), AllocError> {
        self.persons = persons_sought(alloc, problem, sought)?;
        Ok(())
    }

    /// The next neighbourhood of a roster.
    pub fn next(
        &mut self,
        alloc: Global,
        problem: &Problem,
        places: &[u16],
    ) -> Result<Neighbourhood, AllocError>
        ensures { IfOk result (λ next. length next.wanted.items ≡ length problem.now.persons) }
    {
        self.kind = self.random.below(self.sizes.len());
        let wish = self.wish(problem, places);
        let persons = match wish {
            Some(wish) => self.round(alloc, problem, wish)?,
            None => self.persons(alloc, problem)?,
        };
        let free = self.free(problem, places, &persons, wish);
        let wanted = wanted_of(alloc, problem, places, &persons, &free)?;
        Ok(Neighbourhood {
            wanted,
            kind: self.kind,
        })
    }

    /// So many persons of one base, fewer if it has fewer: by chance, but every other time, if a pairing is
    /// open there, some of them are those who would give up the fewest pairings for it. The pairs are those
    /// of each person.
    pub fn few(
        &mut self,
        alloc: Global,
        problem: &Problem,
        pairs: &[Pairs],
        places: &[u16],
        count: usize,
    ) -> Result<Vec<usize>, AllocError> {
        let mut left = self.mates(alloc, problem)?;
        let first = self.random.below(places.len());
        let open = open_from(problem, pairs, places, &left, first);
        let near = if self.random.below(2) == 0 { NEAR } else { 0 };
        let mut few = Vec::new(alloc);
        for nth in 0..count {
            let i = self.random.below(left.len());
            let at = match open {
                Some(p) if nth < near => nearest(pairs, places, &left, p, i).unwrap_or(i),
                _ => i,
            };
            if at < left.len() {
                few.push(left.swap_remove(at))?;
            }
        }
        Ok(few)
    }

    /// Whether the search of a neighbourhood has ended.
    pub fn tell(&mut self, neighbourhood: &Neighbourhood, is_settled: bool) {
        if let Some(size) = self.sizes.get_mut(neighbourhood.kind) {
            *size = if is_settled {
                size.saturating_add(GROWS_BY).min(GREATEST_SIZE)
            } else {
                size.saturating_sub(SHRINKS_BY).max(LEAST_SIZE)
            };
        }
    }

    /// How large the last neighbourhood is, in parts.
    fn size(&self) -> u32 {
        match self.sizes.get(self.kind) {
            Some(size) => *size,
            None => 0,
        }
    }

    /// Some persons of one base: a few, half of them, or all.
    fn persons(&mut self, alloc: Global, problem: &Problem) -> Result<Vec<usize>, AllocError> {
        let mut left = self.mates(alloc, problem)?;
        let count = match self.kind {
            0 => (self.size() / PARTS) as usize,
            1 => left.len().saturating_add(1) / 2,
            _ => left.len(),
        };
        self.chosen(alloc, &mut left, count)
    }

    /// In a neighbourhood round a wish: the first one from a pairing by chance on.
    fn wish(&mut self, problem: &Problem, places: &[u16]) -> Option<Wish> {
        if self.kind != WISHES {
            return None;
        }
        let first = self.random.below(places.len());
        let mate = self.random.below(self.persons.len());
        for step in 0..places.len() {
            let pairing = first.wrapping_add(step) % places.len();
            let holder = places.get(pairing).map_or(0, |number| usize::from(*number));
            if let Some(taker) = self.taker(problem, pairing, holder, mate) {
                return Some(Wish {
                    pairing,
                    holder,
                    taker,
                });
            }
        }
        None
    }

    /// The first of those sought, from one of them on, who would fly the pairing for fewer units than who has
    /// it.
    fn taker(
        &self,
        problem: &Problem,
        pairing: usize,
        holder: usize,
        first: usize,
    ) -> Option<usize> {
        let base = base_of(problem, holder)?;
        if !is_of_base(problem, pairing, base) || !self.persons.contains(&holder) {
            return None;
        }
        let least = problem.units(holder, pairing);
        for step in 0..self.persons.len() {
            let i = first.wrapping_add(step) % self.persons.len();
            let k = self.persons.get(i).copied().unwrap_or(holder);
            if base_of(problem, k) == Some(base) && problem.units(k, pairing) < least {
                return Some(k);
            }
        }
        None
    }

    /// Who has the pairing of a wish, who would fly it, and some others of the base by chance.
    fn round(
        &mut self,
        alloc: Global,
        problem: &Problem,
        wish: Wish,
    ) -> Result<Vec<usize>, AllocError> {
        let mut left = mates_of(alloc, problem, wish.holder)?;
        let mut persons = self.chosen(alloc, &mut left, OTHERS)?;
        persons.push(wish.holder)?;
        persons.push(wish.taker)?;
        Ok(persons)
    }

    /// All persons of one base, which is that of a person by chance.
    fn mates(&mut self, alloc: Global, problem: &Problem) -> Result<Vec<usize>, AllocError> {
        let i = self.random.below(self.persons.len());
        let k = self.persons.get(i).copied().unwrap_or(0);
        mates_of(alloc, problem, k)
    }

    /// So many of those that are left, by chance.
    fn chosen(
        &mut self,
        alloc: Global,
        left: &mut Vec<usize>,
        count: usize,
    ) -> Result<Vec<usize>, AllocError> {
        let mut chosen = Vec::new(alloc);
        for _ in 0..count {
            let i = self.random.below(left.len());
            if i < left.len() {
                chosen.push(left.swap_remove(i))?;
            }
        }
        Ok(chosen)
    }

    /// The pairings that these persons have or that are open, all of them or those of some days.
    fn free(
        &mut self,
        problem: &Problem,
        places: &[u16],
        persons: &[usize],
        wish: Option<Wish>,
    ) -> Set {
        let mut free = Set::empty();
        let Some(k) = persons.first() else {
            return free;
        };
        let Some(base) = base_of(problem, *k) else {
            return free;
        };
        let (first, last) = self.days(wish);
        let nobody = usize::from(open_number(problem));
        let open = open_of(problem, places, base);
        for (p, place) in places.iter().enumerate() {
            let begin = amount_at(&self.begins, p);
            let number = usize::from(*place);
            let is_there = if number == nobody {
                is_of_base(problem, p, base) && self.random.below(open) < MOST_OPEN
            } else {
                persons.contains(&number)
            };
            if is_there && begin >= first && begin <= last {
                add(&mut free, p);
            }
        }
        free
    }

    /// From when to when the pairings begin: some days by chance, or those round a wish.
    fn days(&mut self, wish: Option<Wish>) -> (i64, i64) {
        if self.kind == 0 || self.begins.is_empty() {
            return (i64::MIN, i64::MAX);
        }
        let p = match wish {
            Some(wish) => wish.pairing,
            None => self.random.below(self.begins.len()),
        };
        let middle = amount_at(&self.begins, p);
        // Half of so many parts of a day lie on each side of the middle.
        let minutes = i64::from(self.size()).wrapping_mul(DAY / i64::from(2 * PARTS));
        (middle.wrapping_sub(minutes), middle.wrapping_add(minutes))
    }
}

/// Whether the places give somebody of these a pairing.
fn has_some(places: &[u16], persons: &[usize]) -> bool {
    places
        .iter()
        .any(|number| persons.contains(&usize::from(*number)))
}

/// How large the kinds of neighbourhoods are at first, those round a wish too if there is a roster to stay
/// near.
fn first_sizes(alloc: Global, is_near: bool) -> Result<Vec<u32>, AllocError> {
    let mut sizes = Vec::new(alloc);
    for size in FIRST_SIZES {
        sizes.push(size)?;
    }
    if is_near {
        sizes.push(FIRST_SIZE_OF_WISHES)?;
    }
    Ok(sizes)
}

/// What everybody keeps and may have beside: these persons lose and may have what is free.
fn wanted_of(
    alloc: Global,
    problem: &Problem,
    places: &[u16],
    persons: &[usize],
    free: &Set,
) -> Result<Vec<Between>, AllocError>
    ensures { IfOk result (λ wanted. length wanted.items ≡ length problem.now.persons) }
{
    let mut wanted = Vec::new(alloc);
    for k in 0..problem.persons().len() {
        let had = set_of(places, k);
        let between = if persons.contains(&k) {
            Between {
                must: without(&had, free),
                may: *free,
            }
        } else {
            Between {
                must: had,
                may: Set::empty(),
            }
        };
        wanted.push(between)?;
    }
    Ok(wanted)
}
