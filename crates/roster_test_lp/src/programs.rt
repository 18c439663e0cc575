//! Small programs, made by a fixed rule.

use crate::exact::{Exact, Fraction};
use roster_search_lp::{Allowed, MOST_DUAL, Master};
use roster_values::Set;
use std::alloc::{AllocError, Global};

/// Numbers by chance, the same each time.
#[derive(Clone, Copy)]
pub(crate) struct Chance(pub(crate) u64);

impl Chance {
    /// The next number below `most`, which isn't 0.
    pub(crate) fn below(&mut self, most: u64) -> u64 {
        let chance = self.0 ^ (self.0 << 13);
        let chance = chance ^ (chance >> 7);
        self.0 = chance ^ (chance << 17);
        if most == 0 { 0 } else { (self.0 >> 20) % most }
    }
}

/// How many parts a cost unit has.
pub(crate) const SCALE: u32 = 16_384;

/// A line of a person.
#[derive(Clone, Copy)]
pub(crate) struct Line {
    pub(crate) k: usize,
    pub(crate) set: Set,
    pub(crate) cost: i64,
}

/// A program of set partitioning. Costs are in parts of a cost unit.
#[derive(Drop)]
pub(crate) struct Small {
    pub(crate) idle: Vec<i64>,
    pub(crate) penalties: Vec<i64>,
    pub(crate) lines: Vec<Line>,
}

/// How many of what a program has at most, and one person at least.
#[derive(Clone, Copy)]
pub(crate) struct Shape {
    pub(crate) persons: u64,
    pub(crate) pairings: u64,
    pub(crate) lines: u64,
    /// Costs are below so many units, and at least as far below 0; 1 has them all 0.
    pub(crate) units: u64,
}

/// A cost of less than so many units, or as far below 0.
fn cost_of(chance: &mut Chance, units: u64) -> i64 {
    let far = units.min(1 << 20);
    let cost = chance.below(far.saturating_mul(2)).cast_signed();
    cost.saturating_sub(far.saturating_sub(1).cast_signed())
        .saturating_mul(i64::from(SCALE))
}

/// Some of so many pairings.
fn set_of(chance: &mut Chance, pairings: usize) -> Set {
    let mut set = Set::empty();
    for p in 0..pairings.min(512) {
        if chance.below(5) < 2 {
            set.put(p);
        }
    }
    set
}

/// A program with so many persons, pairings and lines, or fewer.
pub(crate) fn made(alloc: Global, chance: &mut Chance, shape: Shape) -> Result<Small, AllocError> {
    let persons = chance.below(shape.persons).saturating_add(1) as usize;
    let pairings = chance.below(shape.pairings.saturating_add(1)) as usize;
    let mut program = Small {
        idle: vec![in alloc; 0; persons]?,
        penalties: Vec::new(alloc),
        lines: Vec::new(alloc),
    };
    for _ in 0..pairings {
        let penalty = cost_of(chance, shape.units).saturating_abs();
        program.penalties.push(penalty)?;
    }
    let lines = chance.below(shape.lines.saturating_add(1));
    for _ in 0..lines {
        let set = set_of(chance, pairings);
        let k = chance.below(persons as u64) as usize;
        let cost = cost_of(chance, shape.units);
        if !has(&program.lines, k, &set) {
            program.lines.push(Line { k, set, cost })?;
        }
    }
    Ok(program)
}

/// Whether a person has the line already; the empty one each has.
fn has(lines: &[Line], k: usize, set: &Set) -> bool {
    set.is_empty() || lines.iter().any(|line| line.k == k && line.set == *set)
}

impl Small {
    /// The program as it is to be solved.
    pub(crate) fn master(&self, alloc: Global) -> Result<Master, AllocError> {
        let mut master = Master::new(alloc, &self.idle, &self.penalties, SCALE)?;
        for line in &self.lines {
            if line.k < master.persons() {
                master.add(line.k, &line.set, line.cost)?;
            }
        }
        Ok(master)
    }

    /// How many rows it has: those of persons, of pairings and of two counts.
    pub(crate) fn rows(&self) -> usize {
        self.idle
            .len()
            .saturating_add(self.penalties.len())
            .saturating_add(2)
    }

    /// Its least cost in fractions, if what is marked costs so much more.
    pub(crate) fn least(
        &self,
        alloc: Global,
        marks: &Marks,
        more: i64,
    ) -> Result<Fraction, AllocError> {
        let mut columns = Vec::new(alloc);
        let mut costs = Vec::new(alloc);
        let rows = self.rows();
        let empty = Set::empty();
        for (k, cost) in self.idle.iter().enumerate() {
            columns.push(unit(alloc, rows, k, 1)?)?;
            costs.push(with(*cost, marks.allows(k, &empty), more))?;
        }
        for (p, penalty) in self.penalties.iter().enumerate() {
            columns.push(unit(alloc, rows, self.idle.len().saturating_add(p), 1)?)?;
            costs.push(with(*penalty, !marks.flown.has(p), more))?;
        }
        // More open pairings than at least, and than at most.
        let counts = rows.saturating_sub(2);
        columns.push(unit(alloc, rows, counts, 1)?)?;
        costs.push(0)?;
        columns.push(unit(alloc, rows, counts.saturating_add(1), 1)?)?;
        costs.push(with(0, marks.most >= self.penalties.len(), more))?;
        for line in &self.lines {
            columns.push(self.line(alloc, line)?)?;
            costs.push(with(line.cost, marks.allows(line.k, &line.set), more))?;
        }
        // And fewer.
        columns.push(unit(alloc, rows, counts, -1)?)?;
        costs.push(with(0, marks.least == 0, more))?;
        columns.push(unit(alloc, rows, counts.saturating_add(1), -1)?)?;
        costs.push(0)?;
        let right = self.right(alloc, marks)?;
        Exact::new(alloc, by_row(alloc, &columns, &right)?, &costs)?.least(alloc)
    }

    /// The column of a line: ones in the rows of its person and its pairings. The rows of counts say that so
    /// many aren't open as are flown and as are missing from the count.
    fn line(&self, alloc: Global, line: &Line) -> Result<Vec<i128>, AllocError> {
        let mut column = unit(alloc, self.rows(), line.k, 1)?;
        let mut flown: i128 = 0;
        for p in 0..self.penalties.len() {
            if line.set.has(p) {
                put(&mut column, self.idle.len().saturating_add(p), 1);
                flown = flown.wrapping_add(1);
            }
        }
        let counts = self.rows().saturating_sub(2);
        put(&mut column, counts, flown);
        put(&mut column, counts.saturating_add(1), flown);
        Ok(column)
    }

    /// What the rows need.
    fn right(&self, alloc: Global, marks: &Marks) -> Result<Vec<i128>, AllocError> {
        let pairings = self.penalties.len();
        let mut right = vec![in alloc; 1; self.rows()]?;
        let counts = self.rows().saturating_sub(2);
        let (least, most) = (marks.least.min(pairings), marks.most.min(pairings));
        put(&mut right, counts, pairings.saturating_sub(least) as i128);
        put(
            &mut right,
            counts.saturating_add(1),
            pairings.saturating_sub(most) as i128,
        );
        Ok(right)
    }

    /// Whether the duals pay no line and no open pairing much more than it costs: by more than the tolerance
    /// for entering, and a part for each row.
    pub(crate) fn is_within_duals(&self, master: &Master) -> bool {
        let most = i64::from(SCALE) / 1024 + 20;
        for line in &self.lines {
            let mut reduced = line.cost.saturating_sub(master.person_dual(line.k));
            for (p, price) in master.prices().iter().enumerate() {
                if line.set.has(p) {
                    reduced = reduced.saturating_sub(*price);
                }
            }
            if reduced < -most {
                return false;
            }
        }
        for (price, penalty) in master.prices().iter().zip(&self.penalties) {
            if price.saturating_sub(*penalty) > most {
                return false;
            }
        }
        true
    }
}

/// A cost, and so much more if that isn't allowed.
fn with(cost: i64, is_allowed: bool, more: i64) -> i64 {
    if is_allowed {
        cost
    } else {
        cost.saturating_add(more)
    }
}

/// A column with just one entry.
fn unit(alloc: Global, rows: usize, row: usize, entry: i128) -> Result<Vec<i128>, AllocError> {
    let mut column = vec![in alloc; 0; rows]?;
    put(&mut column, row, entry);
    Ok(column)
}

/// Puts an entry into a row.
fn put(column: &mut [i128], row: usize, entry: i128) {
    if row < column.len() {
        column[row] = entry;
    }
}

/// The rows of columns, each with what it needs.
fn by_row(
    alloc: Global,
    columns: &[Vec<i128>],
    right: &[i128],
) -> Result<Vec<Vec<i128>>, AllocError> {
    let mut rows = Vec::new(alloc);
    for (row, needs) in right.iter().enumerate() {
        let mut entries = Vec::new(alloc);
        for column in columns {
            entries.push(column.get(row).copied().unwrap_or(0))?;
        }
        entries.push(*needs)?;
        rows.push(entries)?;
    }
    Ok(rows)
}

/// Some marks for a program, in which about one pairing in six must be flown or left open.
pub(crate) fn made_marks(
    alloc: Global,
    chance: &mut Chance,
    program: &Small,
) -> Result<Marks, AllocError> {
    let mut marks = Marks::nothing(alloc);
    if chance.below(2) == 1 {
        let pairings = program.penalties.len().saturating_add(1);
        marks.least = chance.below(pairings as u64) as usize;
        marks.most = marks.least.saturating_add(chance.below(2) as usize);
    }
    for p in 0..program.penalties.len().min(512) {
        match chance.below(12) {
            0 => marks.flown.put(p),
            1 => marks.left_open.put(p),
            _ => {}
        }
    }
    for _ in 0..program.idle.len() {
        let mut allowed = Allowed {
            possible: Set::empty(),
            certain: Set::empty(),
        };
        for p in 0..program.penalties.len().min(512) {
            let turn = chance.below(10);
            if turn > 1 {
                allowed.possible.put(p);
            }
            if turn == 9 {
                allowed.certain.put(p);
            }
        }
        marks.allowed.push(allowed)?;
    }
    Ok(marks)
}

/// What is forbidden in a program.
#[derive(Drop)]
pub(crate) struct Marks {
    pub(crate) allowed: Vec<Allowed>,
    pub(crate) flown: Set,
    pub(crate) left_open: Set,
    // How many pairings are open, at least and at most.
    pub(crate) least: usize,
    pub(crate) most: usize,
}

impl Marks {
    /// Nothing.
    pub(crate) fn nothing(alloc: Global) -> Marks {
        Marks {
            allowed: Vec::new(alloc),
            flown: Set::empty(),
            left_open: Set::empty(),
            least: 0,
            most: usize::MAX,
        }
    }

    /// Whether person `k` may have a line of these pairings, told pairing by pairing.
    pub(crate) fn allows(&self, k: usize, set: &Set) -> bool {
        for p in 0..512 {
            if set.has(p) && self.left_open.has(p) {
                return false;
            }
            if let Some(allowed) = self.allowed.get(k) {
                if set.has(p) && !allowed.possible.has(p) {
                    return false;
                }
                if allowed.certain.has(p) && !set.has(p) {
                    return false;
                }
            }
        }
        true
    }
}

/// Whether the value is the fraction to within a part for each row.
pub(crate) fn is_near(value: i64, least: Fraction, rows: usize) -> bool {
    let off = i128::from(value)
        .wrapping_mul(least.denominator)
        .wrapping_sub(least.numerator);
    off.unsigned_abs()
        <= (rows as i128)
            .wrapping_mul(least.denominator)
            .unsigned_abs()
}

/// Whether no dual is beyond its limit; clauses say so too.
pub(crate) fn are_limited(master: &Master) -> bool {
    master
        .prices()
        .iter()
        .all(|price| price.unsigned_abs() <= MOST_DUAL)
}
