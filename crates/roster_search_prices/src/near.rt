//! The lines that count at some prices.

ghost use Rattle.std.specs.Prelude.{◌<◌, length};
ghost use Rattle.roster_search_regions.specs.Regions.{IsRegion};

use crate::look::Look;
use crate::picking::sample;
use crate::tuning::{
    FEW_LINES_TO_LOOK_AT, LEAST_NEAR_LOOKS, MOST_MISLED, MOST_NEAR_LOOKS, SAMPLE_LINES,
    SAMPLE_STEPS,
};
use roster_problem::Problem;
use roster_search_regions::{Choice, PersonLines, Region};
use std::alloc::{AllocError, Global};

/// Which lines the next look is at.
#[derive(Clone, Copy)]
enum Stage {
    All,
    Sample,
    Near,
}

/// For each person the lines that are near the least at the prices, or a sample of all: looks at them alone
/// tell nearly as much as looks at all. If no list is there of a person, all lines count.
#[derive(Drop)]
pub(crate) struct NearLines {
    stage: Stage,
    // By person.
    lists: Vec<Vec<Choice>>,
    // How many lines are in them.
    count: usize,
    // How many looks there were since the lists were made, and how many may be.
    looks: u32,
    most_looks: u32,
    // How often in a row lists hadn't all that counted.
    misled: u32,
    // How far prices went since then, and how far they may.
    drift: i64,
    reach: i64,
}

impl NearLines {
    /// All lines count.
    pub(crate) fn all(alloc: Global) -> NearLines {
        NearLines {
            stage: Stage::All,
            lists: Vec::new(alloc),
            count: 0,
            looks: 0,
            most_looks: LEAST_NEAR_LOOKS,
            misled: 0,
            drift: 0,
            reach: 0,
        }
    }

    /// The lines of person `k` that count.
    pub(crate) fn choices<'a>(&'a self, region: &'a Region, k: usize) -> PersonLines<'a>
        requires { k < length region.now.choices }
    {
        if self.is_all() || k >= self.lists.len() || self.lists[k].is_empty() {
            return PersonLines::All(region.choices(k));
        }
        PersonLines::Picked(&self.lists[k])
    }

    /// Whether all lines count.
    pub(crate) fn is_all(&self) -> bool {
        matches!(self.stage, Stage::All)
    }

    /// Whether a sample of all lines counts.
    pub(crate) fn is_sample(&self) -> bool {
        matches!(self.stage, Stage::Sample)
    }

    /// Whether the next look is to be at all lines.
    pub(crate) fn is_due(&self) -> bool {
        self.is_all() || self.looks >= self.most_looks || self.drift > self.reach
    }

    /// Whether that look is to make lists, of so many lines.
    pub(crate) fn is_to_be_made(&self, lines: usize) -> bool {
        if self.misleads(lines) {
            return false;
        }
        !self.is_all() || self.looks == 0 || self.looks >= LEAST_NEAR_LOOKS
    }

    /// Whether lists have misled so often that of so many lines all are to count.
    pub(crate) fn misleads(&self, lines: usize) -> bool {
        self.misled >= MOST_MISLED && lines <= FEW_LINES_TO_LOOK_AT
    }

    /// Whether no list was made yet.
    pub(crate) fn is_new(&self) -> bool {
        self.lists.is_empty()
    }

    /// One look more.
    pub(crate) fn count_look(&mut self) {
        self.looks = self.looks.saturating_add(1);
    }

    /// Prices went so far.
    pub(crate) fn drift(&mut self, far: i64) {
        self.drift = self.drift.saturating_add(far);
    }

    /// The next look is at all of so many lines. If they are few, it tells whether lists misled.
    pub(crate) fn hurry(&mut self, lines: usize) {
        if lines > FEW_LINES_TO_LOOK_AT {
            self.leave();
        } else {
            self.looks = self.looks.max(self.most_looks);
        }
    }

    /// All lines count again. The next look makes lists anew.
    pub(crate) fn leave(&mut self) {
        self.stage = Stage::All;
        self.looks = 0;
    }

    /// Lists for all persons, without a line.
    fn clear(&mut self, alloc: Global, persons: usize) -> Result<(), AllocError> {
        self.lists.clear();
        for _ in 0..persons {
            self.lists.push(Vec::new(alloc))?;
        }
        self.count = 0;
        self.looks = 0;
        self.drift = 0;
        Ok(())
    }

    /// Puts the list of person `k` in its place.
    fn put(&mut self, k: usize, choices: Vec<Choice>) {
        self.count = self.count.wrapping_add(choices.len());
        if k < self.lists.len() {
            self.lists[k] = choices;
        }
    }

    /// Lists a sample of the lines of these persons, of so many lines in all.
    pub(crate) fn draw(
        &mut self,
        alloc: Global,
        problem: &Problem,
        region: &Region,
        persons: &[usize],
        lines: usize,
    ) -> Result<(), AllocError>
        requires { IsRegion problem.now region.now }
    {
        self.clear(alloc, problem.persons().len())?;
        for k in persons {
            if *k < problem.persons().len() {
                let all = PersonLines::All(region.choices(*k));
                let choices = sample(alloc, &all, lines / SAMPLE_LINES)?;
                self.put(*k, choices);
            }
        }
        self.stage = Stage::Sample;
        self.most_looks = SAMPLE_STEPS;
        self.reach = i64::MAX;
        Ok(())
    }

    /// Begins to take the lists that looks have made, for lines that lie within this reach of the least.
    pub(crate) fn begin(
        &mut self,
        alloc: Global,
        persons: usize,
        reach: i64,
    ) -> Result<(), AllocError> {
        self.clear(alloc, persons)?;
        if self.is_sample() {
            self.most_looks = LEAST_NEAR_LOOKS;
        }
        self.stage = Stage::Near;
        self.reach = reach;
        Ok(())
    }

    /// Takes the lists that a look has made.
    pub(crate) fn take(&mut self, look: &mut Look) {
        for _ in 0..look.listed() {
            if let Some(list) = look.next_list() {
                self.put(list.k, list.choices);
            }
        }
    }

    /// Ends that. If the lists have most of so many lines, looks at them would save nothing.
    pub(crate) fn end(&mut self, lines: usize) {
        if self.count >= lines / 2 {
            self.leave();
            self.looks = 1;
        }
    }

    /// Looks are at all lines less often, if the lists had all that counted, or else more often.
    pub(crate) fn trust(&mut self, had_all: bool) {
        if had_all {
            self.misled = 0;
            self.most_looks = self.most_looks.saturating_mul(2).min(MOST_NEAR_LOOKS);
        } else {
            self.misled = self.misled.saturating_add(1);
            self.most_looks = (self.most_looks / 2).max(LEAST_NEAR_LOOKS);
        }
    }
}
