//! The lines that a person may still have.

ghost use Rattle.std.specs.Prelude.{◌≡◌, ◌⊎◌, ℕ, true, List, [], All, IfOk, MatchBool, Some, filter, length};
ghost use Rattle.std.specs.Prelude.{map, slice_get, ◌≤ℤ◌, int_le};
ghost use Rattle.roster_model.specs.Rules.{is_among};
ghost use Rattle.roster_cost.specs.Amounts.{IsWithin, most_extra};
ghost use Rattle.roster_lines_table.specs.Entries.{sets_of};
ghost use Rattle.roster_search_regions.specs.Building.{allowed_in, extra_in, AreCounted};
ghost use Rattle.roster_search_regions.specs.Marks.{picked, IsMarking};
ghost use Rattle.roster_search_regions.specs.declared.choice.Choice.{Choice as PlainChoice};
ghost use Rattle.roster_search_regions.specs.Prices.{value_of, ArePrices};
ghost use Rattle.roster_search_regions.specs.Regions.{AllowedLine};
ghost use Rattle.roster_search_regions.specs.Tests.{passes};
ghost use Rattle.roster_search_regions.specs.Trees.{agrees, lacks, lines_in, AreCertain, ArePossible, HasJust, Offers};

use crate::all_lines::AllLines;
use crate::choice::{Choice, MOST_VALUE};
use crate::choices::Choices;
use crate::marker::Marker;
use crate::marking::{marks_passing, marks_within};
use crate::path::Path;
use crate::sums::Sums;
use crate::test::Test;
use crate::writer::Writer;
use roster_lines_table::SharedLines;
use roster_values::Set;
use std::alloc::{AllocError, Global};
use std::marker::Model;

/// Lines stay in the table if more than one in so many is left. To read a line there takes as long whether
/// it is left or not.
const SPARSE: usize = 4;

/// Whether so many lines of so many are copied. One line always is: all other choices are then on the way to
/// it, as looks at prices suppose.
fn is_sparse(count: usize, rows: usize) -> bool {
    if count < 2 {
        return true;
    }
    count < rows / SPARSE
}

/// Where the choices of a tree stand.
#[derive(Drop)]
enum Held {
    /// In the table: all lines of a person, of which some are left.
    Table(AllLines),
    /// In the tree itself.
    Own(Vec<Choice>),
}

/// The lines that a person may still have, as a tree. Contracts see their list.
#[derive(Drop)]
pub(crate) struct Tree {
    held: Held,
    possible: Set,
    certain: Set,
    count: usize,
}

impl Model for Tree {
    ghost use Rattle.std.specs.Prelude.{List};
    ghost use Rattle.roster_search_regions.specs.Regions.{AllowedLine};

    ghost Value = { List AllowedLine };

    ghost use Rattle.roster_search_regions.specs.Held.{lines_held, IsKnown};

    ghost view = { λ t. lines_held t.held };

    ghost invariant = { λ t. IsKnown t.held t.possible t.certain t.count };
}

/// The lower of a bound and the value of a line, if the line counts.
fn lower(bound: i64, counts: bool, value: i64) -> i64
    ensures kept { result ≤ℤ bound }
    ensures below { counts ≡ true → result ≤ℤ value }
    ensures either { (result ≡ bound) ⊎ (result ≡ value) }
{
    if counts && value < bound {
        value
    } else {
        bound
    }
}

impl Tree {
    ghost use Rattle.roster_search_regions.specs.Writing.{IsWriting};

    /// What a writer has written.
    pub(crate) fn of(writer: Writer) -> Tree
        requires { (path : List ℕ) × (lines : List AllowedLine) × IsWriting writer path lines }
        ensures { result ≡ lines_in writer.choices.items }
    {
        Tree {
            held: Held::Own(writer.choices),
            possible: writer.possible,
            certain: writer.certain,
            count: writer.count,
        }
    }

    /// All lines of a person, which stay in the table.
    pub(crate) fn whole(alloc: Global, lines: SharedLines, scale: u32) -> Tree
        requires counted { AreCounted scale lines }
        requires near { All (λ entry. IsWithin most_extra (extra_in lines entry)) lines }
        requires first { slice_get (sets_of lines) 0 ≡ Some [] }
        ensures { result ≡ map (allowed_in scale lines) lines }
    {
        let count = lines.lines().width();
        let all = AllLines::new(alloc, lines, scale);
        let possible = all.rows().possible();
        // The empty line is one of them.
        let certain = Set::empty();
        Tree {
            held: Held::Table(all),
            possible,
            certain,
            count,
        }
    }

    /// Those of the lines that are marked, which stay in the table if they are many, and else are copied.
    fn marked(alloc: Global, lines: &AllLines, marker: Marker) -> Result<Tree, AllocError>
        requires { (choices : List PlainChoice) × (kept : List AllowedLine)
            × IsMarking marker choices kept × (picked marker.marks.items lines.now.all ≡ kept) }
        ensures { IfOk result (λ tree. tree ≡ picked marker.marks.items lines.now.all) }
    {
        let Marker {
            marks,
            possible,
            certain,
            count,
        } = marker;
        let rows = lines.len();
        let tree = Tree {
            held: Held::Table(lines.with_marks(marks)?),
            possible,
            certain,
            count,
        };
        tree.copied_if(alloc, is_sparse(count, rows))
    }

    /// The same lines, copied if that is wanted.
    fn copied_if(self, alloc: Global, wanted: bool) -> Result<Tree, AllocError>
        ensures { IfOk result (λ tree. tree ≡ self) }
    {
        if wanted {
            return self.copied_passing(alloc, &Test::Any);
        }
        Ok(self)
    }

    /// The tree's choices.
    pub(crate) fn choices(&self) -> Choices<'_>
        ensures { lines_in result ≡ self.now }
    {
        match &self.held {
            Held::Table(lines) => return Choices::of_table(lines.rows()),
            Held::Own(choices) => return Choices::of_tree(choices),
        }
    }

    /// How many lines there are.
    pub(crate) fn count(&self) -> usize
        ensures { result ≡ length self.now }
    {
        self.count
    }

    /// The pairings that some of the lines have.
    pub(crate) fn possible(&self) -> Set
        ensures { ArePossible self.now result }
    {
        self.possible
    }

    /// The pairings that all of the lines have, if there are any.
    pub(crate) fn certain(&self) -> Set
        ensures { AreCertain self.now result }
    {
        self.certain
    }

    /// Whether it is known that `having` would take no line away.
    pub(crate) fn keeps_all(&self, p: usize, wanted: bool) -> bool
        ensures { result ≡ true
            → filter (λ line. agrees wanted (is_among line.set p)) self.now ≡ self.now }
    {
        if wanted {
            self.certain.has(p)
        } else {
            !self.possible.has(p)
        }
    }

    /// The lines that have the pairing at place `p`, or those that haven't.
    pub(crate) fn having(&self, alloc: Global, p: usize, wanted: bool) -> Result<Tree, AllocError>
        ensures { IfOk result
            (λ tree. tree ≡ filter (λ line. agrees wanted (is_among line.set p)) self.now) }
    {
        self.passing(alloc, &Test::Having(p, wanted))
    }

    /// The lines that have none of the pairings of the set.
    pub(crate) fn lacking(&self, alloc: Global, taken: &Set) -> Result<Tree, AllocError>
        ensures { IfOk result (λ tree. tree ≡ filter (λ line. lacks taken.now line.set) self.now) }
    {
        self.passing(alloc, &Test::Lacking(taken))
    }

    /// The lines that pass.
    fn passing(&self, alloc: Global, test: &Test<'_>) -> Result<Tree, AllocError>
        ensures { IfOk result
            (λ tree. tree ≡ filter (λ line. passes test.now line.set) self.now) }
    {
        match &self.held {
            Held::Table(lines) => {
                let marker = marks_passing(alloc, &lines.rows(), test)?;
                Tree::marked(alloc, lines, marker)
            }
            Held::Own(_) => self.copied_passing(alloc, test),
        }
    }

    /// `passing`, for lines that are copied.
    fn copied_passing(&self, alloc: Global, test: &Test<'_>) -> Result<Tree, AllocError>
        ensures { IfOk result
            (λ tree. tree ≡ filter (λ line. passes test.now line.set) self.now) }
    {
        let choices = self.choices();
        let mut path = Path::new(alloc);
        let mut writer = Writer::new(alloc);
        for i in 0..choices.len() {
            let choice = choices.at(i);
            path.step(&choice)?;
            writer.pass(&choice);
            writer.keep(&path, &choice, test.passes(&path))?;
        }
        Ok(Tree::of(writer))
    }

    /// The lines whose value at the prices is at most so much.
    pub(crate) fn within(
        &self,
        alloc: Global,
        prices: &[i64],
        most: i64,
    ) -> Result<Tree, AllocError>
        requires { ArePrices prices.now }
        ensures { IfOk result
            (λ tree. tree ≡ filter (λ line. int_le (value_of prices.now line) most) self.now) }
    {
        match &self.held {
            Held::Table(lines) => {
                let marker = marks_within(alloc, &lines.rows(), prices, most)?;
                Tree::marked(alloc, lines, marker)
            }
            Held::Own(_) => self.copied_within(alloc, prices, most),
        }
    }

    /// `within`, for lines that are copied.
    fn copied_within(&self, alloc: Global, prices: &[i64], most: i64) -> Result<Tree, AllocError>
        requires { ArePrices prices.now }
        ensures { IfOk result
            (λ tree. tree ≡ filter (λ line. int_le (value_of prices.now line) most) self.now) }
    {
        let choices = self.choices();
        let mut path = Path::new(alloc);
        let mut sums = Sums::new();
        let mut writer = Writer::new(alloc);
        for i in 0..choices.len() {
            let choice = choices.at(i);
            path.step(&choice)?;
            sums.step(&choice, prices);
            writer.pass(&choice);
            writer.keep(&path, &choice, sums.value(&choice) <= most)?;
        }
        Ok(Tree::of(writer))
    }

    /// The least value of a line at the prices, or less.
    pub(crate) fn least(&self, prices: &[i64]) -> i64
        requires { ArePrices prices.now }
        ensures least { All (λ line. result ≤ℤ value_of prices.now line) self.now }
        ensures bound { IsWithin MOST_VALUE result }
    {
        let choices = self.choices();
        let mut sums = Sums::new();
        let mut least = MOST_VALUE as i64;
        for i in 0..choices.len() {
            let choice = choices.at(i);
            sums.step(&choice, prices);
            least = lower(least, choice.live, sums.value(&choice));
        }
        least
    }

    /// The greatest value of a line at the prices; what asks for it counts on nothing.
    pub(crate) fn greatest(&self, prices: &[i64]) -> i64
        requires { ArePrices prices.now }
    {
        let choices = self.choices();
        let mut sums = Sums::new();
        let mut greatest = -(MOST_VALUE as i64);
        for i in 0..choices.len() {
            let choice = choices.at(i);
            sums.step(&choice, prices);
            let value = sums.value(&choice);
            if choice.live && value > greatest {
                greatest = value;
            }
        }
        greatest
    }

    /// Whether one of the lines has just the pairings of the set.
    pub(crate) fn has(&self, alloc: Global, set: &Set) -> Result<bool, AllocError>
        ensures { IfOk result (λ has. MatchBool has (Offers self.now set.now)
            (All (λ line. ¬ HasJust set.now line) self.now)) }
    {
        let choices = self.choices();
        let mut path = Path::new(alloc);
        for i in 0..choices.len() {
            let choice = choices.at(i);
            path.step(&choice)?;
            let same = path.is_same(set);
            if choice.live && same {
                return Ok(true);
            }
        }
        Ok(false)
    }
}
