//! The choices of a tree of lines, wherever they stand.

ghost use Rattle.std.specs.Prelude.{◌≡◌, ◌<◌, All, IfSome, Some, length, slice_get};
ghost use Rattle.roster_search_regions.specs.Trees.{IsLimited};

use crate::choice::Choice;
use crate::rows::Rows;
use std::marker::Model;

/// Where choices stand.
#[derive(Drop)]
enum Source<'a> {
    /// In the table: rows of a person's lines.
    Table(Rows<'a>),
    /// In a tree of their own.
    Tree(&'a [Choice]),
}

/// The choices of a tree of lines, one behind another. Contracts see their list.
#[derive(Drop)]
pub struct Choices<'a> {
    source: Source<'a>,
}

impl<'a> Model for Choices<'a> {
    ghost use Rattle.std.specs.Prelude.{All, List};
    ghost use Rattle.roster_search_regions.specs.declared.choice.Choice.{Choice};
    ghost use Rattle.roster_search_regions.specs.Sources.{choices_from};
    ghost use Rattle.roster_search_regions.specs.Trees.{IsLimited};

    ghost Value = { List Choice };

    ghost view = { λ c. choices_from c.source };

    ghost invariant = { λ c. All IsLimited (choices_from c.source) };
}

impl<'a> Choices<'a> {
    /// Those of a person in the table.
    pub(crate) fn of_table(rows: Rows<'a>) -> Choices<'a>
        ensures { result ≡ rows.entry }
    {
        Choices {
            source: Source::Table(rows),
        }
    }

    /// Choices that stand in a tree of their own.
    pub(crate) fn of_tree(choices: &'a [Choice]) -> Choices<'a>
        requires { All IsLimited choices.now }
        ensures { result ≡ choices.now }
    {
        Choices {
            source: Source::Tree(choices),
        }
    }

    /// The rows of the table, if the choices stand there. Who reads many asks first where they stand: `at`
    /// finds it out again for each.
    pub fn rows(&self) -> Option<&Rows<'a>>
        ensures { IfSome result (λ rows. rows.now ≡ self.now) }
    {
        match &self.source {
            Source::Table(rows) => Some(rows),
            Source::Tree(_) => None,
        }
    }

    /// The choices, if they stand in a tree of their own.
    pub fn own(&self) -> Option<&[Choice]>
        ensures { IfSome result (λ choices. choices.now ≡ self.now) }
    {
        match &self.source {
            Source::Table(_) => None,
            Source::Tree(choices) => Some(choices),
        }
    }

    /// How many there are.
    pub fn len(&self) -> usize
        ensures { result ≡ length self.now }
    {
        match &self.source {
            Source::Table(rows) => rows.len(),
            Source::Tree(choices) => choices.len(),
        }
    }

    /// The choice at a place.
    #[inline]
    pub fn at(&self, i: usize) -> Choice
        requires { i < length self.now }
        ensures value { slice_get self.now i ≡ Some result }
        ensures limited { IsLimited result }
    {
        match &self.source {
            Source::Table(rows) => rows.at(i),
            Source::Tree(choices) => choice_at(choices, i),
        }
    }
}

/// The choice at a place.
#[inline]
fn choice_at(choices: &[Choice], i: usize) -> Choice
    requires { i < length choices.now }
    ensures { slice_get choices.now i ≡ Some result }
{
    choices[i]
}
