//! What is asked of a line that stays.

ghost use Rattle.std.specs.Prelude.{◌≡◌};
ghost use Rattle.roster_search_regions.specs.Tests.{passes};
ghost use Rattle.roster_search_regions.specs.Trees.{agrees};

use crate::path::Path;
use roster_values::Set;

/// What is asked of a line.
#[derive(Drop)]
pub(crate) enum Test<'a> {
    /// Nothing.
    Any,
    /// It has the pairing at a place, or it hasn't.
    Having(usize, bool),
    /// It has none of the pairings of the set.
    Lacking(&'a Set),
}

impl<'a> Test<'a> {
    /// Whether the line of the path passes.
    pub(crate) fn passes(&self, path: &Path) -> bool
        ensures { result ≡ passes self.now path.now }
    {
        match self {
            Test::Any => true,
            Test::Having(p, wanted) => is_wanted(*wanted, path.has(*p)),
            Test::Lacking(taken) => path.lacks(taken),
        }
    }
}

/// Whether a test answers what is wanted.
fn is_wanted(wanted: bool, answer: bool) -> bool
    ensures { result ≡ agrees wanted answer }
{
    if wanted { answer } else { !answer }
}
