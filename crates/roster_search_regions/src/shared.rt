//! Trees that several regions have.

ghost use Rattle.std.specs.Prelude.{◌≡◌, IfOk};

use crate::tree::Tree;
use std::alloc::{AllocError, Global};
use std::marker::Model;
use std::sync::Arc;

/// The lines that a person may still have. Copies of it are one tree in memory.
#[derive(Drop)]
pub(crate) struct Shared {
    tree: Arc<Tree, Global>,
}

impl Model for Shared {
    ghost use Rattle.std.specs.Prelude.{List};
    ghost use Rattle.std.specs.Arc.{arc_value};
    ghost use Rattle.roster_search_regions.specs.Regions.{AllowedLine};

    ghost Value = { List AllowedLine };

    ghost view = { λ s. arc_value s.tree };
}

impl Shared {
    /// Those of the tree.
    pub(crate) fn new(alloc: Global, tree: Tree) -> Result<Shared, AllocError>
        ensures { IfOk result (λ shared. shared ≡ tree) }
    {
        let tree = Arc::new(alloc, tree)?;
        Ok(Shared { tree })
    }

    /// The tree.
    pub(crate) fn tree(&self) -> &Tree
        ensures { result.now ≡ self.now }
    {
        &self.tree
    }

    /// The same lines.
    pub(crate) fn copy(&self) -> Result<Shared, AllocError>
        ensures { IfOk result (λ shared. shared ≡ self.now) }
    {
        let tree = Arc::try_clone(&self.tree)?;
        Ok(Shared { tree })
    }
}
