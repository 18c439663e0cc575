//! Lines that a table and others have together.

ghost use Rattle.std.specs.Prelude.{◌≡◌, IfOk};

use crate::lines::Lines;
use std::alloc::{AllocError, Global};
use std::marker::Model;
use std::sync::Arc;

/// The lines of a person. Copies of it are one list in memory.
#[derive(Drop)]
pub struct SharedLines {
    lines: Arc<Lines, Global>,
}

impl Model for SharedLines {
    ghost use Rattle.std.specs.Prelude.{List};
    ghost use Rattle.std.specs.Arc.{arc_value};
    ghost use Rattle.roster_lines_table.specs.Entries.{Entry};

    ghost Value = { List Entry };

    ghost view = { λ s. arc_value s.lines };
}

impl SharedLines {
    /// Those of the list.
    pub(crate) fn new(alloc: Global, lines: Lines) -> Result<SharedLines, AllocError>
        ensures { IfOk result (λ shared. shared ≡ lines) }
    {
        let lines = Arc::new(alloc, lines)?;
        Ok(SharedLines { lines })
    }

    /// The list.
    pub fn lines(&self) -> &Lines
        ensures { result.now ≡ self.now }
    {
        &self.lines
    }

    /// The same lines.
    pub fn copy(&self) -> Result<SharedLines, AllocError>
        ensures { IfOk result (λ shared. shared ≡ self.now) }
    {
        let lines = Arc::try_clone(&self.lines)?;
        Ok(SharedLines { lines })
    }
}
