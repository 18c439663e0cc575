//! A part of what is searched, with the roster by which it is settled.

use roster_subtreepool_spans::Span;
use roster_values::Roster;
use std::marker::Model;
use std::sync::Arc;

/// A span that is settled, and by which roster. Plain data. Contracts see it as the span and the roster's
/// key.
#[derive(Drop)]
pub struct Settled {
    /// The span.
    pub span: Span,
    /// The roster.
    pub best: Arc<Roster>,
}

impl Model for Settled {
    ghost use Rattle.std.specs.Arc.{arc_value};
    ghost use Rattle.roster_subtreepool.specs.States.{SettledSpan};

    ghost Value = { SettledSpan };

    ghost view = { λ s. record { span = s.span; best = arc_value s.best } };
}
