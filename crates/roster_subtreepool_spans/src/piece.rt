//! Spans that are to be searched, and those that were.

ghost use Rattle.std.specs.Prelude.{◌≡◌};

use crate::span::Span;
use roster_values::Roster;
use std::marker::Model;
use std::sync::Arc;

/// A span that someone has to search. It can't be copied, and it must be spent: by the search's `Done`, or
/// by `forgo`. Contracts see it as its span.
pub struct Piece {
    span: Span,
}

impl Model for Piece {
    ghost use Rattle.roster_subtreepool_spans.specs.Spans as model;

    ghost Value = { model.Span };

    ghost view = { λ p. p.span };
}

impl Piece {
    /// The piece with this span.
    pub fn of(span: Span) -> Piece
        ensures { result ≡ span }
    {
        Piece { span }
    }

    /// Its span.
    pub fn span(&self) -> &Span
        ensures { result.now ≡ self.now }
    {
        &self.span
    }

    /// Spends the piece of a run that has failed.
    pub fn forgo(self) {
        let Piece { span: _ } = self;
    }
}

/// A piece whose span is settled, and by which roster. It must be spent, as a piece must.
pub struct Done {
    /// The piece.
    pub piece: Piece,
    /// The roster.
    pub best: Arc<Roster>,
}
