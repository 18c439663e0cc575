//! Who is next to get a column of theirs: whose best column has the greatest share. Nothing rests on it.

use crate::persons::Seen;
use std::alloc::{AllocError, Global};

/// Of one who is left, the column of the greatest share. A share is so many parts of `ONE`.
#[derive(Clone, Copy)]
pub(crate) struct Choice {
    pub(crate) at: usize,
    pub(crate) column: usize,
    pub(crate) share: i64,
}

/// Nothing so far, for each column of each.
pub(crate) fn sums_of(alloc: Global, seen: &[Seen]) -> Result<Vec<Vec<i64>>, AllocError> {
    let mut sums = Vec::new(alloc);
    for one in seen {
        let none = vec![in alloc; 0; one.columns.len()]?;
        sums.push(none)?;
    }
    Ok(sums)
}

/// The greatest share of one who is left, of sums of so many shares.
pub(crate) fn greatest(at: usize, sums: &[i64], many: i64) -> Choice {
    let mut choice = Choice {
        at,
        column: 0,
        share: 0,
    };
    for column in 0..sums.len() {
        let share = sums[column] / many.max(1);
        if share > choice.share {
            choice = Choice { at, column, share };
        }
    }
    choice
}

/// The greatest share of those who aren't gone.
pub(crate) fn next_of(choices: &[Choice], gone: &[bool]) -> Option<Choice> {
    let mut next: Option<Choice> = None;
    for choice in choices {
        let is_gone = match gone.get(choice.at) {
            Some(is_gone) => *is_gone,
            None => true,
        };
        let is_less = match next {
            Some(best) => choice.share <= best.share,
            None => false,
        };
        if !is_gone && !is_less {
            next = Some(*choice);
        }
    }
    next
}
