//! Who is nearest to a pairing.

ghost use Rattle.std.specs.Prelude.{◌≡◌, ◌<◌, length};

use crate::teller::Teller;
use crate::words::{pairing_name, push_all};
use roster_desk_given::{
    Near, Nearness, duties_with, fits_nobody, nearest, with_outcome, within, without,
};
use roster_legal_reasons::Reason;
use roster_problem::open_number;
use std::alloc::AllocError;

/// Whether the person can have the pairing.
fn is_able(near: &Near) -> bool {
    matches!(near.nearness, Nearness::Costs(_))
}

/// How many of the persons can have the pairing.
fn able(all: &[Near]) -> usize {
    let mut able = 0usize;
    for near in all {
        if is_able(near) {
            able = able.saturating_add(1);
        }
    }
    able
}

impl<'a> Teller<'a> {
    /// How many of the persons can have the pairing if they give up one.
    fn able_without(&self, p: usize, all: &[Near]) -> Result<usize, AllocError>
        requires { p < length self.now.problem.pairings }
    {
        let mut able = 0usize;
        for near in all {
            let k = near.person;
            if k < self.problem.persons().len()
                && without(self.alloc, self.problem, self.places, p, k)?.is_some()
            {
                able = able.saturating_add(1);
            }
        }
        Ok(able)
    }

    /// Appends what is true for everybody: nobody can fly the pairing, by its own duties.
    fn push_within(
        &self,
        out: &mut Vec<u8>,
        p: usize,
        k: usize,
        reason: Reason,
    ) -> Result<(), AllocError>
        requires pairing { p < length self.now.problem.pairings }
        requires person { k < length self.now.problem.persons }
    {
        let problem = self.problem;
        let mut bare = vec![in self.alloc; open_number(problem); problem.pairings().len()]?;
        bare[p] = k as u16;
        let list = duties_with(self.alloc, problem, bare.as_slice(), k)?;
        out.extend_from_slice(b"nobody can fly it: ")?;
        self.push_told(out, k, &list, reason)
    }

    /// Appends how many persons can have the pairing, and who is nearest, of whom there is one.
    fn push_nearest(&self, out: &mut Vec<u8>, p: usize, all: &[Near]) -> Result<(), AllocError>
        requires { p < length self.now.problem.pairings }
    {
        let count = all.len();
        let able = able(all);
        if able > 0 {
            let head = format!(in self.alloc; "{able} of {count} can have it; first ")?;
            out.extend_from_slice(head.as_bytes())?;
        } else {
            let others = self.able_without(p, all)?;
            let head = format!(in self.alloc;
                "0 of {count} can have it, {others} if they give up one pairing; nearest "
            )?;
            out.extend_from_slice(head.as_bytes())?;
        }
        match all.first() {
            Some(near) if near.person < self.problem.persons().len() => {
                self.push_outcome(out, p, near.person)
            }
            _ => Ok(()),
        }
    }

    /// Appends what is told first of the pairing at place `p`: what is true for everybody if there is such a
    /// thing, and else who is nearest.
    pub fn push_summary(&self, out: &mut Vec<u8>, p: usize) -> Result<(), AllocError>
        requires { p < length self.now.problem.pairings }
    {
        let all = nearest(self.alloc, self.problem, self.places, p)?;
        if all.is_empty() {
            return out.extend_from_slice(b"nobody is at home at its base");
        }
        if fits_nobody(self.alloc, self.problem, p)? {
            if let Some((k, reason)) = within(self.alloc, self.problem, p)? {
                return self.push_within(out, p, k, reason);
            }
        }
        self.push_nearest(out, p, all.as_slice())
    }

    /// Appends the line of the person who is so near: what the roster would cost if the person had the
    /// pairing too, or why that isn't legal, and without which pairing it would be.
    pub fn push_near(&self, out: &mut Vec<u8>, p: usize, near: &Near) -> Result<(), AllocError>
        requires { p < length self.now.problem.pairings }
    {
        let k = near.person;
        if k >= self.problem.persons().len() {
            return Ok(());
        }
        self.push_pairing(out, p)?;
        self.push_outcome(out, p, k)?;
        if !is_able(near) {
            if let Some(q) = without(self.alloc, self.problem, self.places, p, k)? {
                let name = pairing_name(self.problem, q);
                push_all(out, &[b"; can have it without ", name])?;
            }
        }
        out.extend_from_slice(b"\n")
    }

    /// Appends the line that is told first of the pairing at place `p`.
    fn push_first(&self, out: &mut Vec<u8>, p: usize) -> Result<(), AllocError>
        requires { p < length self.now.problem.pairings }
    {
        self.push_pairing(out, p)?;
        out.extend_from_slice(b"- ")?;
        self.push_summary(out, p)?;
        out.extend_from_slice(b"\n")
    }

    /// Of the pairing at place `p` what is told first, and then a line for each person of its base, the
    /// nearest first.
    pub fn pairing_text(&self, p: usize) -> Result<Vec<u8>, AllocError>
        requires { p < length self.now.problem.pairings }
    {
        let mut out = Vec::new(self.alloc);
        self.push_first(&mut out, p)?;
        for near in nearest(self.alloc, self.problem, self.places, p)? {
            self.push_near(&mut out, p, &near)?;
        }
        Ok(out)
    }

    /// Which rule each person breaks with what they have, or is locked by, and then of each open pairing what
    /// is told first.
    pub fn open_text(&self) -> Result<Vec<u8>, AllocError> {
        let mut out = Vec::new(self.alloc);
        self.push_all_broken(&mut out, None)?;
        for p in 0..self.places.len() {
            if self.places[p] == open_number(self.problem) {
                self.push_first(&mut out, p)?;
            }
        }
        Ok(out)
    }
}
