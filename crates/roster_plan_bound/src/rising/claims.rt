//! What is claimed at the best prices: looked at, and shown by searches.

ghost use Rattle.std.specs.Prelude.{◌≡◌, ◌<◌, ◌≤ℤ◌};
ghost use Rattle.roster_plan_bound.specs.Looks.{IsLook};
ghost use Rattle.roster_plan_bound.specs.Reduced.{ArePrices};

use crate::dearness::most_units;
use crate::parts::PARTS;
use crate::persons::{check, renew_all};
use crate::prices::limited;
use crate::pricing::Priced;
use crate::rising::PricedBound;
use crate::team::Team;
use crate::tuning::{MOST_TRUST, VISITS_A_LOOK};
use std::alloc::{AllocError, Global};
use std::thread::Threads;

impl<'a> PricedBound<'a> {
    /// Finds columns at the prices, and keeps these if more is claimed at them than at any before.
    pub(super) fn look<R: Threads + Sync>(
        &mut self,
        team: &Team<'_, R>,
        prices: Vec<i64>,
    ) -> Result<(), AllocError>
        requires threads { 0 < team.now.threads }
        requires prices { ArePrices self.old.problem prices.items }
        ensures { self.new ≡ self.old }
    {
        renew_all(team, self.pricing, &self.persons, &prices, &mut self.seen);
        check(&self.seen)?;
        self.claim_again(team.alloc)?;
        let claim = self.pricing.claim(self.base, &prices, &self.seen);
        let gain = claim.saturating_sub(self.claim);
        self.pace = self.pace.after(gain, most_units(self.pricing.problem()));
        self.idle = if gain.unsigned_abs() >= PARTS {
            0
        } else {
            self.idle.wrapping_add(1)
        };
        if gain > 0 {
            self.claim = claim;
            self.claimed = prices;
        }
        Ok(())
    }

    /// Claims at the best prices again: columns that are new may cost less there than those that claimed
    /// before.
    fn claim_again(&mut self, alloc: Global) -> Result<(), AllocError>
        ensures { self.new ≡ self.old }
    {
        let prices = limited(alloc, self.pricing.problem(), &self.claimed)?;
        let claim = self.pricing.claim(self.base, &prices, &self.seen);
        self.claim = self.claim.min(claim);
        self.go_back(alloc)
    }

    /// Shows what is claimed if that is due, or if it is what a known roster costs.
    pub(super) fn show_if_due<R: Threads + Sync>(
        &mut self,
        team: &Team<'_, R>,
        known: i64,
    ) -> Result<(), AllocError>
        requires { 0 < team.now.threads }
        ensures problem { self.new.problem ≡ self.old.problem }
        ensures base { self.new.base ≡ self.old.base }
        ensures raised { self.old.bound ≤ℤ self.new.bound }
    {
        self.unshown = self.unshown.wrapping_add(1);
        if self.unshown < self.trust && !self.claims(known) {
            return Ok(());
        }
        let visits = self.unshown.saturating_mul(VISITS_A_LOOK);
        self.show(team, visits)
    }

    /// Whether no roster costs less than a known one, if what is claimed is true.
    fn claims(&self, known: i64) -> bool {
        let more = self.claim.saturating_sub(self.priced.parts) / PARTS as i64;
        self.priced.bound.saturating_add(more) >= known
    }

    /// Shows what is claimed at the best prices, if it is more than what is known, by searches that go on
    /// from so many sets of a person at most.
    pub(super) fn show<R: Threads + Sync>(
        &mut self,
        team: &Team<'_, R>,
        visits: u32,
    ) -> Result<(), AllocError>
        requires { 0 < team.now.threads }
        ensures problem { self.new.problem ≡ self.old.problem }
        ensures base { self.new.base ≡ self.old.base }
        ensures raised { self.old.bound ≤ℤ self.new.bound }
    {
        if self.claim <= self.priced.parts {
            return Ok(());
        }
        let prices = limited(team.alloc, self.pricing.problem(), &self.claimed)?;
        let look = self.pricing.look(
            team,
            self.base,
            &self.persons,
            &prices,
            visits,
            &mut self.seen,
        )?;
        let claim = self.pricing.claim(self.base, &prices, &self.seen);
        self.trust_after(claim);
        self.claim = claim;
        self.take(prices, look);
        self.go_back(team.alloc)
    }

    /// Searches wait longer if all that was claimed is true, as far as they came.
    fn trust_after(&mut self, claim: i64)
        ensures { self.new ≡ self.old }
    {
        self.trust = if claim < self.claim {
            1
        } else {
            self.trust.saturating_mul(2).min(MOST_TRUST)
        };
        self.unshown = 0;
    }

    /// If the claim was false, so that the prices of the bound say more, the next looks begin at these.
    fn go_back(&mut self, alloc: Global) -> Result<(), AllocError>
        ensures { self.new ≡ self.old }
    {
        if self.claim < self.priced.parts {
            self.claimed = limited(alloc, self.pricing.problem(), &self.prices)?;
            self.claim = self.priced.parts;
        }
        Ok(())
    }

    /// Takes the prices if the look at them says more.
    fn take(&mut self, prices: Vec<i64>, look: Priced)
        requires prices { ArePrices self.old.problem prices.items }
        requires look { IsLook self.old.problem prices.items self.old.base look.bound look.leasts.items }
        ensures problem { self.new.problem ≡ self.old.problem }
        ensures base { self.new.base ≡ self.old.base }
        ensures raised { self.old.bound ≤ℤ self.new.bound }
        ensures taken { look.bound ≤ℤ self.new.bound }
    {
        let (bound, parts) = (self.priced.bound, self.priced.parts);
        if look.bound < bound || (look.bound == bound && look.parts <= parts) {
            return;
        }
        self.prices = prices;
        self.priced = look;
    }
}
