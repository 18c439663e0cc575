//! What comes to each weight of a whole.

ghost use Rattle.std.specs.Prelude.{◌≡◌, ◌<◌, ◌+◌, ◌*◌, ◌/◌, ◌++◌, ◌∷◌, [], IfErr, IfOk, IfSome, OnOk, sum};
ghost use Rattle.roster_desk_fair.specs.Fair.{share_of, shares_of};
ghost use Rattle.roster_desk_made.specs.Made.{TellsFault};

use roster_desk_made::Unmade;
use std::alloc::{AllocError, Global};

/// The sum of the weights, if it is a machine's number.
fn sum_of(weights: &[u64]) -> Option<u64>
    ensures { IfSome result (λ whole. whole ≡ sum weights.now) }
{
    let mut whole = 0u64;
    for i in 0..weights.len() {
        whole = whole.checked_add(weights[i])?;
    }
    Some(whole)
}

/// The flight of the first weights, rounded down, if it is a machine's number.
fn part(flight: u64, whole: u64, weights: u64) -> Option<u64>
    requires { 0 < whole }
    ensures { IfSome result (λ minutes. minutes ≡ flight * weights / whole) }
{
    Some(flight.checked_mul(weights)? / whole)
}

/// What comes to a weight, where those before it come to so much.
fn share(flight: u64, whole: u64, before: u64, own: u64) -> Option<u64>
    requires { 0 < whole }
    ensures { IfSome result (λ minutes. minutes ≡ share_of flight whole before own) }
{
    let upto = part(flight, whole, before.checked_add(own)?)?;
    let earlier = part(flight, whole, before)?;
    Some(upto.saturating_sub(earlier))
}

/// The share of a weight, and what it and those before it come to; none if a number is no machine's.
fn next_share(flight: u64, whole: u64, before: u64, own: u64) -> Option<(u64, u64)>
    requires { 0 < whole }
    ensures { IfSome result (λ next. (next.0 ≡ share_of flight whole before own) × (next.1 ≡ before + own)) }
{
    let minutes = share(flight, whole, before, own)?;
    let upto = before.checked_add(own)?;
    Some((minutes, upto))
}

/// Puts the number behind the others.
pub(crate) fn push(numbers: &mut Vec<u64>, number: u64) -> Result<(), AllocError>
    ensures { OnOk result (numbers.new.items ≡ numbers.old.items ++ number ∷ []) }
{
    numbers.push(number)?;
    Ok(())
}

/// The shares of the weights in the flight, unless nothing counts or a number is no machine's.
pub(crate) fn shares(alloc: Global, flight: u64, weights: &[u64]) -> Result<Vec<u64>, Unmade>
    ensures found { IfOk result (λ shares. shares.items ≡ shares_of flight weights.now) }
    ensures fault { IfErr result TellsFault }
{
    let Some(whole) = sum_of(weights) else {
        return Err(Unmade::Unlike);
    };
    if whole == 0 {
        return Err(Unmade::Unlike);
    }
    let mut shares = Vec::new(alloc);
    let mut before = 0u64;
    for i in 0..weights.len() {
        let Some((minutes, upto)) = next_share(flight, whole, before, weights[i]) else {
            return Err(Unmade::Unlike);
        };
        push(&mut shares, minutes)?;
        before = upto;
    }
    Ok(shares)
}
