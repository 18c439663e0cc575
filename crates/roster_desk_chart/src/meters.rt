//! How much of each limit a person uses.

ghost use Rattle.std.specs.Prelude.{◌≡◌, ◌<◌, ◌++◌, OnOk, length};
ghost use Rattle.roster_values.specs.View.{limit_of};
ghost use Rattle.roster_desk_chart.specs.Meters as spec;
ghost use Rattle.roster_desk_chart.specs.Meters.{IsMeter, column_of, head_of, meter_of, most_of};
ghost use Rattle.roster_desk_chart.specs.Meters.{percent_of, used_of};

use crate::html::push_text;
use roster_desk_words::{push_all, push_limit};
use roster_legal_reasons::{Amount, standing};
use roster_problem::{DutyList, Problem};
use roster_values::Limit;
use std::alloc::{AllocError, Global};

/// The minutes that are used, and those that there may be.
fn minutes_of(amount: Amount) -> (u64, u64)
    ensures used { result.0 ≡ used_of amount }
    ensures most { result.1 ≡ most_of amount }
{
    match amount {
        Amount::Run(run) => (run.minutes, run.most),
        Amount::Month(month) => (month.carried.saturating_add(month.flown), month.most),
    }
}

/// How much of the limit is used, in percent, 100 at most, and also if there may be nothing.
fn part(used: u64, most: u64) -> u64
    ensures { result ≡ percent_of used most }
{
    if used >= most {
        return 100;
    }
    (u128::from(used) * 100 / u128::from(most)) as u64
}

/// The class of a meter, of its own if the limit is passed.
fn class_of(is_over: bool) -> &'static [u8]
    ensures { result.now ≡ spec.class_of is_over }
{
    if is_over { b" class=\"o\"" } else { b"" }
}

/// Appends what a meter begins with, which tells the title.
fn push_head(out: &mut Vec<u8>, title: &[u8], is_over: bool) -> Result<(), AllocError>
    ensures { OnOk result (out.new.items ≡ out.old.items ++ head_of is_over title.now) }
{
    let class = class_of(is_over);
    push_all(out, &[b"<span tabindex=\"-1\"", class, b" title=\""])?;
    push_text(out, title)?;
    Ok(())
}

/// Appends the column of a meter, so many percent high.
fn push_column(alloc: Global, out: &mut Vec<u8>, height: u64) -> Result<(), AllocError>
    ensures { OnOk result (out.new.items ≡ out.old.items ++ column_of height) }
{
    let height = height.to_string(alloc)?;
    out.extend_from_slice(b"\"><em style=\"height:")?;
    out.extend_from_slice(height.as_bytes())?;
    out.extend_from_slice(b"%\"></em></span>")
}

/// Appends the meter of an amount, which tells the title.
fn push_amount(
    alloc: Global,
    out: &mut Vec<u8>,
    title: &[u8],
    amount: Amount,
) -> Result<(), AllocError>
    ensures { OnOk result (out.new.items ≡ out.old.items ++ meter_of title.now amount) }
{
    let (used, most) = minutes_of(amount);
    push_head(out, title, used > most)?;
    push_column(alloc, out, part(used, most))
}

/// Appends the meter of a limit.
fn push_meter(
    alloc: Global,
    out: &mut Vec<u8>,
    problem: &Problem,
    k: usize,
    list: &DutyList,
    limit: Limit,
) -> Result<(), AllocError>
    requires { k < length problem.now.persons }
    ensures { OnOk result
        (IsMeter problem.now k list.now (limit_of limit) out.old.items out.new.items) }
{
    let amount = standing(problem, k, list, limit);
    let mut title = Vec::new(alloc);
    push_limit(alloc, &mut title, problem, k, limit, amount)?;
    push_amount(alloc, out, title.as_slice(), amount)
}

/// Appends the meters of person `k` with the duties of the list, one for each limit.
pub(crate) fn push_meters(
    alloc: Global,
    out: &mut Vec<u8>,
    problem: &Problem,
    k: usize,
    list: &DutyList,
) -> Result<(), AllocError>
    requires { k < length problem.now.persons }
{
    out.extend_from_slice(b"<div class=\"g\">")?;
    for limit in Limit::ALL {
        push_meter(alloc, out, problem, k, list, limit)?;
    }
    out.extend_from_slice(b"</div>")
}

/// A limit's name over its meter.
fn short_name(limit: Limit) -> &'static [u8] {
    match limit {
        Limit::Duty7 => b"7",
        Limit::Duty14 => b"14",
        Limit::Duty28 => b"28",
        Limit::Flight28 => b"F",
        Limit::FlightYear => b"Y",
        Limit::Flight12 => b"12",
    }
}

/// Appends the names of the limits over their meters.
pub(crate) fn push_names(out: &mut Vec<u8>) -> Result<(), AllocError> {
    out.extend_from_slice(b"<div class=\"h\">")?;
    for limit in Limit::ALL {
        let word = limit.rule().word().as_bytes();
        push_all(
            out,
            &[
                b"<span title=\"",
                word,
                b"\">",
                short_name(limit),
                b"</span>",
            ],
        )?;
    }
    out.extend_from_slice(b"</div>")
}
