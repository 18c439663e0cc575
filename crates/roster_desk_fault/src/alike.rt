//! Names and pairings that are likely meant to be one.

use crate::kinds::Kind;
use crate::rows::Record;
use crate::warning::{Warning, warn};
use std::alloc::{AllocError, Global};
use std::str;

/// Pairings with the same duties are told if they are no more than one of so many.
const OF_PAIRINGS: usize = 10;

/// Warnings of stations that differ from another name only by small and large letters.
pub(crate) fn stations(alloc: Global, rows: &[Record]) -> Result<Vec<Warning>, AllocError> {
    let mut warnings = Vec::new(alloc);
    let mut known = bases_of(alloc, rows)?;
    for (at, row) in rows.iter().enumerate() {
        if !row.is(Kind::Duty) {
            continue;
        }
        let station = row.field(4);
        if known.iter().any(|name| *name == station) {
            continue;
        }
        if let Some(name) = known.iter().find(|name| name.eq_ignore_ascii_case(station)) {
            let name = str::from_utf8(name).unwrap_or("");
            let why = format!(in alloc;
                "the station is `{name}` elsewhere; large and small letters make it another one"
            )?;
            warn(&mut warnings, alloc, at, why.as_str())?;
        }
        known.push(station)?;
    }
    Ok(warnings)
}

/// The names of the bases.
fn bases_of(alloc: Global, rows: &[Record]) -> Result<Vec<&[u8]>, AllocError> {
    let mut names = Vec::new(alloc);
    for row in rows {
        if row.is(Kind::Base) {
            names.push(row.field(1))?;
        }
    }
    Ok(names)
}

/// The places of the pairings' duties, pairing by pairing.
fn duties_of_all(alloc: Global, rows: &[Record]) -> Result<Vec<Vec<usize>>, AllocError> {
    let mut all = Vec::new(alloc);
    for row in rows {
        if row.is(Kind::Pairing) {
            all.push(duties_of(alloc, rows, row.field(1))?)?;
        }
    }
    Ok(all)
}

/// The places of the duties of the pairing of this name.
pub(crate) fn duties_of(
    alloc: Global,
    rows: &[Record],
    name: &[u8],
) -> Result<Vec<usize>, AllocError> {
    let mut places = Vec::new(alloc);
    for (at, row) in rows.iter().enumerate() {
        if row.has(Kind::Duty, 3, name) && row.field(2) == b"P".as_slice() {
            places.push(at)?;
        }
    }
    Ok(places)
}

/// Whether two duties report and release at one time, at one station.
fn is_same_duty(one: Option<&Record>, other: Option<&Record>) -> bool {
    match (one, other) {
        (Some(one), Some(other)) => (4..7).all(|i| one.field(i) == other.field(i)),
        _ => false,
    }
}

/// Whether two lists of duties are the same but for their names.
fn are_same(rows: &[Record], one: &[usize], other: &[usize]) -> bool {
    one.len() == other.len()
        && !one.is_empty()
        && one
            .iter()
            .zip(other)
            .all(|(a, b)| is_same_duty(rows.get(*a), rows.get(*b)))
}

/// The first of so many lists that is the same as this one but for the names of its duties.
fn twin_of<'a>(
    rows: &[Record],
    all: &'a [Vec<usize>],
    before: usize,
    duties: &[usize],
) -> Option<&'a Vec<usize>> {
    for (i, known) in all.iter().enumerate() {
        if i >= before {
            return None;
        }
        if are_same(rows, known, duties) {
            return Some(known);
        }
    }
    None
}

/// The name of the pairing whose duties these are.
fn name_of<'a>(rows: &'a [Record], duties: &[usize]) -> &'a str {
    let Some(at) = duties.first() else {
        return "";
    };
    match rows.get(*at) {
        Some(row) => str::from_utf8(row.field(3)).unwrap_or(""),
        None => "",
    }
}

/// Warnings of pairings that have the duties of an earlier one, if few have.
pub(crate) fn twins(alloc: Global, rows: &[Record]) -> Result<Vec<Warning>, AllocError> {
    let all = duties_of_all(alloc, rows)?;
    let mut warnings = Vec::new(alloc);
    for (i, duties) in all.iter().enumerate() {
        if let Some(twin) = twin_of(rows, &all, i, duties) {
            let name = name_of(rows, twin);
            let why = format!(in alloc;
                "the pairing has the same duties as `{name}`; two are right only if two persons are needed"
            )?;
            let at = duties.first().copied().unwrap_or(0);
            warn(&mut warnings, alloc, at, why.as_str())?;
        }
    }
    if warnings.len() > all.len() / OF_PAIRINGS {
        warnings.clear();
    }
    Ok(warnings)
}
