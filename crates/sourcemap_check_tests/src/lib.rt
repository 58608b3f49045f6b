//! Tests of checks: the codes of maps, where findings are, tokens that look wrong, and shifts.
#![tactic(auto)]

#[cfg(test)]
mod edges;
#[cfg(test)]
mod generated;
#[cfg(test)]
mod index_maps;
#[cfg(test)]
mod lists;
#[cfg(test)]
mod places;
#[cfg(test)]
mod rules;
#[cfg(test)]
mod shifts;
#[cfg(test)]
mod suspects;
#[cfg(test)]
mod texts;

use sourcemap_check::check::{Options, check};
use sourcemap_errors::errors::Result;
use std::alloc::Global;

/// The codes of the findings of a map, each once, in ascending order. The only error is
/// `OutOfMemory`.
pub fn codes_of(alloc: Global, map: &str) -> Result<String> {
    let checked = check(alloc, map.as_bytes(), Options { most: 1 })?;
    let mut codes = String::new(alloc);
    for (number, count) in checked.report.counts.iter().enumerate() {
        if *count > 0 {
            push_code(alloc, &mut codes, number)?;
        }
    }
    Ok(codes)
}

fn push_code(alloc: Global, codes: &mut String, number: usize) -> Result<()> {
    if !codes.is_empty() {
        codes.push(' ')?;
    }
    let code = number.saturating_add(101);
    codes.push_str(format!(in alloc; "SM{code}")?.as_str())?;
    Ok(())
}
