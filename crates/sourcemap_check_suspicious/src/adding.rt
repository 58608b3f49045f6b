//! Adds what looks wrong to a list.
ghost use Rattle.std.specs.Prelude.{◌≡◌, ◌++◌, ◌∷◌, [], ℕ, List, IfErr, OnOk, cond, map};
ghost use Rattle.sourcemap_errors.specs.declared.errors.Error.TheVariants.{OutOfMemory};
ghost use Rattle.sourcemap_check_order.specs.Order.{AreSegmentPlaces};
ghost use Rattle.sourcemap_check_order.specs.declared.order.SegmentPlace.{SegmentPlace};
ghost use Rattle.sourcemap_check_texts.specs.Doubts.{ArePlaces};
ghost use Rattle.sourcemap_check_suspicious.specs.Suspects.{Adds, item_suspect, segment_suspect, token_suspect, token_suspects};

use crate::suspects::{Suspect, Suspects, Suspicion};
use sourcemap_check_order::order::{SegmentPlace, SegmentPlaces};
use sourcemap_check_texts::tokens::Places;
use sourcemap_errors::errors::Result;
use sourcemap_map_regular::map::SourceMap;

// The token with this index; a suspect at 0:0 if there is none.
fn token_suspect(map: &SourceMap, suspicion: Suspicion, index: usize) -> Suspect
    ensures { result ≡ token_suspect suspicion map.now index }
{
    match map.get_token(index) {
        Some(token) => {
            let raw = token.get_raw_token();
            Suspect {
                suspicion,
                line: raw.dst_line as usize,
                index: raw.dst_col as usize,
            }
        }
        None => Suspect {
            suspicion,
            line: 0,
            index: 0,
        },
    }
}

fn push_tokens(
    first: &mut Vec<Suspect>,
    map: &SourceMap,
    suspicion: Suspicion,
    indexes: &[usize],
) -> Result<()>
    ensures pushed { OnOk result (first.new.items
        ≡ first.old.items ++ token_suspects suspicion map.now indexes.now) }
    ensures memory { IfErr result (λ e. e ≡ OutOfMemory) }
{
    for index in indexes {
        first.push(token_suspect(map, suspicion, *index))?;
    }
    Ok(())
}

fn push_items(first: &mut Vec<Suspect>, suspicion: Suspicion, indexes: &[usize]) -> Result<()>
    ensures pushed { OnOk result (first.new.items
        ≡ first.old.items ++ map (item_suspect suspicion) indexes.now) }
    ensures memory { IfErr result (λ e. e ≡ OutOfMemory) }
{
    for index in indexes {
        first.push(Suspect {
            suspicion,
            line: 0,
            index: *index,
        })?;
    }
    Ok(())
}

fn push_segments(first: &mut Vec<Suspect>, places: &[SegmentPlace]) -> Result<()>
    ensures pushed { OnOk result (first.new.items
        ≡ first.old.items ++ map segment_suspect places.now) }
    ensures memory { IfErr result (λ e. e ≡ OutOfMemory) }
{
    for place in places {
        first.push(Suspect {
            suspicion: Suspicion::SegmentBack,
            line: place.line,
            index: place.index,
        })?;
    }
    Ok(())
}

pub(crate) fn add_tokens(
    found: &mut Suspects,
    map: &SourceMap,
    suspicion: Suspicion,
    places: &Places,
) -> Result<()>
    ensures added { (most : ℕ) (all : List ℕ) → ArePlaces most all places.now
        → OnOk result (Adds most (token_suspects suspicion map.now all) found.old found.new) }
    ensures memory { IfErr result (λ e. e ≡ OutOfMemory) }
{
    push_tokens(&mut found.first, map, suspicion, places.first.as_slice())?;
    found.count = found.count.saturating_add(places.count as u64);
    Ok(())
}

pub(crate) fn add_items(found: &mut Suspects, suspicion: Suspicion, places: &Places) -> Result<()>
    ensures added { (most : ℕ) (all : List ℕ) → ArePlaces most all places.now
        → OnOk result (Adds most (map (item_suspect suspicion) all) found.old found.new) }
    ensures memory { IfErr result (λ e. e ≡ OutOfMemory) }
{
    push_items(&mut found.first, suspicion, places.first.as_slice())?;
    found.count = found.count.saturating_add(places.count as u64);
    Ok(())
}

pub(crate) fn add_segments(found: &mut Suspects, places: &SegmentPlaces) -> Result<()>
    ensures added { (most : ℕ) (all : List SegmentPlace) → AreSegmentPlaces most all places.now
        → OnOk result (Adds most (map segment_suspect all) found.old found.new) }
    ensures memory { IfErr result (λ e. e ≡ OutOfMemory) }
{
    push_segments(&mut found.first, places.first.as_slice())?;
    found.count = found.count.saturating_add(places.count);
    Ok(())
}

// Adds the one suspect of a kind, if it holds.
#[tactic(auto, using(crate::proofs::SuspectLemmas::adds_nothing))]
pub(crate) fn add_if(
    found: &mut Suspects,
    suspicion: Suspicion,
    holds: bool,
    most: usize,
) -> Result<()>
    ensures added { OnOk result (Adds most
        (cond holds (item_suspect suspicion 0 ∷ []) []) found.old found.new) }
    ensures memory { IfErr result (λ e. e ≡ OutOfMemory) }
{
    if !holds {
        return Ok(());
    }
    if most > 0 {
        found.first.push(Suspect {
            suspicion,
            line: 0,
            index: 0,
        })?;
    }
    found.count = found.count.saturating_add(1);
    Ok(())
}
