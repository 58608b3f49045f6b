//! Sets URLs of the sections of an index map.
ghost use Rattle.std.specs.Prelude.{◌≡◌, ◌≢◌, ℕ, IfNone, IsOk, slice_get};
ghost use Rattle.sourcemap.specs.Answer.{Changes};
ghost use Rattle.sourcemap.specs.AnyMap.{index_value};
ghost use Rattle.sourcemap_uses.specs.Linking.{linked};

use sourcemap::{Result, SourceMapIndex};

/// Sets the URL of the section with this id. Changes nothing else, and nothing at all if there is no
/// such section. The only error is `OutOfMemory`; the index map is then unchanged.
pub fn link(index: &mut SourceMapIndex, id: u32, url: &str) -> Result<()>
    ensures linked { Changes result (index_value index.old) (index_value index.new)
        (linked (index_value index.old) id url.now) }
    ensures others { (other : ℕ) → other ≢ id
        → slice_get (index_value index.new).sections other
        ≡ slice_get (index_value index.old).sections other }
    ensures none { IfNone (slice_get (index_value index.old).sections id) (IsOk result) }
{
    match index.get_section_mut(id) {
        Some(section) => section.set_url(Some(url)),
        None => Ok(()),
    }
}
