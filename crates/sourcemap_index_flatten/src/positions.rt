//! Generated positions of a section, as positions in the index map.
ghost use Rattle.std.specs.Prelude.{◌≡◌, if◌then◌else◌, Some, None};
ghost use Rattle.sourcemap_index_model.specs.Flat.{passes_the_end};
ghost use Rattle.sourcemap_index_model.specs.FlatList.{absolute_position};

/// The position `position` of a section, as a position in the index map. The section starts at
/// `line` and `col`. Returns `None` if the line or the column would be above 4294967295.
pub fn absolute_position(line: u32, col: u32, position: (u32, u32)) -> Option<(u32, u32)>
    ensures { result ≡ (if passes_the_end (absolute_position (line, col) position) then None
        else Some (absolute_position (line, col) position)) }
{
    let (own_line, own_col) = position;
    let raised_line = own_line.checked_add(line)?;
    if own_line != 0 {
        return Some((raised_line, own_col));
    }
    let raised_col = own_col.checked_add(col)?;
    Some((raised_line, raised_col))
}
