//! Adds a number of lines to the offset of each section in an index map.
ghost use Rattle.std.specs.Prelude.{◌≡◌, map};
ghost use Rattle.std.specs.Bool.{Decides, MatchBool};
ghost use Rattle.sourcemap_index_model.specs.Shift.{HaveRowsLeft, shifted};
ghost use Rattle.sourcemap_index.specs.Family.{index_value, section_value};
ghost use Rattle.sourcemap_index.specs.Rows.{with_sections};

use crate::family::{SourceMapIndex, SourceMapSection};

// Whether the line of each section's offset plus `rows` is at most 4294967295.
fn have_rows_left(sections: &[SourceMapSection], rows: u32) -> bool
    ensures { Decides result (HaveRowsLeft rows (map section_value sections.now)) }
{
    for section in sections {
        if section.offset.0 > u32::MAX - rows {
            return false;
        }
    }
    true
}

fn move_down(sections: &mut [SourceMapSection], rows: u32)
    ensures { HaveRowsLeft rows (map section_value sections.old)
        → map section_value sections.new ≡ shifted rows (map section_value sections.old) }
{
    for section in sections.iter_mut() {
        section.offset.0 = section.offset.0.saturating_add(rows);
    }
}

impl SourceMapIndex {
    /// Adds `rows` to the line of each section's offset and returns `true`. If a line would exceed
    /// 4294967295, changes nothing and returns `false`. The maps in the sections,
    /// `x_facebook_offsets` and `x_metro_module_paths` are unchanged in both cases.
    pub fn adjust_sections_offset_rows(&mut self, rows: u32) -> bool
        ensures possible { Decides result (HaveRowsLeft rows (index_value self.old).sections) }
        ensures value { MatchBool result (index_value self.new
            ≡ with_sections (index_value self.old) (shifted rows (index_value self.old).sections))
            (index_value self.new ≡ index_value self.old) }
    {
        if !have_rows_left(self.sections.as_slice(), rows) {
            return false;
        }
        move_down(self.sections.as_mut_slice(), rows);
        true
    }
}
