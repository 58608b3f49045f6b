//! Bundles split into their modules, each with a map of its own.
ghost use Rattle.std.specs.Prelude.{◌≡◌, ◌≤◌, IfOk, Ok, [], length};
ghost use Rattle.std.specs.Iterator.{YieldsFirstBy};
ghost use Rattle.sourcemap_errors.specs.Answer.{Gives, IsAnswer};
ghost use Rattle.sourcemap_bundles.specs.Iterators.{modules_left};
ghost use Rattle.sourcemap_bundles.specs.Modules.{bundle_count, bundle_module, modules_of};
ghost use Rattle.sourcemap_bundles.specs.Stored.{module_value};
ghost use Rattle.sourcemap_index.specs.Family.{index_value};
ghost use Rattle.sourcemap_bundle_split.specs.Iterators.{dues_left, modules_and_lines_left, module_and_line};
ghost use Rattle.sourcemap_bundle_split.specs.Iterators.{split_value, splitter_value};
ghost use Rattle.sourcemap_bundle_split.specs.Split.{HasFewTexts, Splits, YieldsPart, due_in, parts_at, parts_value, utf8_text};

use crate::module_maps::ModuleMaps;
use sourcemap_bundles::ram_bundle::{RamBundle, RamBundleModule, RamBundleModuleIter};
use sourcemap_errors::errors::{Error, Result};
use sourcemap_index::family::SourceMapIndex;
use sourcemap_map_regular::map::SourceMap;
use sourcemap_source_views::sourceview::SourceView;
use std::alloc::Global;
use std::str;

/// What an index map says about the modules of its bundle: the flat map, and the lines at which the
/// modules begin.
#[derive(Drop)]
pub struct BundleSplitter {
    maps: ModuleMaps,
    offsets: Vec<Option<u32>>,
    alloc: Global,
}

/// The modules of a bundle that are still to come, each with its name, its text and its map.
#[derive(Drop)]
pub struct SplitRamBundleModuleIter<'a> {
    modules: RamBundleModuleIter<'a>,
    splitter: BundleSplitter,
}

/// Returns an iterator over the modules of a bundle. Each module has a map that is made from `map`,
/// the index map of the bundle. If the index map cannot be flattened, the error is that of
/// `flatten`. Otherwise the error is `NotARamBundle` if the index map has no `x_facebook_offsets`.
/// Any other error is `OutOfMemory`.
///
/// A module begins at column 0 of the line that `x_facebook_offsets` has for its number, and takes
/// as many lines as its text has. Its end column is the length of its last line in UTF-16 units.
/// Its name is its number followed by `.js`. Its map has the tokens of the flattened map at or
/// after the module's start and before the module's end. The map also has the sources that these
/// tokens use, with their contents, and the names that these tokens use, both in the order of first
/// use. Generated lines of the map count from the module's first line.
///
/// If the offset of a module is null and reading the module from the bundle succeeds, the module
/// gives no item. The item of a module is `InvalidRamBundleEntry` in four cases: reading the module
/// from the bundle fails, its number is past the end of `x_facebook_offsets`, its text is not
/// UTF-8, or the flattened map has no token at or before the first column of the module's first
/// line. An item may be `OutOfMemory`; then only that module is lost.
pub fn split_ram_bundle<'a>(
    alloc: Global,
    bundle: &'a RamBundle<'a>,
    map: &SourceMapIndex,
) -> Result<SplitRamBundleModuleIter<'a>>
    ensures answer { IsAnswer split_value (Splits (index_value map.now) (modules_of bundle.now)) result }
    ensures few { IfOk result (λ it. HasFewTexts (split_value it).flat) }
    ensures bound { IfOk result (λ it. length (dues_left it) ≤ bundle_count bundle.now) }
{
    match BundleSplitter::new(alloc, map) {
        Ok(splitter) => Ok(SplitRamBundleModuleIter {
            modules: bundle.iter_modules(),
            splitter,
        }),
        Err(error) => Err(error),
    }
}

impl BundleSplitter {
    /// Flattens the index map of a bundle. The errors are those of `split_ram_bundle`.
    pub fn new(alloc: Global, map: &SourceMapIndex) -> Result<Self>
        ensures answer { IsAnswer splitter_value (Splits (index_value map.now) []) result }
        ensures few { IfOk result (λ s. HasFewTexts (splitter_value s).flat) }
    {
        let flat = map.flatten()?;
        let offsets = map.x_facebook_offsets().ok_or(Error::NotARamBundle)?;
        let offsets = Vec::from_slice(alloc, offsets)?;
        let maps = ModuleMaps::new(alloc, flat)?;
        Ok(BundleSplitter {
            maps,
            offsets,
            alloc,
        })
    }

    /// The name, the text and the map of the module with this number: the item that
    /// `split_ram_bundle` has for it. Returns `None` if it has none, because the module is missing
    /// or its offset is null. A number past the last one of the bundle is `InvalidRamBundleEntry`.
    pub fn part(
        &mut self,
        bundle: &RamBundle<'_>,
        id: usize,
    ) -> Option<Result<(String, SourceView, SourceMap)>>
        ensures part { YieldsPart parts_value result
            (due_in self.old.maps self.old.offsets.items (bundle_module bundle.now id)) }
        ensures kept { self.new ≡ self.old }
    {
        let found = match bundle.get_module(id) {
            Ok(found) => found?,
            Err(_) => return Some(Err(Error::InvalidRamBundleEntry)),
        };
        match self.offsets.get(found.id()) {
            None => Some(Err(Error::InvalidRamBundleEntry)),
            Some(None) => None,
            Some(Some(line)) => {
                let line = *line;
                Some(self.parts_at(&found, line))
            }
        }
    }

    // The name, the text and the map of the module `found`, which begins at `line`. The error is
    // `InvalidRamBundleEntry` if the flat map has no token at or before the first column of `line`,
    // or if the text is not UTF-8. Any other error is `OutOfMemory`.
    fn parts_at(
        &mut self,
        found: &RamBundleModule<'_>,
        line: u32,
    ) -> Result<(String, SourceView, SourceMap)>
        ensures parts { Gives parts_value result
            (parts_at self.old.maps line (module_value found.now)) }
        ensures kept { self.new ≡ self.old }
    {
        if !self.maps.reaches(line) {
            return Err(Error::InvalidRamBundleEntry);
        }
        let view = view_of(found, self.alloc)?;
        let id = found.id();
        let name = format!(in self.alloc; "{id}.js")?;
        let map = self.maps.map_of(self.alloc, name.as_str(), line, &view)?;
        Ok((name, view, map))
    }
}

impl<'a> SplitRamBundleModuleIter<'a> {
    // The next module that is not skipped, with its first line, or the error
    // `InvalidRamBundleEntry` for this module. `None` if no such module is left.
    fn next_with_line(&mut self) -> Option<Result<(RamBundleModule<'a>, u32)>>
        ensures next { YieldsFirstBy module_and_line modules_and_lines_left
            self.old result self.new }
        ensures splitter { self.new.splitter ≡ self.old.splitter }
    {
        while let Some(item) = self.modules.next() {
            let Ok(found) = item else {
                return Some(Err(Error::InvalidRamBundleEntry));
            };
            match self.splitter.offsets.get(found.id()) {
                None => return Some(Err(Error::InvalidRamBundleEntry)),
                Some(None) => {}
                Some(Some(line)) => return Some(Ok((found, *line))),
            }
        }
        None
    }
}

// A view of the module's text. The error is `InvalidRamBundleEntry` if the text is not UTF-8. The
// only other error is `OutOfMemory`.
fn view_of(found: &RamBundleModule<'_>, alloc: Global) -> Result<SourceView>
    ensures { Gives (λ view. view) result (utf8_text found.now.text.now) }
{
    match str::from_utf8(found.data()) {
        Ok(text) => SourceView::new(alloc, text),
        Err(_) => Err(Error::InvalidRamBundleEntry),
    }
}

impl<'a> Iterator for SplitRamBundleModuleIter<'a> {
    type Item = Result<(String, SourceView, SourceMap)>;

    ghost use Rattle.std.specs.Iterator.{item_count};
    ghost use Rattle.sourcemap_bundle_split.specs.Iterators.{dues_left};
    ghost use Rattle.sourcemap_bundle_split.specs.Split.{YieldsDue, parts_value};

    ghost next_gives = { YieldsDue parts_value dues_left };

    ghost remaining = { item_count dues_left };

    fn next(&mut self) -> Option<Result<(String, SourceView, SourceMap)>> {
        match self.next_with_line()? {
            Ok((found, line)) => Some(self.splitter.parts_at(&found, line)),
            Err(e) => Some(Err(e)),
        }
    }
}
