//! A module of a bundle.
ghost use Rattle.std.specs.Prelude.{◌≡◌};
ghost use Rattle.sourcemap_bundles.specs.Modules.{IsViewOf};

use sourcemap_errors::errors::Result;
use sourcemap_source_views::sourceview::SourceView;
use std::alloc::Global;
use std::str;

/// A module, borrowed from its bundle.
#[derive(Debug, Drop)]
pub struct RamBundleModule<'a> {
    pub(crate) id: usize,
    pub(crate) text: &'a [u8],
}

impl<'a> RamBundleModule<'a> {
    /// Returns the number of the module in its bundle.
    pub fn id(&self) -> usize
        ensures { result ≡ self.now.id }
    {
        self.id
    }

    /// Returns the bytes of the module. The last byte of a module in an indexed bundle is left out.
    /// This byte should be 0, but is not checked.
    pub fn data(&self) -> &'a [u8]
        ensures { result.now ≡ self.now.text.now }
    {
        self.text
    }

    /// Returns a view of the module's text. The error is `Utf8` if the bytes are not UTF-8. Any
    /// other error is `OutOfMemory`.
    pub fn source_view(&self, alloc: Global) -> Result<SourceView>
        ensures { IsViewOf self.now.text.now result }
    {
        SourceView::new(alloc, str::from_utf8(self.text)?)
    }
}
