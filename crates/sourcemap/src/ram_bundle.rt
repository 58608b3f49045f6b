//! RAM bundles: their headers, their modules, and the maps of these modules.

pub use sourcemap_bundle_split::split::{SplitRamBundleModuleIter, split_ram_bundle};
pub use sourcemap_bundles::bundle::{ModuleEntry, RAM_BUNDLE_MAGIC, RamBundleHeader, byte_range};
pub use sourcemap_bundles::ram_bundle::{
    RamBundle, RamBundleModule, RamBundleModuleIter, RamBundleType, is_ram_bundle_slice,
    is_unbundle_path,
};
