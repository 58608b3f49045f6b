// Bundles as texts.
use sourcemap_bundles::ram_bundle::{RamBundle, RamBundleModule};
use sourcemap_errors::errors::{Error, Result};
use sourcemap_test_support::results::{error_text, owned_text};
use std::alloc::Global;

/// Returns `io` for an error of the file system, or the text of any other error. `OutOfMemory`
/// stays an error.
pub fn error_or_io(alloc: Global, error: Error) -> Result<String> {
    match error {
        Error::Io(_) => owned_text(String::from_str(alloc, "io")),
        other => error_text(alloc, &other),
    }
}

/// Returns bytes as a text, or the text of an error.
pub fn bytes_text(alloc: Global, answer: Result<&[u8]>) -> Result<String> {
    match answer {
        Ok(bytes) => Ok(String::from_utf8_lossy(alloc, bytes)?),
        Err(error) => error_or_io(alloc, error),
    }
}

/// Returns the number and the bytes of a module, as `0=xyz`, or the text of an error.
pub fn module_text(alloc: Global, answer: Result<RamBundleModule<'_>>) -> Result<String> {
    match answer {
        Ok(found) => {
            let id = found.id();
            let text = String::from_utf8_lossy(alloc, found.data())?;
            owned_text(format!(in alloc; "{id}={text}"))
        },
        Err(error) => error_or_io(alloc, error),
    }
}

/// Returns the type of the bundle, its `module_count`, the startup code in brackets, and the
/// `module_text` of each item of `iter_modules`, separated by spaces. If the startup code cannot be
/// read, the brackets contain the `error_or_io`. The only error is `OutOfMemory`.
pub fn bundle_text(alloc: Global, bundle: &RamBundle<'_>) -> Result<String> {
    let kind = bundle.bundle_type();
    let count = bundle.module_count();
    let startup = bytes_text(alloc, bundle.startup_code())?;
    let mut text = format!(in alloc; "{kind:?} {count} [{startup}]")?;
    for item in bundle.iter_modules() {
        text.push(' ')?;
        text.push_str(module_text(alloc, item)?.as_str())?;
    }
    Ok(text)
}

/// Returns the `bundle_text` of a parsed bundle, or the `error_or_io` of the error of parsing.
pub fn parsed_text(alloc: Global, parsed: Result<RamBundle<'_>>) -> Result<String> {
    match parsed {
        Ok(bundle) => bundle_text(alloc, &bundle),
        Err(error) => error_or_io(alloc, error),
    }
}
