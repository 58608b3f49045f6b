//! Helpers for test suites. Most turn errors and options into texts. For these helpers, only
//! `OutOfMemory` stays an error, so that no text hides a failed allocation. `again` and
//! `box_result` can return any error.
use sourcemap_errors::errors::{Error, Result};
use std::alloc::{AllocError, Global};
use std::fmt::Display;
use std::result::Result as StdResult;

/// The text that was made. The only error is `OutOfMemory`. prover: one conversion for all texts
pub fn owned_text(made: StdResult<String, AllocError>) -> Result<String> {
    Ok(made?)
}

/// Calls `call`, and calls `call` once more if the first call returns `OutOfMemory`.
pub fn again<F: Fn() -> Result<String>>(call: F) -> Result<String>
    requires { F.IsAlwaysCallable call }
{
    match call() {
        Err(Error::OutOfMemory) => call(),
        other => other,
    }
}

/// The text of an error. Returns `Err(OutOfMemory)` for `OutOfMemory`, or if memory runs out.
pub fn error_text(alloc: Global, error: &Error) -> Result<String> {
    match error {
        Error::OutOfMemory => Err(Error::OutOfMemory),
        error => owned_text(format!(in alloc; "{error}")),
    }
}

/// For `Ok`, the text `no error`. For `Err`, what `error_text` returns for the error.
pub fn error_of<T: Drop>(alloc: Global, got: Result<T>) -> Result<String> {
    match got {
        Ok(_) => owned_text(String::from_str(alloc, "no error")),
        Err(error) => error_text(alloc, &error),
    }
}

/// Moves a value to a box. prover: one drop
pub fn box_result<T: Drop>(alloc: Global, made: Result<T>) -> Result<Box<T>> {
    Ok(Box::new(alloc, made?)?)
}

/// What a value prints, or `none`.
pub fn text_or_none<T: Display + Drop>(alloc: Global, value: Option<T>) -> Result<String> {
    match value {
        None => owned_text(String::from_str(alloc, "none")),
        Some(value) => owned_text(format!(in alloc; "{value}")),
    }
}

/// An optional text: in brackets, or `none`.
pub fn optional_text(alloc: Global, text: Option<&str>) -> Result<String> {
    match text {
        None => owned_text(String::from_str(alloc, "none")),
        Some(text) => owned_text(format!(in alloc; "[{text}]")),
    }
}

/// Appends a space and an optional text, as `optional_text` prints it.
pub fn push_optional(out: &mut String, text: Option<&str>) -> Result<()> {
    match text {
        None => out.push_str(" none")?,
        Some(text) => {
            out.push_str(" [")?;
            out.push_str(text)?;
            out.push_str("]")?;
        }
    }
    Ok(())
}
