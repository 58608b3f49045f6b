//! The checks that tests make. A test returns `Checked`, and ends at the first check that fails. A
//! check is a function, because each use of an assertion is proved anew, which takes seconds.
use std::fmt::Debug;
use std::test::Fail;

/// What a test returns. The error has the message of the check that failed.
pub type Checked = Result<(), Fail>;

/// Checks that the result `got` is `Ok` with the text `want`. If not, the message has `row` and the
/// result.
pub fn check<E: Debug + Drop>(row: &str, got: Result<String, E>, want: &str) -> Checked {
    let is_wanted = matches!(&got, Ok(text) if text.as_str() == want);
    if is_wanted {
        return Ok(());
    }
    Err(Fail::new(format_args!("{row}: {got:?}")))
}

/// Checks that a condition holds. If not, the message has `row`.
pub fn check_that(row: &str, holds: bool) -> Checked {
    if holds {
        return Ok(());
    }
    Err(Fail::new(format_args!("{row}: not as expected")))
}
