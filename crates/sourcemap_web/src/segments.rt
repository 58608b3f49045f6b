//! The numbers of a segment of mappings.
ghost use Rattle.std.specs.Prelude.{◌≡◌};
ghost use Rattle.sourcemap_c_handles.specs.Errors.{error_code, number_of};
ghost use Rattle.sourcemap_web.specs.Segments.{ReturnsNumbers};

use core::mem::forget;
use sourcemap_c_handles::errors::Failure;
use sourcemap_errors::errors::Error;
use sourcemap_vlq::vlq::next_number;

const OK: u32 = 0;

const NO_VALUES: u32 = 6;

/// Writes the numbers of a segment to `numbers`, as many as fit, and to `count` how many it has. If
/// the segment has an error, returns the code of the first one and leaves `count` as it was; the
/// numbers before the error are written.
#[unsafe(no_mangle)]
pub extern "C" fn sm_parse_segment(segment: &[u8], numbers: &mut [i64], count: &mut usize) -> u32
    ensures { ReturnsNumbers segment.now result numbers.old numbers.new count.old count.new }
{
    let mut rest = segment;
    let mut found = 0;
    while !rest.is_empty() {
        match next_number(rest) {
            Ok((number, tail)) => {
                if found < numbers.len() {
                    numbers[found] = number;
                }
                found += 1;
                rest = tail;
            }
            Err(error) => return code_of(error),
        }
    }
    if found == 0 {
        return NO_VALUES;
    }
    *count = found;
    OK
}

// An error may hold a text. WebAssembly has no heap to give it back to, and these errors hold none.
fn code_of(error: Error) -> u32
    ensures { result ≡ number_of (error_code error) }
{
    let failure = Failure::Library(error);
    let code = failure.code().number();
    forget(failure);
    code
}
