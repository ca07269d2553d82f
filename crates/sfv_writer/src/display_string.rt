//! Serialization of display strings (RFC 9651, section 4.1.11).

ghost use Rattle.std.specs.Prelude.{◌≡◌, ◌<◌, true};
ghost use Rattle.sfv_spec.specs.Values.{display_string};
ghost use Rattle.sfv_spec.specs.Canonical.{bare_text};
ghost use Rattle.std.specs.Char.{digit_char};
ghost use Rattle.sfv_writer.specs.Written.{AsksForRoom, Appends, AppendsOrKeeps};

use crate::output::truncate_to;
use crate::quoted::{Escaping, serialize_inside};
use sfv_base::error::OutOfMemory;
use sfv_base::runs::{PlainInDisplayString, RunClass, split_run, split_whole_run};
use std::alloc::{AllocError, Allocator};

/// Returns the lower-case hexadecimal digit of a number below 16.
fn digit_of(value: u8) -> char
    requires { value < 16 }
    ensures digit { result ≡ digit_char value }
    ensures ascii { result < 128 }
{
    if value < 10 {
        (b'0' + value) as char
    } else {
        (b'a' + (value - 10)) as char
    }
}

/// The inside of a display string.
struct DisplayEscaping;

impl Escaping for DisplayEscaping {
    ghost display = { true };

    #[inline(always)]
    fn is_plain(byte: u8) -> bool {
        PlainInDisplayString::has(byte)
    }

    #[inline(always)]
    fn split_plain(bytes: &[u8]) -> (&[u8], &[u8]) {
        split_run::<PlainInDisplayString>(bytes)
    }

    #[inline(always)]
    fn split_whole(bytes: &[u8]) -> (&[u8], &[u8]) {
        split_whole_run::<PlainInDisplayString>(bytes)
    }

    #[inline(always)]
    fn push_escape<A: Allocator>(output: &mut String<A>, byte: u8) -> Result<(), AllocError> {
        output.push('%')?;
        output.push(digit_of(byte / 16))?;
        output.push(digit_of(byte % 16))
    }
}

/// Appends a display string: its inside between the opening and the quote.
#[inline(always)]
#[tactic(auto, using(sfv_values::proofs::Bytes::run_of_bytes))]
fn serialize_quoted<A: Allocator>(value: &str, output: &mut String<A>) -> Result<(), OutOfMemory>
    ensures text { Appends output.old output.new (bare_text (display_string value.now)) result }
    ensures room { AsksForRoom output.old output.new (bare_text (display_string value.now)) result }
{
    // As for a string.
    output.reserve(value.len() + 3)?;
    output.push_str("%\"")?;
    serialize_inside::<DisplayEscaping, A>(value.as_bytes(), output)?;
    output.push('"')?;
    Ok(())
}

#[inline(never)]
#[tactic(auto, using(crate::proofs::Written::cut_to))]
pub(crate) fn serialize_display_string<A: Allocator>(
    value: &str,
    output: &mut String<A>,
) -> Result<(), OutOfMemory>
    ensures text { AppendsOrKeeps output.old output.new (bare_text (display_string value.now)) result }
    ensures room { AsksForRoom output.old output.new (bare_text (display_string value.now)) result }
{
    let len = output.len();
    if let Err(error) = serialize_quoted(value, output) {
        truncate_to(len, output);
        return Err(error);
    }
    Ok(())
}
