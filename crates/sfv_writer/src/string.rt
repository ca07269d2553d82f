//! Serialization of strings (RFC 9651, section 4.1.6).

ghost use Rattle.std.specs.Prelude.{⊤, false};
ghost use Rattle.sfv_spec.specs.Values.{string};
ghost use Rattle.sfv_spec.specs.Canonical.{bare_text};
ghost use Rattle.sfv_values.specs.CheckedTexts.{text_of};
ghost use Rattle.sfv_writer.specs.Written.{AsksForRoom, AppendsOrKeeps};

use crate::output::{Fragment, append};
use crate::quoted::{Escaping, serialize_inside};
use sfv_base::error::OutOfMemory;
use sfv_base::runs::{PlainInString, split_run, split_whole_run};
use sfv_base::utils::is_escaped_in_string;
use sfv_values::string_ref::StringRef;
use std::alloc::{AllocError, Allocator};

/// The inside of a string.
struct StringEscaping;

impl Escaping for StringEscaping {
    ghost display = { false };

    #[inline(always)]
    fn is_plain(byte: u8) -> bool {
        !is_escaped_in_string(byte)
    }

    #[inline(always)]
    fn split_plain(bytes: &[u8]) -> (&[u8], &[u8]) {
        split_run::<PlainInString>(bytes)
    }

    #[inline(always)]
    fn split_whole(bytes: &[u8]) -> (&[u8], &[u8]) {
        split_whole_run::<PlainInString>(bytes)
    }

    #[inline(always)]
    #[tactic(auto, using(crate::proofs::Written::string_escape))]
    fn push_escape<A: Allocator>(output: &mut String<A>, byte: u8) -> Result<(), AllocError> {
        output.push('\\')?;
        output.push(if byte == b'"' { '"' } else { '\\' })
    }
}

/// A string: its inside between quotes.
impl<'a> Fragment for StringRef<'a> {
    ghost text = { λ s. bare_text (string (text_of s)) };

    ghost is_valid = { λ _. ⊤ };

    #[inline(always)]
    fn serialize<A: Allocator>(self, output: &mut String<A>) -> Result<(), OutOfMemory> {
        let text = self.as_str();
        // Without it, the last quote after a long text would double the capacity.
        output.reserve(text.len() + 2)?;
        output.push('"')?;
        serialize_inside::<StringEscaping, A>(text.as_bytes(), output)?;
        output.push('"')?;
        Ok(())
    }
}

#[inline(never)]
pub(crate) fn serialize_string<A: Allocator>(
    value: StringRef<'_>,
    output: &mut String<A>,
) -> Result<(), OutOfMemory>
    ensures text { AppendsOrKeeps output.old output.new (bare_text (string (text_of value.entry))) result }
    ensures room { AsksForRoom output.old output.new (bare_text (string (text_of value.entry))) result }
{
    append(value, output)
}
