//! The first example of the README.

ghost use Rattle.std.specs.Prelude.{IfOk, IfErr};
ghost use Rattle.sfv.specs.Field.{dictionary_field, Rfc9651, IsParseError, NeedsMemory};
ghost use Rattle.sfv_examples.specs.Start.{IsWrittenAgain};

use sfv::{Dictionary, Error, FieldType, Parser};
use std::alloc::Global;

/// Parses a dictionary and serializes it: `a=1;x, b=2, a=3` becomes `a=3, b=2`. Returns `None` if it is empty.
///
/// # Errors
///
/// Returns the syntax error if the input is not a dictionary, and the kind `OutOfMemory` if memory runs out.
pub fn write_again(alloc: Global, input: &[u8]) -> Result<Option<String>, Error>
    ensures written { IfOk result (IsWrittenAgain input.now) }
    ensures rejected { IfErr result (IsParseError Rfc9651 dictionary_field input.now) }
    ensures memory { IfErr result (NeedsMemory dictionary_field input.now) }
{
    let dictionary = Parser::new(input).parse::<Dictionary>(alloc)?;
    let line = dictionary.serialize(alloc)?;
    Ok(line)
}
