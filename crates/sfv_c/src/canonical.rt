//! Canonical texts of parsed fields.

ghost use Rattle.std.specs.Prelude.{◌≡◌, IfOk, IfErr, OnOk};
ghost use Rattle.sfv.specs.Parsers.{input_of, version_of};
ghost use Rattle.sfv.specs.Statements.{IsParsedAs};
ghost use Rattle.sfv_c.specs.Answers.{IsPut, IsFault, IsCanonical, IsBuiltIfWritten};

use crate::answer::{Answer, CallFault, Written, put_text};
use sfv::{Dictionary, FieldKind, FieldType, Item, List, Parser, Version};
use std::alloc::Global;

/// Parses a field of type `T`, and writes its canonical text for the version to the start of the buffer.
fn put_field<T: FieldType>(
    alloc: Global,
    parser: Parser<'_>,
    writing: Version,
    out: &mut [u8],
) -> Result<Written, CallFault>
    ensures put { IfOk result (IsPut (version_of parser.entry) writing T.kind
        (input_of parser.entry) out.old out.new) }
    ensures failed { IfErr result (IsFault (version_of parser.entry) writing T.kind
        (input_of parser.entry)) }
    ensures kept { IfErr result (λ _. out.new ≡ out.old) }
    ensures seed { OnOk result ((value : _) × T.has_seed parser.entry.seed value
        × IsParsedAs (version_of parser.entry) T.kind (input_of parser.entry) (T.tree value)) }
{
    let value = parser.parse::<T>(alloc)?;
    let text = value.serialize_for(alloc, writing)?;
    Ok(put_text(text.into(), out))
}

/// Parses a field of this type, and writes its canonical text for the version to the start of the buffer.
pub(crate) fn canonical(
    alloc: Global,
    field: FieldKind,
    parser: Parser<'_>,
    writing: Version,
    out: &mut [u8],
) -> Answer
    ensures canonical { IsCanonical (version_of parser.entry) writing field
        (input_of parser.entry) out.old out.new result }
    ensures seed { IsBuiltIfWritten parser.entry.seed (version_of parser.entry) field (input_of parser.entry) result }
{
    let outcome = match field {
        FieldKind::Item => put_field::<Item>(alloc, parser, writing, out),
        FieldKind::List => put_field::<List>(alloc, parser, writing, out),
        FieldKind::Dictionary => put_field::<Dictionary>(alloc, parser, writing, out),
    };
    match outcome {
        Ok(written) => Answer::of_written(written),
        Err(fault) => Answer::of_fault(fault),
    }
}
