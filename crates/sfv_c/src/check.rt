//! Checks that write nothing.

ghost use Rattle.sfv.specs.Parsers.{input_of, version_of};
ghost use Rattle.sfv_c.specs.Answers.{IsCheck};

use crate::answer::{Answer, OK};
use crate::reading::{read, syntax_of};
use sfv::visitor::Ignored;
use sfv::{FieldKind, Parser};
use std::alloc::Global;

/// Checks that the input is a field of this type.
pub(crate) fn check(alloc: Global, field: FieldKind, parser: Parser<'_>) -> Answer
    ensures { IsCheck (version_of parser.entry) field (input_of parser.entry) result }
{
    match read(alloc, field, parser, Ignored) {
        Ok(()) => Answer::of_sizes(OK, 0, 0),
        Err(error) => Answer::of_error(syntax_of(error)),
    }
}
