//! The texts of kinds of errors.

ghost use Rattle.std.specs.Prelude.{◌≡◌};
ghost use Rattle.sfv_c.specs.Answers.{IsMessage};

use crate::answer::{Answer, BAD_ARGUMENT, put};
use crate::numbers::kind_of_number;

/// Puts the text of the kind of error of this number at the beginning of the buffer.
pub(crate) fn message(number: u32, out: &mut [u8]) -> Answer
    ensures { IsMessage number out.old out.new result }
{
    match kind_of_number(number) {
        Some(kind) => Answer::of_written(put(kind.message(), out)),
        None => BAD_ARGUMENT,
    }
}
