//! Colors of words.

ghost use Rattle.std.specs.Prelude.{◌≡◌, ◌++◌, OnOk, string_bytes};
ghost use Rattle.sfv_lint_head.specs.Paint.{color_of, painted};

use std::alloc::AllocError;

/// The colors of the output.
#[derive(Clone, Copy, Debug, PartialEq, Eq)]
pub enum Colors {
    /// No word has a color.
    Off,
    /// Words have colors, by the codes of ECMA-48 (SGR).
    On,
}

/// What a word says.
#[derive(Clone, Copy, Debug, PartialEq, Eq)]
pub enum Tone {
    /// All is right.
    Good,
    /// There is an error.
    Bad,
    /// There is a note.
    Note,
}

/// Returns the code of a color: green, red or yellow.
fn color_of(tone: Tone) -> &'static str
    ensures { result.now ≡ color_of tone }
{
    match tone {
        Tone::Good => "32",
        Tone::Bad => "31",
        Tone::Note => "33",
    }
}

/// Appends a word, in its color if there are colors.
///
/// # Errors
///
/// Returns `AllocError` if memory runs out. A part may then be appended.
pub fn append_painted(
    out: &mut String,
    colors: Colors,
    tone: Tone,
    word: &str,
) -> Result<(), AllocError>
    ensures { OnOk result (string_bytes out.new ≡ string_bytes out.old ++ painted colors tone word.now) }
{
    match colors {
        Colors::Off => out.push_str(word),
        Colors::On => {
            out.push_str("\x1b[")?;
            out.push_str(color_of(tone))?;
            out.push('m')?;
            out.push_str(word)?;
            out.push_str("\x1b[0m")
        }
    }
}
