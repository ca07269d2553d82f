//! Rows of names.

ghost use Rattle.std.specs.Prelude.{◌≡◌, option_map};
ghost use Rattle.sfv_signatures.specs.HttpMessages.{type_in, text_in};

use sfv::FieldKind;

/// Returns the text of the first row with this name, or `None`.
pub(crate) fn text_in<'a>(rows: &'a [(&'a str, &'a str)], name: &str) -> Option<&'a str>
    ensures { option_map (λ text. text.now) result ≡ text_in rows.entry name.now }
{
    for (row, text) in rows {
        if *row == name {
            return Some(*text);
        }
    }
    None
}

/// Returns the type in the first row with this name, or `None`.
pub(crate) fn type_in(types: &[(&str, FieldKind)], name: &str) -> Option<FieldKind>
    ensures { result ≡ type_in types.now name.now }
{
    for (row, kind) in types {
        if *row == name {
            return Some(*kind);
        }
    }
    None
}
