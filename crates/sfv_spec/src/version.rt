//! The versions of the standard.

ghost use Rattle.std.specs.Prelude.{◌≡◌, Some};
ghost use Rattle.sfv_spec.specs.Values.{version_text};

use std::fmt;

/// A version of the standard.
#[derive(Clone, Copy, Debug, PartialEq, Eq)]
pub enum Version {
    /// RFC 8941. It lacks dates and display strings.
    Rfc8941,
    /// RFC 9651.
    Rfc9651,
}

impl Version {
    fn name(self) -> &'static str
        ensures { result.now ≡ version_text self }
    {
        match self {
            Version::Rfc8941 => "RFC 8941",
            Version::Rfc9651 => "RFC 9651",
        }
    }
}

impl fmt::Display for Version {
    ghost output = { λ v. Some (version_text v) };

    ghost styled_output = { λ v _. Some (version_text v) };

    fn fmt<W: fmt::Write>(&self, f: &mut fmt::Formatter<W>) -> fmt::Result {
        f.write_str(self.name())
    }
}
