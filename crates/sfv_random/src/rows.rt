//! Rows of tests. The first row that fails names itself.

use sfv::Version;
use std::fmt::Display;
use std::test::Fail;

/// Fails unless the row holds. The failure has the type of the field, the version, the input, and the expected value. A row
/// without an expected value has a number or a word in its place.
pub fn row<D: Display + Drop>(
    field: &str,
    version: Version,
    input: &str,
    wanted: D,
    holds: bool,
) -> Result<(), Fail> {
    if holds {
        return Ok(());
    }
    let len = input.len();
    Err(Fail::new(format_args!("{field}, {version}, {wanted}: {len} bytes of input: {input:?}")))
}
