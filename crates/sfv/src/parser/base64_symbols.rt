//! Runs of Base64 symbols and padding (RFC 4648, section 4).

ghost use Rattle.std.specs.Prelude.{◌≡◌};
ghost use Rattle.sfv_model.specs.Content.{most_padding};
ghost use Rattle.sfv.specs.parser.Base64.{IsSymbolRun, IsPaddingRun};

use sfv_base::runs::{Symbol, long_run_end, whole_run_end};

/// Returns the number of symbols at the start of `bytes`.
pub(crate) fn symbol_run(bytes: &[u8]) -> usize
    ensures { IsSymbolRun bytes.now result }
{
    // Most fields with a byte sequence end soon after it.
    if bytes.len() <= 64 {
        return whole_run_end::<Symbol>(bytes);
    }
    long_run_end::<Symbol>(bytes)
}

/// Returns the number of padding bytes at the start of `bytes`, at most `most`.
pub(crate) fn padding_run(bytes: &[u8], most: usize) -> usize
    ensures { IsPaddingRun bytes.now most result }
{
    let mut count = 0;
    while count < most && count < bytes.len() && bytes[count] == b'=' {
        count += 1;
    }
    count
}

/// Returns how many padding bytes may follow `count` symbols.
pub(crate) fn padding_after(count: usize) -> usize
    ensures { result ≡ most_padding count }
{
    match count % 4 {
        2 => 2,
        3 => 1,
        _ => 0,
    }
}
