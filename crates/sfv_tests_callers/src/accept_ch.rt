//! The Accept-CH field: whether it has a hint.

use crate::common::{ladder, of_size};
use sfv::Version;
use sfv_http_fields::accept_ch::accepts;
use std::alloc::Global;
use std::test::Fail;

// Returns `true` if the field is parsed, and has the hint if and only if `expected` is true.
fn has_hint(alloc: Global, input: &str, hint: &str, expected: bool) -> bool {
    accepts(alloc, input.as_bytes(), Version::Rfc8941, hint) == Ok(expected)
}

// The first is the example of RFC 8942, section 3.1.
#[test]
fn hints_are_found(rt: HostRuntime) {
    let rows = &[
        ("Sec-CH-Example, Sec-CH-Example-2", "Sec-CH-Example", true),
        ("Sec-CH-Example, Sec-CH-Example-2", "Sec-CH-Example-2", true),
        (
            "Sec-CH-Example, Sec-CH-Example-2",
            "Sec-CH-Example-3",
            false,
        ),
        ("DPR;q=1, Width", "DPR", true),
        ("Width, (DPR)", "DPR", false),
        ("\"dpr\", 1;dpr", "dpr", false),
        ("dpr", "DPR", false),
        ("DPR, DPR, Width", "DPR", true),
        ("", "DPR", false),
        ("a", "", false),
    ];
    for &(input, hint, expected) in rows {
        assert!(rt;
            has_hint(rt.alloc(), input, hint, expected),
            "{input} {hint}"
        );
    }
}

#[test]
fn hints_are_found_in_lists_of_many_sizes(rt: HostRuntime) -> Result<(), Fail> {
    for &count in ladder(rt.alloc(), 40, 1 << 14)?.iter() {
        let input = of_size(rt.alloc(), ("DPR;q=1", ", k#", "", ", Width"), count)?;
        for (hint, expected) in [("DPR", true), ("Width", true), ("ECT", false)] {
            assert!(rt;
                has_hint(rt.alloc(), input.as_str(), hint, expected),
                "{count} {hint}"
            );
        }
    }
    Ok(())
}

#[test]
fn an_input_that_is_no_list_is_rejected(rt: HostRuntime) {
    for &input in &["DPR,", "DPR Width", "DPR,, Width"] {
        assert!(rt; accepts(rt.alloc(), input.as_bytes(), Version::Rfc8941, "DPR").is_err());
    }
}
