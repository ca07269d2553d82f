//! The text of a field in a header map.

use crate::common::{Line, append, map_of};
use http_header::HeaderMap;
use sfv_headers::field_text;
use std::alloc::Global;
use std::borrow::CowSlice;
use std::test::Fail;

// Returns `true` if the field has this text, borrowed if and only if `borrows`.
fn has_text(alloc: Global, headers: &HeaderMap, name: &str, expected: &str, borrows: bool) -> bool {
    match field_text(alloc, headers, name) {
        Ok(Some(CowSlice::Borrowed(text))) => borrows && text == expected.as_bytes(),
        Ok(Some(CowSlice::Owned(text))) => !borrows && text.as_slice() == expected.as_bytes(),
        _ => false,
    }
}

const LINES: &[Line] = &[("a", "1"), ("B", "2;x"), ("A", ""), ("a", "3"), ("c", "")];

#[test]
fn fields_have_their_text(rt: HostRuntime) {
    let rows = &[
        ("a", "1, , 3", false),
        ("A", "1, , 3", false),
        ("b", "2;x", true),
        ("C", "", true),
    ];
    let headers = map_of(rt.alloc(), LINES);
    for &(name, expected, borrows) in rows {
        assert!(rt;
            matches!(&headers, Some(headers) if has_text(rt.alloc(), headers, name, expected, borrows)),
            "{name}"
        );
    }
    assert!(rt;
        matches!(&headers, Some(headers) if matches!(field_text(rt.alloc(), headers, "d"), Ok(None)))
    );
}

#[test]
fn many_lines_are_joined(rt: HostRuntime) -> Result<(), Fail> {
    let alloc = rt.alloc();
    let mut headers = HeaderMap::new(alloc);
    let mut text = String::new(alloc);
    for count in 1..1_200 {
        if count > 1 {
            text.push_str(", ")?;
        }
        text.push_str("k=1")?;
        let appended = append(alloc, &mut headers, "Priority", "k=1").is_some();
        assert!(rt;
            appended && has_text(alloc, &headers, "priority", text.as_str(), count == 1),
            "{count}"
        );
    }
    Ok(())
}
