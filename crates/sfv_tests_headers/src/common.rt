//! Header maps with given lines.

use http_header::{HeaderMap, HeaderName, HeaderValue};
use std::alloc::Global;

/// The name and the value of a line.
pub type Line = (&'static str, &'static str);

/// Appends a line to a header map. Returns `None` if it is not a line, or if memory runs out.
pub fn append(alloc: Global, headers: &mut HeaderMap, name: &str, value: &str) -> Option<()> {
    let name = HeaderName::from_bytes(alloc, name.as_bytes()).ok()?;
    let value = HeaderValue::from_str(alloc, value).ok()?;
    headers.append(name, value).ok()?;
    Some(())
}

/// Returns a header map with these lines.
pub fn map_of(alloc: Global, lines: &[Line]) -> Option<HeaderMap> {
    let mut headers = HeaderMap::new(alloc);
    for &(name, value) in lines {
        append(alloc, &mut headers, name, value)?;
    }
    Some(headers)
}
