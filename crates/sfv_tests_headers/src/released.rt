//! Memory that the calls release. Each is made often.

use crate::digests::matches;
use crate::sec_ch_ua::has_brands;
use crate::values::{Kind, has_text, is_written};
use sfv_random::leaks::{Repeated, keeps_memory};
use std::alloc::Global;
use std::test::Fail;

/// A call with the value that it gives.
#[derive(Clone, Copy)]
enum Call {
    /// A field of two lines is read.
    Read(&'static str, Option<&'static str>),
    /// A list is written.
    Written(&'static str, Option<&'static str>),
    /// A content is verified by a header map.
    Verified,
    /// The brands of a field are read.
    Brands(&'static str),
}

impl Repeated for Call {
    fn repeat(&self, alloc: Global) -> bool {
        match *self {
            Call::Read(name, expected) => has_text(alloc, Kind::Dictionary, name, expected),
            Call::Written(text, expected) => is_written(alloc, Kind::List, text, expected),
            Call::Verified => matches(alloc),
            Call::Brands(input) => has_brands(alloc, input, &[("a\"b", "2")]),
        }
    }
}

#[test]
fn memory_is_released(rt: HostRuntime) -> Result<(), Fail> {
    let calls = &[
        Call::Read("d", Some("a=2, b;x")),
        Call::Written("(a \"b\");c=:AAAA:", Some("(a \"b\");c=:AAAA:")),
        Call::Written("", None),
        Call::Verified,
        Call::Brands("\"a\\\"b\";v=\"1\\\\\";x;v=\"2\""),
    ];
    for (row, call) in calls.iter().enumerate() {
        assert!(rt; keeps_memory(&rt, call)?, "{row}");
    }
    Ok(())
}
