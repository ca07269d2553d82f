//! The Sec-CH-UA field.

use sfv::Version;
use sfv_http_fields::sec_ch_ua::{Brand, brands};
use std::alloc::Global;
use std::test::Fail;

// Returns `true` if the brand has this name and this version.
fn is_brand(brand: &Brand<'_>, (name, version): (&str, &str)) -> bool {
    let found = match &brand.version {
        Some(found) => found.as_string_ref().as_str(),
        None => "none",
    };
    brand.name.as_string_ref().as_str() == name && found == version
}

/// Returns `true` if the field has these brands, in order.
pub fn has_brands(alloc: Global, input: &str, expected: &[(&str, &str)]) -> bool {
    let Ok(found) = brands(alloc, input.as_bytes(), Version::Rfc8941) else {
        return false;
    };
    let mut holds = found.len() == expected.len();
    for (brand, &row) in found.iter().zip(expected) {
        holds &= is_brand(brand, row);
    }
    holds
}

#[test]
fn brands_are_read_in_order(rt: HostRuntime) {
    let rows: &[(&str, &[(&str, &str)])] = &[
        (
            "\"Examplary Browser\";v=\"73\", \";Not?A.Brand\";v=\"27\"",
            &[("Examplary Browser", "73"), (";Not?A.Brand", "27")],
        ),
        ("\"a\\\"b\";v=\"1\\\\\";x;v=\"2\"", &[("a\"b", "2")]),
        (
            "\"a\";v=1, token;v=\"2\", (\"b\");v=\"3\", \"c\"",
            &[("a", "none"), ("c", "none")],
        ),
        ("", &[]),
    ];
    for &(input, expected) in rows {
        assert!(rt; has_brands(rt.alloc(), input, expected), "{input}");
    }
    assert!(rt; brands(rt.alloc(), b"\"a\",", Version::Rfc8941).is_err());
}

#[test]
fn many_brands_are_read(rt: HostRuntime) -> Result<(), Fail> {
    let alloc = rt.alloc();
    let mut input = String::from_str(alloc, "\"a\";v=\"1\"")?;
    for &count in &[1_usize, 2, 4, 8, 16, 32, 64, 128, 256, 512, 1024, 2048] {
        let holds = match brands(alloc, input.as_bytes(), Version::Rfc9651) {
            Ok(found) => {
                found.len() == count && found.iter().all(|brand| is_brand(brand, ("a", "1")))
            }
            Err(_) => false,
        };
        assert!(rt; holds, "{count}");
        input = format!(in alloc; "{input}, {input}")?;
    }
    Ok(())
}
