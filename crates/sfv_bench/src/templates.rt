//! Templates of fields as servers receive them.

use crate::fields::Field;
use sfv::FieldKind;
use sfv_random::Random;
use std::alloc::{AllocError, Global};

/// A field that has a reader, or the type of another one.
#[derive(Clone, Copy, PartialEq, Eq)]
pub enum Shape {
    /// An item.
    Item,
    /// A list.
    List,
    /// A dictionary.
    Dictionary,
    /// Cache-Status.
    CacheStatus,
    /// Proxy-Status.
    ProxyStatus,
    /// Priority.
    Priority,
    /// CDN-Cache-Control.
    CdnCacheControl,
    /// The head of a request, with the field Priority.
    Head,
}

impl Shape {
    fn kind(self) -> FieldKind {
        match self {
            Shape::Item => FieldKind::Item,
            Shape::List | Shape::CacheStatus | Shape::ProxyStatus => FieldKind::List,
            Shape::Dictionary | Shape::Priority | Shape::CdnCacheControl | Shape::Head => {
                FieldKind::Dictionary
            }
        }
    }
}

// Returns the item with this number.
fn item(number: u64) -> &'static str {
    match number % 7 {
        0 => "&",
        1 => "?1;n=&",
        2 => "&.##",
        3 => "@&",
        4 => "\"/path/to/^^^^^^/&\"",
        5 => "text/html;charset=utf-8;v=&",
        _ => "%\"f%c3%bc%c3%bc &\"",
    }
}

// Returns the list with this number.
fn list(number: u64) -> (Shape, &'static str) {
    match number % 8 {
        0 => (Shape::CacheStatus, "ExampleCache; hit; ttl=&"),
        1 => (
            Shape::CacheStatus,
            "OriginCache; hit; ttl=1###; collapsed, \"CDN Company Here\"; fwd=uri-miss; fwd-status=304; stored; ttl=&; key=\"/a/^^^^^\"",
        ),
        2 => (
            Shape::ProxyStatus,
            "proxy.example.net; error=http_protocol_error; details=\"Malformed response header: space before colon\"; received-status=5##; n=&",
        ),
        3 => (
            Shape::List,
            "\"Chromium\";v=\"1##\", \"Not A(Brand\";v=\"##\", \"Google Chrome\";v=\"1##.0.&\"",
        ),
        4 => (
            Shape::List,
            "Sec-CH-UA-Arch, Sec-CH-UA-Bitness, Sec-CH-UA-Full-Version-List, Sec-CH-UA-Model, X-^^^^-&",
        ),
        5 => (
            Shape::List,
            "\"default\";q=###;w=#, \"daily\";q=&;w=####;pk=:$$$$$$$$:",
        ),
        6 => (
            Shape::List,
            "gzip;q=1.0, br;q=0.#, zstd;q=0.##, *;q=0.#;n=&",
        ),
        _ => (
            Shape::List,
            "(\"a^^^\" \"b^^^\";x=#);created=&, (\"c^^^\");keyid=\"k-##\"",
        ),
    }
}

// Returns the dictionary with this number.
fn dictionary(number: u64) -> (Shape, &'static str) {
    match number % 9 {
        0 => (Shape::Priority, "u=#, i, n=&"),
        1 => (Shape::Priority, "u=#;x=&, i=?1"),
        2 => (
            Shape::Dictionary,
            "sig1=(\"@method\" \"@authority\" \"@path\" \"content-digest\" \"content-type\");created=16########;keyid=\"test-key-&\";alg=\"ed25519\"",
        ),
        3 => (
            Shape::Dictionary,
            "sig1=:$$$$$$$$$$$$$$$$$$$$$$$$$$$$$$$$$$$$$$$$$$$$$$$$$$$$$$$$$$$$$$$$$$$$$$$$$$$$$&Q==:",
        ),
        4 => (
            Shape::Dictionary,
            "sha-256=:$$$$$$$$$$$$$$$$$$$$$$$$$$$$$$$$$$&A=:",
        ),
        5 => (
            Shape::Dictionary,
            "sha-256=:$$$$$$$$$$$$$$$$$$$$$$$$$$$$$$$$$$&A=:, sha-512=:$$$$$$$$$$$$$$$$$$$$$$$$$$$$$$$$$$$$$$$$$$$$$$$$$$$$$$$$$$$$$$$$$$$$$$$$$$$$$$$$$$$$$A==:",
        ),
        6 => (
            Shape::CdnCacheControl,
            "max-age=&, stale-while-revalidate=###, stale-if-error=####, must-revalidate, public",
        ),
        7 => (
            Shape::CdnCacheControl,
            "max-age=60, no-transform, max-age=&;a, s-maxage=###",
        ),
        _ => (
            Shape::Dictionary,
            "accept=(text/html application/json;q=0.#), lang=en;q=1.0, note=\"say \\\"^^^^\\\" &\", at=@16########",
        ),
    }
}

/// Returns a field of a random template.
pub fn any_field(
    alloc: Global,
    random: &mut Random,
    number: u32,
) -> Result<(Shape, Field), AllocError> {
    let (shape, template) = match random.next() % 6 {
        0 => (Shape::Item, item(random.next())),
        1 | 2 | 3 => list(random.next()),
        _ => dictionary(random.next()),
    };
    let mut field = Field::new(alloc, shape.kind());
    field.push(random, template, number)?;
    Ok((shape, field))
}

/// Returns the head of a request with a field Priority.
pub fn head(alloc: Global, random: &mut Random, number: u32) -> Result<(Shape, Field), AllocError> {
    let mut field = Field::new(alloc, FieldKind::Dictionary);
    field.push(
        random,
        "GET /a/^^^^^^/& HTTP/1.1\r\nHost: ^^^^.example\r\nAccept: */*\r\nPriority: u=#, i\r\n\r\n",
        number,
    )?;
    Ok((Shape::Head, field))
}
