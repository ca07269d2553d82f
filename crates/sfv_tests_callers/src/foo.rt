//! The example field, with and without a tree.

use sfv::{Dictionary, ParseError, Parser, Version};
use sfv_examples::foo::{Color, Foo, FooFault, foo_from_dictionary, read_foo};
use std::alloc::Global;

const RED: Result<Foo, FooFault> = Ok(Foo {
    color: Color::Red,
    strong: false,
});

const STRONG_RED: Result<Foo, FooFault> = Ok(Foo {
    color: Color::Red,
    strong: true,
});

const BLUE: Result<Foo, FooFault> = Ok(Foo {
    color: Color::Blue,
    strong: false,
});

const STRONG_BLUE: Result<Foo, FooFault> = Ok(Foo {
    color: Color::Blue,
    strong: true,
});

/// Returns the result of the visitor, if the input is a dictionary.
fn by_visitor(alloc: Global, version: Version, input: &[u8]) -> Option<Result<Foo, FooFault>> {
    match read_foo(alloc, version, input) {
        Ok(foo) => Some(Ok(foo)),
        Err(ParseError::Visitor(fault)) => Some(Err(fault)),
        Err(ParseError::Syntax(_)) => None,
    }
}

/// Returns `true` if both ways have this result under the version.
fn is_found(
    alloc: Global,
    version: Version,
    input: &[u8],
    expected: Result<Foo, FooFault>,
) -> bool {
    let parser = Parser::new(input).with_version(version);
    match parser.parse::<Dictionary>(alloc) {
        Ok(dictionary) => {
            by_visitor(alloc, version, input) == Some(expected)
                && foo_from_dictionary(&dictionary) == expected
        }
        Err(_) => false,
    }
}

#[test]
fn both_ways(rt: HostRuntime) {
    let alloc = rt.alloc();
    let rows = &[
        ("color=123;strong, color=red", RED),
        ("color=red;strong=a;strong", STRONG_RED),
        ("x=(red), color=blue;strong", STRONG_BLUE),
        ("color=(red;strong);strong", Err(FooFault::ColorWrongType)),
        ("color=green;strong=a", Err(FooFault::ColorInvalid)),
        ("color=red;strong=a", Err(FooFault::StrongWrongType)),
        ("", Err(FooFault::ColorMissing)),
        // A value is not combined with earlier ones, and a member has only its own parameters.
        ("color=red;strong, color=blue", BLUE),
        ("color, x=red;strong", Err(FooFault::ColorWrongType)),
        ("color=\"red\"", Err(FooFault::ColorWrongType)),
        ("color=blue;strong=?0;x, y;strong", BLUE),
        ("color=red, color=(blue)", Err(FooFault::ColorWrongType)),
    ];
    for &(input, expected) in rows {
        let holds = is_found(alloc, Version::Rfc8941, input.as_bytes(), expected)
            && is_found(alloc, Version::Rfc9651, input.as_bytes(), expected);
        assert!(rt; holds, "{input}");
    }
}

/// Returns `true` if the error prints as this text.
fn is_printed(alloc: Global, fault: FooFault, wanted: &str) -> bool {
    match fault.to_string(alloc) {
        Ok(text) => text.as_str() == wanted,
        Err(_) => false,
    }
}

#[test]
fn faults_are_printed(rt: HostRuntime) {
    let rows = &[
        (FooFault::ColorMissing, "color missing"),
        (FooFault::ColorWrongType, "color wrong type"),
        (FooFault::ColorInvalid, "color invalid"),
        (FooFault::StrongWrongType, "strong wrong type"),
    ];
    for &(fault, text) in rows {
        assert!(rt; is_printed(rt.alloc(), fault, text), "{text}");
    }
}
