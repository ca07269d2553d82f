//! Signature bases: values of components, and errors.

use crate::common::base_of;
use sfv_signatures::BaseErrorKind;
use std::fmt::Write;
use std::test::Fail;

// An identifier and the value of its component.
const VALUES: &[(&str, &str)] = &[
    ("\"host\"", "www.example.com"),
    ("\"x-ows-header\"", "Leading and trailing whitespace."),
    ("\"cache-control\"", "max-age=60, must-revalidate"),
    ("\"x-empty-header\"", ""),
    ("\"x-empty-header\";bs", "::"),
    ("\"x-empty-header\";sf", ""),
    (
        "\"example-dict\"",
        "a=1,    b=2;x=1;y=2,   c=(a   b   c), d",
    ),
    ("\"example-dict\";sf", "a=1, b=2;x=1;y=2, c=(a b c), d"),
    ("\"example-dict\";key=\"a\"", "1"),
    ("\"example-dict\";key=\"b\"", "2;x=1;y=2"),
    ("\"example-dict\";key=\"c\"", "(a b c)"),
    ("\"example-dict\";key=\"d\";sf", "?1"),
    (
        "\"example-header\";bs",
        ":dmFsdWUsIHdpdGgsIGxvdHM=:, :b2YsIGNvbW1hcw==:",
    ),
    ("\"twice\";key=\"a\"", "2;p"),
    ("\"item\";sf", "?1"),
    ("\"list\"", "a,b"),
    ("\"list\";sf", "a, b"),
    ("\"broken\"", "a=,"),
    ("\"expires\";tr", "Wed, 9 Nov 2022 07:28:00 GMT"),
    ("\"signature\";req", "sig1=:AA==:"),
    ("\"signature\";req;key=\"sig1\"", ":AA==:"),
    ("\"signature\";key=\"sig1\";req", ":AA==:"),
    ("\"example-dict\";req", "a=9"),
    ("\"@method\"", "POST"),
    ("\"@method\";req", "GET"),
    ("\"@query-param\";name=\"var\"", "this%20is"),
    ("\"@query-param\";name=\"\"", "none"),
];

#[test]
fn values_follow_the_rules(rt: HostRuntime) -> Result<(), Fail> {
    let alloc = rt.alloc();
    for &(identifier, value) in VALUES {
        let list = format!(in alloc; "({identifier})")?;
        let expected = format!(in alloc;
            "{identifier}: {value}\n\"@signature-params\": ({identifier})"
        )?;
        let base = base_of(alloc, list.as_str())?;
        assert!(rt;
            base.is_ok_and(|base| base.as_str() == expected.as_str()),
            "{identifier}"
        );
    }
    Ok(())
}

// An inner list, and the error of its base with the index of the identifier.
const ERRORS: &[(&str, BaseErrorKind, usize)] = &[
    ("(a)", BaseErrorKind::NotAString, 0),
    ("(\"host\" 1)", BaseErrorKind::NotAString, 1),
    ("(\"host\" \"host\")", BaseErrorKind::Repeated, 1),
    (
        "(\"host\" \"signature\";key=\"sig1\";req \"signature\";req;key=\"sig1\")",
        BaseErrorKind::Repeated,
        2,
    ),
    ("(\"@signature-params\")", BaseErrorKind::SignatureParams, 0),
    (
        "(\"host\" \"@unknown\")",
        BaseErrorKind::UnknownComponent,
        1,
    ),
    ("(\"@Method\")", BaseErrorKind::UnknownComponent, 0),
    ("(\"missing\")", BaseErrorKind::Absent, 0),
    ("(\"\")", BaseErrorKind::Absent, 0),
    ("(\"Host\")", BaseErrorKind::Absent, 0),
    ("(\"host\";tr)", BaseErrorKind::Absent, 0),
    ("(\"host\";req)", BaseErrorKind::Absent, 0),
    ("(\"host\";req;tr)", BaseErrorKind::Absent, 0),
    ("(\"@path\";req)", BaseErrorKind::Absent, 0),
    ("(\"@query-param\")", BaseErrorKind::Absent, 0),
    ("(\"@query-param\";name=\"no\")", BaseErrorKind::Absent, 0),
    ("(\"@query\")", BaseErrorKind::LineBreak, 0),
    ("(\"host\" \"@request-target\")", BaseErrorKind::NotAscii, 1),
    ("(\"host\";bs;sf)", BaseErrorKind::Conflict, 0),
    ("(\"host\";key=\"a\";bs)", BaseErrorKind::Conflict, 0),
    ("(\"host\";bs=1)", BaseErrorKind::WrongType, 0),
    ("(\"host\";sf=?0)", BaseErrorKind::WrongType, 0),
    ("(\"host\";key)", BaseErrorKind::WrongType, 0),
    ("(\"@query-param\";name=var)", BaseErrorKind::WrongType, 0),
    ("(\"@method\";req=\"a\")", BaseErrorKind::WrongType, 0),
    ("(\"host\";x)", BaseErrorKind::UnknownParameter, 0),
    ("(\"host\";name=\"a\")", BaseErrorKind::UnknownParameter, 0),
    (
        "(\"@method\";name=\"a\")",
        BaseErrorKind::UnknownParameter,
        0,
    ),
    ("(\"@method\";sf)", BaseErrorKind::UnknownParameter, 0),
    ("(\"host\";sf)", BaseErrorKind::UnknownType, 0),
    ("(\"broken\";sf)", BaseErrorKind::Unparsed, 0),
    ("(\"broken\";key=\"a\")", BaseErrorKind::Unparsed, 0),
    ("(\"example-dict\";key=\"x\")", BaseErrorKind::NoMember, 0),
    ("(\"example-dict\";key=\"X Y\")", BaseErrorKind::NoMember, 0),
];

#[test]
fn errors_name_the_rule_and_the_identifier(rt: HostRuntime) -> Result<(), Fail> {
    let alloc = rt.alloc();
    for &(list, kind, index) in ERRORS {
        let base = base_of(alloc, list)?;
        assert!(rt;
            base.is_err_and(|error| error.kind == kind && error.index == index),
            "{list}"
        );
    }
    Ok(())
}
