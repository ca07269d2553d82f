//! The calls of the program.

use crate::reading::{Answer, is_answer, read, read_into_dictionary, read_into_list, write_for};
use crate::{copies, scripts, visiting, writing};
use sfv::{Dictionary, Error, ErrorKind, FieldKind, Item, List, Version};
use sfv_random::leaks::Repeated;
use std::alloc::Global;

/// A call, or a few calls that prepare one.
#[derive(Clone, Copy)]
pub enum Call {
    /// Parses a field and serializes it.
    Read(FieldKind, &'static [u8], Answer),
    /// Parses a further line of a list.
    ReadIntoList(&'static [u8], &'static [u8], Answer),
    /// Parses a further line of a dictionary.
    ReadIntoDictionary(&'static [u8], &'static [u8], Answer),
    /// Parses a field and serializes it for RFC 8941.
    WriteFor(FieldKind, &'static str),
    /// Copies a key, and clones it.
    CopyKey,
    /// Copies a token, and clones it.
    CopyToken,
    /// Copies a string, and clones it.
    CopyString,
    /// Copies a bare item, and clones it.
    CopyBareItem(usize),
    /// Copies a parsed string.
    CopyRead(&'static [u8], &'static str),
    /// Clones a parsed bare item.
    CloneRead(&'static [u8]),
    /// Clones a field.
    Copy(FieldKind, &'static [u8]),
    /// Clones the first member of a list.
    CopyMember(&'static [u8]),
    /// Clones the first member of a list, which is an inner list.
    CopyInnerList(&'static [u8]),
    /// Inserts a member into a dictionary.
    Enter,
    /// Inserts a parameter.
    EnterParameter,
    /// Writes an item of a list.
    ListItem,
    /// Writes an inner list of a list, in a buffer with room for this text, and perhaps an item after it.
    InnerList(&'static str, bool),
    /// Writes an item of an inner list, and perhaps another one if it fails.
    InnerItem(bool),
    /// Writes members, and perhaps again if they fail.
    Members(bool),
    /// Writes a parameter, and perhaps a member after it.
    Parameter(bool),
    /// Writes members of a dictionary.
    NamedMembers,
    /// Begins an inner list of a dictionary.
    NamedInnerList,
    /// Writes items of an inner list.
    Items,
    /// Writes an item with its parameters, in a buffer with room for this text.
    Item(&'static str),
    /// Writes a value after the first text, in a buffer without more room. The result is the second text.
    Value(FieldKind, usize, &'static str, &'static str),
    /// Writes an inner list in a buffer without memory.
    FirstInnerList,
    /// Performs the calls of a field, for a version or not.
    Run(FieldKind, bool),
    /// Parses a field with a visitor under the version. The events are the digits of the number; memory runs out after
    /// those of the others.
    Visit(Version, FieldKind, &'static [u8], u64, &'static [u64]),
}

/// The text of a byte sequence that is longer than what a serializer requests first.
const LONG_BYTES: &str =
    ":YWJjZGVmZ2hpamtsbW5vcHFyc3R1dnd4eXphYmNkZWZnaGlqa2xtbm9wcXJzdHV2d3h5emFiY2RlZmdoaWprbG1ub3BxcnN0dXZ3eHl6:";

/// All calls, with their results.
pub const CALLS: &[Call] = &[
    Call::Read(
        FieldKind::Item,
        b"\"a\\\"b\";k=:aGk:;d=%\"%c3%bc\";k=tok",
        Answer::Text("\"a\\\"b\";k=tok;d=%\"%c3%bc\""),
    ),
    Call::Read(
        FieldKind::Item,
        b"\"a\\\"b\";k=:aGk:;d=%\"%c3%bc\" x",
        Answer::Fault(ErrorKind::TrailingCharactersAfterParsedValue, 27),
    ),
    Call::Read(
        FieldKind::List,
        b"\"a\\\"b\", (%\"%c3%bc\";p)",
        Answer::Text("\"a\\\"b\", (%\"%c3%bc\";p)"),
    ),
    Call::Read(
        FieldKind::List,
        b"\"a\\\"b\", (%\"%c3%bc\";p),",
        Answer::Fault(ErrorKind::TrailingComma, 21),
    ),
    Call::Read(
        FieldKind::Dictionary,
        b"a=\"a\\\"b\", b=(:aGk:);q, a=2.5",
        Answer::Text("a=2.5, b=(:aGk=:);q"),
    ),
    Call::Read(
        FieldKind::Dictionary,
        b"a=\"a\\\"b\", b=(:aGk:);q, a=",
        Answer::Fault(ErrorKind::ExpectedStartOfBareItem, 25),
    ),
    Call::ReadIntoList(
        b"1, (\"a\")",
        b"\"x\\\"y\", 2",
        Answer::Text("1, (\"a\"), \"x\\\"y\", 2"),
    ),
    Call::ReadIntoList(
        b"1, (\"a\")",
        b"\"x\\\"y\", 2,",
        Answer::Fault(ErrorKind::TrailingComma, 9),
    ),
    Call::ReadIntoDictionary(
        b"a=1, b=2",
        b"b=\"q\\\"\";y, c",
        Answer::Text("a=1, b=\"q\\\"\";y, c"),
    ),
    Call::ReadIntoDictionary(
        b"a=1, b=2",
        b"b=\"q\\\"\";y, c=",
        Answer::Fault(ErrorKind::ExpectedStartOfBareItem, 13),
    ),
    Call::Read(
        FieldKind::Item,
        b":Ynl0ZXM=:;k=:aGk=:",
        Answer::Text(":Ynl0ZXM=:;k=:aGk=:"),
    ),
    Call::WriteFor(FieldKind::Item, "\"a\\\"b\";k"),
    Call::WriteFor(FieldKind::Item, ":Ynl0ZXM=:;k=:aGk=:"),
    Call::WriteFor(FieldKind::List, "\"a\\\"b\", (k)"),
    Call::WriteFor(FieldKind::List, LONG_BYTES),
    Call::WriteFor(FieldKind::Dictionary, "a=\"a\\\"b\", b=(k)"),
    Call::CopyKey,
    Call::CopyToken,
    Call::CopyString,
    Call::CopyBareItem(0),
    Call::CopyBareItem(1),
    Call::CopyBareItem(2),
    Call::CopyBareItem(3),
    Call::CopyRead(b"\"a b\"", "a b"),
    Call::CopyRead(b"\"\\\"\"", "\""),
    Call::CloneRead(b"\"a b\""),
    Call::CloneRead(b"\"\\\"\""),
    Call::CloneRead(b":aGk=:"),
    Call::CloneRead(b"%\"%c3%bc\""),
    Call::Copy(FieldKind::Item, b"\"a\";b=c"),
    Call::Copy(FieldKind::List, b"\"a\", (b)"),
    Call::Copy(FieldKind::Dictionary, b"a=\"a\", b=(b)"),
    Call::CopyMember(b"a"),
    Call::CopyMember(b"(a)"),
    Call::CopyInnerList(b"(a);b"),
    Call::Enter,
    Call::EnterParameter,
    Call::ListItem,
    Call::InnerList("X: 1", false),
    Call::InnerList("X: 1, (5", false),
    Call::InnerItem(false),
    Call::Members(false),
    Call::Parameter(false),
    Call::InnerList("X: 1", true),
    Call::InnerList("X: 1, (5", true),
    Call::InnerItem(true),
    Call::Members(true),
    Call::Parameter(true),
    Call::NamedMembers,
    Call::NamedInnerList,
    Call::Items,
    Call::Item("X: "),
    Call::Item("X: 1"),
    Call::Value(FieldKind::Item, 0, "", "\"a b\""),
    Call::Value(FieldKind::Item, 2, "X: ", "X: :Ynl0ZXM=:"),
    Call::Value(FieldKind::Item, 4, "", LONG_BYTES),
    Call::Value(FieldKind::List, 1, "", "a/b"),
    Call::Value(FieldKind::List, 2, "X: ", "X: :Ynl0ZXM=:"),
    Call::Value(FieldKind::List, 3, "", "%\"%c3%bc\""),
    Call::Value(FieldKind::Dictionary, 2, "", "k=:Ynl0ZXM=:"),
    Call::Value(FieldKind::Dictionary, 3, "X: ", "X: k=%\"%c3%bc\""),
    Call::FirstInnerList,
    Call::Run(FieldKind::Item, false),
    Call::Run(FieldKind::List, false),
    Call::Run(FieldKind::Dictionary, false),
    Call::Run(FieldKind::Item, true),
    Call::Run(FieldKind::List, true),
    Call::Run(FieldKind::Dictionary, true),
    Call::Read(
        FieldKind::List,
        b"@1;a=1.5, (@2;b ?0;c=-3);d, tok;e=@4",
        Answer::Text("@1;a=1.5, (@2;b ?0;c=-3);d, tok;e=@4"),
    ),
    Call::Visit(
        Version::Rfc9651,
        FieldKind::Item,
        b"\"a\\\\\";k=\"b\\\\\"",
        567,
        &[0, 5],
    ),
    Call::Visit(
        Version::Rfc8941,
        FieldKind::Item,
        b":aGk=:;k=\"b\\\\\";l",
        5667,
        &[0, 5],
    ),
    Call::Visit(
        Version::Rfc9651,
        FieldKind::List,
        b"(\"a\\\\\" \"b\\\\\";k=:aGk=:), \"c\\\\\"",
        143_573_567_871_357,
        &[143, 143_573, 1_435_735, 1_435_735_678_713],
    ),
    Call::Visit(
        Version::Rfc8941,
        FieldKind::List,
        b"(\"a\\\\\" \"b\\\\\";k=:aGk=:), \"c\\\\\"",
        143_573_567_871_357,
        &[143, 143_573, 1_435_735, 1_435_735_678_713],
    ),
    Call::Visit(
        Version::Rfc9651,
        FieldKind::Dictionary,
        b"a=\"b\\\\\", c=:aGk=:;d=%\"%c3%bc\"",
        235_723_567,
        &[23, 235_723, 2_357_235],
    ),
    Call::Visit(
        Version::Rfc8941,
        FieldKind::Dictionary,
        b"a=\"b\\\\\", c=:aGk=:;d=\"e\\\\\"",
        235_723_567,
        &[23, 235_723, 2_357_235],
    ),
];

/// Parses a field of this type, and serializes it.
fn read_as(alloc: Global, field: FieldKind, input: &[u8]) -> Result<Option<String>, Error> {
    match field {
        FieldKind::Item => read::<Item>(alloc, input),
        FieldKind::List => read::<List>(alloc, input),
        FieldKind::Dictionary => read::<Dictionary>(alloc, input),
    }
}

/// Makes a call. Returns `true` if its result is the expected one with enough memory. Fails with out of memory if
/// memory ran out and the arguments are then as the contract states.
pub fn perform(alloc: Global, call: Call) -> Result<bool, Error> {
    match call {
        Call::Read(field, input, answer) => is_answer(read_as(alloc, field, input), answer),
        Call::ReadIntoList(held, line, answer) => {
            is_answer(read_into_list(alloc, held, line), answer)
        }
        Call::ReadIntoDictionary(held, line, answer) => {
            is_answer(read_into_dictionary(alloc, held, line), answer)
        }
        Call::WriteFor(FieldKind::Item, input) => write_for::<Item>(alloc, input),
        Call::WriteFor(FieldKind::List, input) => write_for::<List>(alloc, input),
        Call::WriteFor(FieldKind::Dictionary, input) => write_for::<Dictionary>(alloc, input),
        Call::CopyKey => copies::key(alloc),
        Call::CopyToken => copies::token(alloc),
        Call::CopyString => copies::string(alloc),
        Call::CopyBareItem(row) => copies::bare_item(alloc, row),
        Call::CopyRead(input, text) => copies::read_string(alloc, input, text),
        Call::CloneRead(input) => copies::read_item(alloc, input),
        Call::Copy(FieldKind::Item, input) => copies::field::<Item>(alloc, input),
        Call::Copy(FieldKind::List, input) => copies::field::<List>(alloc, input),
        Call::Copy(FieldKind::Dictionary, input) => copies::field::<Dictionary>(alloc, input),
        Call::CopyMember(input) => copies::member(alloc, input),
        Call::CopyInnerList(input) => copies::inner_list(alloc, input),
        Call::Enter => copies::entered(alloc),
        Call::EnterParameter => copies::parameter_entered(alloc),
        Call::ListItem => writing::first_item(alloc),
        Call::InnerList(room, goes_on) => writing::inner_list(alloc, room, goes_on),
        Call::InnerItem(goes_on) => writing::inner_item(alloc, goes_on),
        Call::Members(again) => writing::members(alloc, again),
        Call::Parameter(goes_on) => writing::parameter(alloc, goes_on),
        Call::NamedMembers => writing::named_members(alloc),
        Call::NamedInnerList => writing::named_inner_list(alloc),
        Call::Items => writing::items(alloc),
        Call::Item(room) => writing::item(alloc, room),
        Call::Value(field, row, old, new) => writing::value(alloc, field, row, old, new),
        Call::FirstInnerList => writing::first_inner_list(alloc),
        Call::Run(field, bound) => scripts::run(alloc, field, bound),
        Call::Visit(version, field, input, whole, before) => {
            visiting::visit(alloc, version, field, input, whole, before)
        }
    }
}

impl Repeated for Call {
    fn repeat(&self, alloc: Global) -> bool {
        matches!(perform(alloc, *self), Ok(true))
    }
}
