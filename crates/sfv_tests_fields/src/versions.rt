//! Serialization for a version.

use crate::common::{counted, has_text, is_text, list_of, numbers, value};
use sfv::{
    BareItemType, Dictionary, Error, FieldType, Item, ItemSerializer, List, ListEntry,
    ListSerializer, Parser, SerializeError, Version, append_inner_list, append_member,
};
use sfv_random::rows::row;
use sfv_random::texts::filled;
use std::alloc::Global;
use std::test::Fail;

const DATE: SerializeError = SerializeError::Unsupported(BareItemType::Date);

const DISPLAY: SerializeError = SerializeError::Unsupported(BareItemType::DisplayString);

#[test]
fn errors_of_writing_print_why(rt: HostRuntime) {
    let rows = &[
        (DATE, "RFC 8941 does not support dates"),
        (DISPLAY, "RFC 8941 does not support display strings"),
        (SerializeError::OutOfMemory, "out of memory"),
    ];
    for &(error, text) in rows {
        assert!(rt; has_text(error.to_string(rt.alloc()).ok(), text), "{text}");
    }
}

/// Returns the error of RFC 8941 for a field, if there is one.
fn refusal_of<T: FieldType>(alloc: Global, input: &str) -> Result<Option<SerializeError>, Error> {
    let value = Parser::new(input.as_bytes()).parse::<T>(alloc)?;
    Ok(value.serialize_for(alloc, Version::Rfc8941).err())
}

#[test]
fn fields_are_refused_at_their_first_value_that_the_version_lacks(rt: HostRuntime) {
    let lists = &[
        ("1, @2, %\"q\"", Some(DATE)),
        ("1;a=%\"q\", @2", Some(DISPLAY)),
        ("(1 2;x=@1);y=%\"q\"", Some(DATE)),
        ("(1 2);y=%\"q\", @2", Some(DISPLAY)),
        ("1, (a;b=\"c\")", None),
    ];
    for &(input, refusal) in lists {
        assert!(rt;
            refusal_of::<List>(rt.alloc(), input) == Ok(refusal),
            "{input}"
        );
    }
    let dictionaries = &[
        ("a=1;x=%\"q\", b=@2", Some(DISPLAY)),
        ("a=1, b=(@2 %\"q\")", Some(DATE)),
        // A value that a later one replaced is not written.
        ("a=@1, a=2", None),
    ];
    for &(input, refusal) in dictionaries {
        assert!(rt;
            refusal_of::<Dictionary>(rt.alloc(), input) == Ok(refusal),
            "{input}"
        );
    }
}

/// Returns `true` if appending a field to a text fails as `serialize_for` does, and the text stays.
fn is_left_by_field<T: FieldType>(alloc: Global, input: &str) -> Option<bool> {
    let value = Parser::new(input.as_bytes()).parse::<T>(alloc).ok()?;
    let mut text = String::from_str(alloc, "-").ok()?;
    let capacity = text.capacity();
    let error = value.append_to(Version::Rfc8941, &mut text).err();
    let refusal = value.serialize_for(alloc, Version::Rfc8941).err();
    let stays = text.as_str() == "-" && text.capacity() == capacity;
    Some(error.is_some() && error == refusal && stays)
}

#[test]
fn a_field_that_the_version_lacks_is_not_appended(rt: HostRuntime) {
    let alloc = rt.alloc();
    for &item in &["@1", "1;a=%\"q\""] {
        assert!(rt;
            is_left_by_field::<Item>(alloc, item) == Some(true),
            "{item}"
        );
    }
    for &list in &["1, @2", "(1 2;x=@1)"] {
        assert!(rt;
            is_left_by_field::<List>(alloc, list) == Some(true),
            "{list}"
        );
    }
    for &dictionary in &["a=1, b=(@2)", "a=1, b;x=@1"] {
        let holds = is_left_by_field::<Dictionary>(alloc, dictionary) == Some(true);
        assert!(rt; holds, "{dictionary}");
    }
}

/// Appends a member, and an inner list again without its entry. Appends an exclamation mark for each date.
fn append_alone(member: &ListEntry, text: &mut String) -> Option<()> {
    text.push('|').ok()?;
    if append_member(Version::Rfc8941, member, text) == Err(DATE) {
        text.push('!').ok()?;
    }
    if let ListEntry::InnerList(list) = member {
        text.push('=').ok()?;
        if append_inner_list(Version::Rfc8941, list, text) == Err(DATE) {
            text.push('!').ok()?;
        }
    }
    Some(())
}

/// Returns the texts of the members of a list.
fn members_alone(alloc: Global, input: &str) -> Option<String> {
    let list = list_of(alloc, Parser::new(input.as_bytes()))?;
    let mut text = String::new(alloc);
    for member in list.iter() {
        append_alone(member, &mut text)?;
    }
    Some(text)
}

#[test]
fn members_are_appended_alone(rt: HostRuntime) {
    let input = "a;x, (1  \"b\";y);z=?0, @1, (1;d=@2), ()";
    let wanted = "|a;x|(1 \"b\";y);z=?0=(1 \"b\";y);z=?0|!|!=!|()=()";
    assert!(rt; has_text(members_alone(rt.alloc(), input), wanted));
}

/// Fails unless the only member of a list is appended as this text.
fn is_appended_alone(alloc: Global, input: &str, wanted: &str) -> Result<(), Fail> {
    let holds = has_text(members_alone(alloc, input), wanted);
    row("list", Version::Rfc8941, input, wanted, holds)
}

#[test]
fn members_of_many_sizes_are_appended_alone(rt: HostRuntime) -> Result<(), Fail> {
    let alloc = rt.alloc();
    for &count in numbers(alloc, 40, 20_000)?.iter() {
        let item = counted(alloc, "a", ";k", "", "", count)?;
        let wanted = filled(alloc, "|$", item.as_str())?;
        is_appended_alone(alloc, item.as_str(), wanted.as_str())?;
        let list = counted(alloc, "(", "k", " ", ");x", count)?;
        let wanted = filled(alloc, "|$=$", list.as_str())?;
        is_appended_alone(alloc, list.as_str(), wanted.as_str())?;
    }
    Ok(())
}

/// Returns `true` if a failed item leaves the text unchanged.
fn is_left_by_item(alloc: Global) -> bool {
    let Ok(mut text) = String::from_str(alloc, "X") else {
        return false;
    };
    let item = ItemSerializer::with_buffer_for(&mut text, Version::Rfc8941);
    let is_refused = item.bare_item(value("@")).err() == Some(DATE);
    is_refused & is_text(&text, "X")
}

/// Returns `true` if failed members leave the list unchanged, and it can continue.
fn is_left_by_members(alloc: Global) -> bool {
    let Ok(list) = Parser::new(b"1, (2 3;a=@4), 5").parse::<List>(alloc) else {
        return false;
    };
    let mut text = String::new(alloc);
    let mut serializer = ListSerializer::with_buffer_for(&mut text, Version::Rfc8941);
    let mut members = list.iter();
    let is_refused = serializer.members(&mut members) == Err(DATE);
    let is_left = !serializer.has_member() && members.len() == 1;
    let is_written = serializer.members(list[..1].iter()) == Ok(());
    is_refused & is_left & is_written & (serializer.finish() == Some("1"))
}

/// Returns `true` if a failed member leaves the list unchanged, and it can continue.
fn is_left_by_member(alloc: Global) -> bool {
    let Ok(mut text) = String::from_str(alloc, "X") else {
        return false;
    };
    let mut list = ListSerializer::with_buffer_for(&mut text, Version::Rfc8941);
    let is_begun = list.bare_item(value("1")).is_ok();
    let is_refused = list.bare_item(value("@2")).err() == Some(DATE);
    let is_continued = list.bare_item(value("3")).is_ok();
    is_begun & is_refused & is_continued & (list.finish() == Some("X1, 3"))
}

/// Returns `true` if a failed item leaves the inner list unchanged, and it can continue.
fn is_left_by_inner_item(alloc: Global) -> bool {
    let mut text = String::new(alloc);
    let mut list = ListSerializer::with_buffer_for(&mut text, Version::Rfc8941);
    let Ok(mut inner) = list.inner_list() else {
        return false;
    };
    let is_refused = inner.bare_item(value("@5")).err() == Some(DATE);
    let is_continued = inner.bare_item(value("6")).is_ok();
    let is_ended = inner.finish().is_ok();
    is_refused & is_continued & is_ended & (list.finish() == Some("(6)"))
}

#[test]
fn what_is_refused_leaves_the_text(rt: HostRuntime) {
    assert!(rt; is_left_by_item(rt.alloc()));
    assert!(rt; is_left_by_members(rt.alloc()));
    assert!(rt; is_left_by_member(rt.alloc()));
    assert!(rt; is_left_by_inner_item(rt.alloc()));
}
