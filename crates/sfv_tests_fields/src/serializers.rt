//! Items, lists and dictionaries that are written whole, or part by part with single calls.

use crate::common::{dictionary_of, gives, has_text, is_text, item_of, list_of, value};
use sfv::{
    BareItem, DictSerializer, FieldType, InnerList, InnerListSerializer, Item, ItemSerializer,
    KeyRef, List, ListEntry, ListSerializer, Parameters, Parser, SerializeError, Sink, Version,
    dictionary, key_ref,
};
use std::alloc::Global;

/// Returns the parameters `;a;b=?0`.
fn yes_and_no(alloc: Global) -> Option<Parameters> {
    Some(item_of(alloc, Parser::new(b"1;a;b=?0"))?.params)
}

/// Returns the inner list `(?1 2;a;b=?0);a;b=?0`.
fn inner_list(alloc: Global) -> Option<InnerList> {
    let first = Item::new(alloc, BareItem::from(true));
    let second = Item::with_params(BareItem::from(2u8), yes_and_no(alloc)?);
    let items = vec![in alloc; first, second].ok()?;
    Some(InnerList::with_params(items, yes_and_no(alloc)?))
}

/// Returns the text of a list whose members are created one at a time.
fn text_of_members(alloc: Global) -> Option<String> {
    let members: List = vec![in alloc;
        ListEntry::from(Item::new(alloc, BareItem::from(false))),
        ListEntry::from(inner_list(alloc)?),
        ListEntry::from(InnerList::empty(alloc)),
    ]
    .ok()?;
    members.serialize(alloc).ok()?
}

#[test]
fn fields_that_are_made_are_written_or_not_at_all(rt: HostRuntime) {
    let alloc = rt.alloc();
    assert!(rt; has_text(text_of_members(alloc), "?0, (?1 2;a;b=?0);a;b=?0, ()"));
    assert!(rt; matches!(List::new(alloc).serialize(alloc), Ok(None)));
    assert!(rt; matches!(dictionary(alloc).serialize(alloc), Ok(None)));
}

#[test]
fn fields_give_their_canonical_text(rt: HostRuntime) {
    let rows = &[
        ("list", "(1 \"2)\";b=\")\")", "(1 \"2)\";b=\")\")"),
        ("dict", "a=1, b=2, a=3", "a=3, b=2"),
    ];
    for &(field, input, wanted) in rows {
        assert!(rt; gives(rt.alloc(), field, input, wanted), "{input}");
    }
}

/// Writes an item of an inner list, if the version has it.
fn put<X: Sink>(inner: &mut InnerListSerializer<X>, word: &str) {
    if let Ok(params) = inner.bare_item(value(word)) {
        params.finish();
    }
}

/// Writes a list member, if the version has it. It is an item, which may have a parameter after `;`, or an inner list
/// with one item after `(`, or an abandoned one after `x`.
fn put_member<W: Sink>(list: &mut ListSerializer<W>, word: &str) {
    if let Some(item) = word.strip_prefix('(') {
        if let Ok(mut inner) = list.inner_list() {
            put(&mut inner, item);
            if let Ok(params) = inner.finish() {
                params.finish();
            }
        }
    } else if let Some(item) = word.strip_prefix('x') {
        if let Ok(mut inner) = list.inner_list() {
            put(&mut inner, item);
            inner.abandon();
        }
    } else if let Some((item, param)) = word.split_once(';') {
        if let Ok(params) = list.bare_item(value(item)) {
            let _ = params.parameter(key_ref("a"), value(param));
        }
    } else if let Ok(params) = list.bare_item(value(word)) {
        params.finish();
    }
}

/// Returns `true` if the members of these words are appended as this text, `has_member` says whether there is one, and
/// `finish` returns the whole text if there is.
fn is_list(alloc: Global, front: &str, words: &str, wanted: &str) -> bool {
    let Ok(mut text) = String::from_str(alloc, front) else {
        return false;
    };
    let mut list = ListSerializer::with_buffer_for(&mut text, Version::Rfc8941);
    for word in words.split(' ') {
        if !word.is_empty() {
            put_member(&mut list, word);
        }
    }
    let stands = list.has_member();
    let answer = if stands { Some(wanted) } else { None };
    let is_answered = list.finish() == answer;
    is_answered & (stands != (front == wanted)) & is_text(&text, wanted)
}

#[test]
fn lists_are_written_by_single_calls(rt: HostRuntime) {
    let rows = &[
        ("X: ", "1 ?", "X: 1, ?1"),
        ("", "1;2 3;?", "1;a=2, 3;a"),
        ("", "(1 2", "(1), 2"),
        // An abandoned inner list leaves no member and no separator, and the text is unchanged.
        ("", "x2 3", "3"),
        ("", "1 x2 3", "1, 3"),
        ("Z", "x1", "Z"),
        ("Z", "", "Z"),
        ("Z", "1", "Z1"),
        // RFC 8941 has no dates. A failed call leaves the list, the inner list and the item unchanged.
        ("X", "1 @ 3", "X1, 3"),
        ("", "(@ 2", "(), 2"),
        ("", "1;@ 2", "1, 2"),
        ("Z", "@", "Z"),
    ];
    for &(front, words, wanted) in rows {
        assert!(rt; is_list(rt.alloc(), front, words, wanted), "{words}");
    }
}

/// Writes a dictionary member after its key and `=`, as `put_member` does, if the version has it.
fn put_named<W: Sink>(dict: &mut DictSerializer<W>, name: KeyRef<'_>, word: &str) {
    if let Some(item) = word.strip_prefix('(') {
        if let Ok(mut inner) = dict.inner_list(name) {
            put(&mut inner, item);
            if let Ok(params) = inner.finish() {
                params.finish();
            }
        }
    } else if let Some(item) = word.strip_prefix('x') {
        if let Ok(mut inner) = dict.inner_list(name) {
            put(&mut inner, item);
            inner.abandon();
        }
    } else if let Some((item, param)) = word.split_once(';') {
        if let Ok(params) = dict.bare_item(name, value(item)) {
            let _ = params.parameter(key_ref("a"), value(param));
        }
    } else if let Ok(params) = dict.bare_item(name, value(word)) {
        params.finish();
    }
}

/// Returns `true` if the members of these words, each under the key before its `=`, are appended as this text.
/// Also, `has_member` must say whether there is one, and `finish` must return the whole text if there is.
fn is_dictionary(alloc: Global, front: &str, words: &str, wanted: &str) -> bool {
    let Ok(mut text) = String::from_str(alloc, front) else {
        return false;
    };
    let mut dict = DictSerializer::with_buffer_for(&mut text, Version::Rfc8941);
    for word in words.split(' ') {
        if let Some((name, word)) = word.split_once('=') {
            if let Ok(name) = KeyRef::from_str(name) {
                put_named(&mut dict, name, word);
            }
        }
    }
    let stands = dict.has_member();
    let answer = if stands { Some(wanted) } else { None };
    let is_answered = dict.finish() == answer;
    is_answered & (stands != (front == wanted)) & is_text(&text, wanted)
}

#[test]
fn dictionaries_are_written_by_single_calls(rt: HostRuntime) {
    let rows = &[
        ("X: ", "a=1 b=?", "X: a=1, b"),
        ("", "a=1;2 b=(3", "a=1;a=2, b=(3)"),
        // A repeated key is written each time.
        ("", "a=1 b=2 a=3", "a=1, b=2, a=3"),
        ("Z", "a=x1", "Z"),
        ("Z", "", "Z"),
        ("Z", "a=1", "Za=1"),
        ("X", "a=@ a=1;@ c=2", "Xa=1, c=2"),
    ];
    for &(front, words, wanted) in rows {
        assert!(rt; is_dictionary(rt.alloc(), front, words, wanted), "{words}");
    }
}

#[test]
fn serializers_may_be_let_go(rt: HostRuntime) {
    let mut text = String::new(rt.alloc());
    let _ = ItemSerializer::with_buffer(&mut text);
    let is_empty = is_text(&text, "");
    let _ = ItemSerializer::with_buffer(&mut text).bare_item(value("1"));
    assert!(rt; is_empty & is_text(&text, "1"));
}

/// Returns the text of the members of a list.
fn list_again(alloc: Global, input: &str) -> Option<String> {
    let list = list_of(alloc, Parser::new(input.as_bytes()))?;
    let mut text = String::new(alloc);
    let mut serializer = ListSerializer::with_buffer(&mut text);
    serializer.members(list[..].iter()).ok()?;
    let stands = serializer.finish().is_some();
    if stands { Some(text) } else { None }
}

#[test]
fn members_of_a_list_are_written(rt: HostRuntime) {
    let text = "2;a, (3 4;b);c, ()";
    assert!(rt; has_text(list_again(rt.alloc(), text), text));
    assert!(rt; list_again(rt.alloc(), "").is_none());
}

/// Returns the text of the members of a dictionary.
fn dictionary_again(alloc: Global, input: &str) -> Option<String> {
    let dictionary = dictionary_of(alloc, Parser::new(input.as_bytes()))?;
    let mut text = String::new(alloc);
    let mut serializer = DictSerializer::with_buffer(&mut text);
    let first = serializer.members(dictionary.iter());
    let second = serializer.members(dictionary.iter());
    if first.and(second).is_ok() {
        Some(text)
    } else {
        None
    }
}

#[test]
fn members_of_a_dictionary_are_written(rt: HostRuntime) {
    let text = dictionary_again(rt.alloc(), "a, b=2;x, c=(1)");
    assert!(rt; has_text(text, "a, b=2;x, c=(1), a, b=2;x, c=(1)"));
}

/// Writes an inner list of 1 and the items of a list, with the list's parameters.
fn put_all<W: Sink>(
    serializer: &mut ListSerializer<W>,
    list: &InnerList,
) -> Result<(), SerializeError> {
    let mut inner = serializer.inner_list()?;
    put(&mut inner, "1");
    if inner.items(list.items[..].iter()).is_err() {
        inner.abandon();
        return Err(SerializeError::OutOfMemory);
    }
    inner.finish()?.parameters(list.params.iter())?.finish();
    Ok(())
}

/// Returns the text of an inner list's items after another item, with its parameters.
fn inner_list_again(alloc: Global) -> Option<String> {
    let list = inner_list(alloc)?;
    let mut text = String::new(alloc);
    let mut serializer = ListSerializer::with_buffer(&mut text);
    put_all(&mut serializer, &list).ok()?;
    Some(text)
}

#[test]
fn items_of_an_inner_list_are_written(rt: HostRuntime) {
    assert!(rt; has_text(inner_list_again(rt.alloc()), "(1 ?1 2;a;b=?0);a;b=?0"));
}

/// Returns `true` if a list continues after a finished inner list, or as if a failed one had not begun.
fn goes_on(alloc: Global) -> bool {
    let Ok(mut text) = String::with_capacity(alloc, "1, (2".len()) else {
        return false;
    };
    let mut list = ListSerializer::with_buffer(&mut text);
    put_member(&mut list, "1");
    let is_ended = match list.inner_list() {
        Ok(mut inner) => {
            put(&mut inner, "2");
            match inner.finish() {
                Ok(params) => {
                    params.finish();
                    true
                }
                Err(_) => false,
            }
        }
        Err(_) => return false,
    };
    put_member(&mut list, "3");
    let wanted = if is_ended { "1, (2), 3" } else { "1, 3" };
    list.finish() == Some(wanted)
}

// The second allocation (`rt try --test --fail-alloc 2`) is for the closing parenthesis. If it fails, the list is as
// before the inner list, and can continue.
#[test]
fn an_inner_list_is_ended_or_taken_away(rt: HostRuntime) {
    assert!(rt; goes_on(rt.alloc()));
}
