//! Scripts: lists of calls of the serializers.

use crate::common::{is_text, value};
use sfv::script::{
    ItemCalls, MemberCalls, ParamCall, run_dict, run_dict_for, run_item, run_item_for, run_list,
    run_list_for,
};
use sfv::{BareItemType, KeyRef, SerializeError, Version, key_ref};
use std::alloc::Global;

const DATE: SerializeError = SerializeError::Unsupported(BareItemType::Date);

/// Returns the key of a word.
fn key<'a>(word: &str) -> KeyRef<'a> {
    match word {
        "b" => key_ref("b"),
        "x" => key_ref("x"),
        _ => key_ref("a"),
    }
}

/// Returns the calls that write parameters: each has the value of a word, under the key before `=`, or under `a`.
fn params<'a>(alloc: Global, words: &str) -> Option<Vec<ParamCall<'a>>> {
    let mut params = Vec::new(alloc);
    for word in words.split(';') {
        if !word.is_empty() {
            let (name, word) = word.split_once('=').unwrap_or(("a", word));
            let (key, value) = (key(name), value(word));
            params.push(ParamCall { key, value }).ok()?;
        }
    }
    Some(params)
}

/// Returns the calls that write an item with the value of a word, and parameters with the values of the words.
fn item<'a>(alloc: Global, word: &str, words: &str) -> Option<ItemCalls<'a>> {
    let params = params(alloc, words)?;
    Some(ItemCalls {
        value: value(word),
        params,
    })
}

/// Returns the calls that write the items of an inner list: one, or none without a word.
fn items<'a>(alloc: Global, word: &str) -> Option<Vec<ItemCalls<'a>>> {
    if word.is_empty() {
        return Some(Vec::new(alloc));
    }
    vec![in alloc; item(alloc, word, "")?].ok()
}

/// Returns the calls that write an inner list with at most one item, and parameters, or abandon it.
fn inner_list<'a>(
    alloc: Global,
    word: &str,
    words: &str,
    abandon: bool,
) -> Option<MemberCalls<'a>> {
    Some(MemberCalls::InnerList {
        items: items(alloc, word)?,
        params: params(alloc, words)?,
        abandon,
    })
}

/// Returns the calls that write a member: an item with its parameters after `;`, an inner list with at most one item
/// after `(`, or an abandoned one after `x`.
fn member<'a>(alloc: Global, word: &str) -> Option<MemberCalls<'a>> {
    let (head, words) = word.split_once(';').unwrap_or((word, ""));
    if let Some(head) = head.strip_prefix('(') {
        return inner_list(alloc, head, words, false);
    }
    if let Some(head) = head.strip_prefix('x') {
        return inner_list(alloc, head, words, true);
    }
    Some(MemberCalls::Item(item(alloc, head, words)?))
}

/// Returns the calls that write the members of the words.
fn members<'a>(alloc: Global, words: &str) -> Option<Vec<MemberCalls<'a>>> {
    let mut calls = Vec::new(alloc);
    for word in words.split(' ') {
        calls.push(member(alloc, word)?).ok()?;
    }
    Some(calls)
}

/// Returns `true` if the members are appended as this text, and the result says whether there is one.
fn is_list(alloc: Global, front: &str, words: &str, wanted: &str) -> bool {
    let (Some(calls), Ok(mut text)) = (members(alloc, words), String::from_str(alloc, front)) else {
        return false;
    };
    let stands = run_list(&mut text, &calls[..]);
    (stands == Ok(wanted != front)) & is_text(&text, wanted)
}

#[test]
fn lists_are_written_without_abandoned_inner_lists(rt: HostRuntime) {
    let rows = &[
        ("P=", "1;?;2 x2;3 (3;?", "P=1;a;a=2, (3);a"),
        ("P=", "1;?;2 xx (;b=!", "P=1;a;a=2, ();b=?0"),
        ("P=", "x1", "P="),
        ("P=", "x1 2", "P=2"),
        ("Z", "1;?;2 xx (;b=!", "Z1;a;a=2, ();b=?0"),
        ("Z", "xx", "Z"),
    ];
    for &(front, words, wanted) in rows {
        assert!(rt; is_list(rt.alloc(), front, words, wanted), "{words}");
    }
}

/// The calls of a dictionary member.
type Named<'a> = (KeyRef<'a>, MemberCalls<'a>);

/// Returns the calls that write a member under the key before `=`.
fn named_member<'a>(alloc: Global, word: &str) -> Option<Named<'a>> {
    let (name, word) = word.split_once('=')?;
    Some((key(name), member(alloc, word)?))
}

/// Returns the calls that write the members of the words.
fn named<'a>(alloc: Global, words: &str) -> Option<Vec<Named<'a>>> {
    let mut calls: Vec<Named<'a>> = Vec::new(alloc);
    for word in words.split(' ') {
        let call: Named<'a> = named_member(alloc, word)?;
        calls.push(call).ok()?;
    }
    Some(calls)
}

/// Returns `true` if both versions append the members as this text, and the result says whether there is one.
fn is_dictionary(alloc: Global, front: &str, words: &str, wanted: &str) -> bool {
    let Some(calls) = named(alloc, words) else {
        return false;
    };
    let (Ok(mut text), Ok(mut older)) = (
        String::from_str(alloc, front),
        String::from_str(alloc, front),
    ) else {
        return false;
    };
    let stands = run_dict(&mut text, &calls[..]).ok();
    let is_alike = run_dict_for(Version::Rfc8941, &mut older, &calls[..]).ok() == stands;
    (stands == Some(wanted != front)) & is_alike & is_text(&text, wanted) & is_text(&older, wanted)
}

#[test]
fn dictionaries_are_written_without_abandoned_inner_lists(rt: HostRuntime) {
    let rows = &[
        ("", "a=1;? b=(2;3", "a=1;a, b=(2);a=3"),
        ("", "a=x1 b=?", "b"),
        ("", "a=x1 b=x2", ""),
        ("Z", "a=xx", "Z"),
        ("Z", "a=1", "Za=1"),
        // A repeated key is written each time.
        ("", "a=1 b=2 a=3", "a=1, b=2, a=3"),
    ];
    for &(front, words, wanted) in rows {
        assert!(rt; is_dictionary(rt.alloc(), front, words, wanted), "{words}");
    }
}

/// Returns `true` if RFC 8941 fails at a date of the members, and leaves the text unchanged.
fn fails_at_date(alloc: Global, front: &str, words: &str) -> bool {
    let (Some(calls), Ok(mut text)) = (named(alloc, words), String::from_str(alloc, front)) else {
        return false;
    };
    let is_refused = run_dict_for(Version::Rfc8941, &mut text, &calls[..]) == Err(DATE);
    is_refused & is_text(&text, front)
}

#[test]
fn scripts_of_dictionaries_fail_at_a_value_that_a_later_one_replaces(rt: HostRuntime) {
    assert!(rt; fails_at_date(rt.alloc(), "Z", "a=@ a=2"));
}

/// Returns `true` if the item is appended as this text.
fn is_item(alloc: Global, front: &str, words: (&str, &str), wanted: &str) -> bool {
    let (value, params) = words;
    let (Some(calls), Ok(mut text)) = (item(alloc, value, params), String::from_str(alloc, front))
    else {
        return false;
    };
    (run_item(&mut text, &calls) == Ok(())) & is_text(&text, wanted)
}

#[test]
fn items_are_appended(rt: HostRuntime) {
    assert!(rt; is_item(rt.alloc(), "", ("?", "x=:"), "?1;x=::"));
    assert!(rt; is_item(rt.alloc(), "Z", ("?", "x=:"), "Z?1;x=::"));
}

/// Returns `true` if RFC 9651 writes the item, and RFC 8941 fails and leaves the text unchanged.
fn is_refused_item(alloc: Global, word: &str, words: &str, wanted: &str) -> bool {
    let Some(calls) = item(alloc, word, words) else {
        return false;
    };
    let (mut text, mut newer) = (String::new(alloc), String::new(alloc));
    let is_refused = run_item_for(Version::Rfc8941, &mut text, &calls) == Err(DATE);
    let is_left = text.is_empty();
    let is_written = (run_item(&mut text, &calls) == Ok(()))
        & (run_item_for(Version::Rfc9651, &mut newer, &calls) == Ok(()));
    is_refused & is_left & is_written & is_text(&text, wanted) & is_text(&newer, wanted)
}

#[test]
fn items_are_written_or_refused_where_the_version_lacks_a_value(rt: HostRuntime) {
    assert!(rt; is_refused_item(rt.alloc(), "1", "2;@", "1;a=2;a=@1"));
}

/// Returns the result of the calls of a list for RFC 8941.
fn answer_for(alloc: Global, words: &str) -> Option<Result<bool, SerializeError>> {
    let calls = members(alloc, words)?;
    let mut text = String::new(alloc);
    Some(run_list_for(Version::Rfc8941, &mut text, &calls[..]))
}

// The items of an abandoned inner list are written, and its parameters are not.
#[test]
fn scripts_of_lists_are_refused_for_an_item_of_an_abandoned_inner_list(rt: HostRuntime) {
    assert!(rt; answer_for(rt.alloc(), "x@5") == Some(Err(DATE)));
    assert!(rt; answer_for(rt.alloc(), "x@ 2") == Some(Err(DATE)));
    assert!(rt; answer_for(rt.alloc(), "x1;@ 2") == Some(Ok(true)));
}
