//! Writing of fields: call by call, and as lists of calls.

use crate::digest::Digest;
use sfv::script::{ItemCalls, MemberCalls, ParamCall, run_dict, run_list};
use sfv::{
    Date, Decimal, DictSerializer, Error, GenericBareItem, InnerListSerializer, Integer,
    ItemSerializer, KeyRef, ListSerializer, OutOfMemory, RefBareItem, SerializeError, Sink,
    StringRef, TokenRef, key_ref, string_ref, token_ref,
};
use sfv_http_fields::priority::{Priority, write_priority};
use sfv_random::Random;
use std::alloc::Global;

/// The texts and bytes that a response has at hand.
#[derive(Drop)]
pub struct Parts<'a> {
    /// A string.
    pub path: StringRef<'a>,
    /// A token.
    pub word: TokenRef<'a>,
    /// A digest.
    pub bytes: &'a [u8],
}

/// Returns the parts with these texts.
pub fn parts_of<'a>(path: &'a [u8], word: &'a [u8], bytes: &'a [u8]) -> Result<Parts<'a>, Error> {
    let path = StringRef::from_bytes(path)?;
    let word = TokenRef::from_bytes(word)?;
    Ok(Parts { path, word, bytes })
}

fn number<'a>(random: &mut Random) -> RefBareItem<'a> {
    GenericBareItem::from(random.number())
}

fn decimal<'a>(random: &mut Random) -> RefBareItem<'a> {
    GenericBareItem::Decimal(Decimal::from_integer_scaled_1000(Integer::from(random.number())))
}

// Appends a Cache-Status field.
fn cache_status(
    text: &mut String,
    parts: &Parts<'_>,
    random: &mut Random,
) -> Result<(), SerializeError> {
    let mut list = ListSerializer::with_buffer(text);
    list.bare_item(GenericBareItem::Token(token_ref("OriginCache")))?
        .parameter(key_ref("hit"), GenericBareItem::Boolean(true))?
        .parameter(key_ref("ttl"), number(random))?
        .finish();
    list.bare_item(GenericBareItem::String(string_ref("CDN Company Here")))?
        .parameter(key_ref("fwd"), GenericBareItem::Token(parts.word))?
        .parameter(key_ref("fwd-status"), GenericBareItem::from(304u16))?
        .parameter(key_ref("key"), GenericBareItem::String(parts.path))?
        .finish();
    Ok(())
}

// Writes the items of an inner list.
fn components<W: Sink>(inner: &mut InnerListSerializer<W>) -> Result<(), SerializeError> {
    inner
        .bare_item(GenericBareItem::String(string_ref("@method")))?
        .finish();
    inner
        .bare_item(GenericBareItem::String(string_ref("@authority")))?
        .finish();
    inner
        .bare_item(GenericBareItem::String(string_ref("content-digest")))?
        .finish();
    Ok(())
}

// Appends a member of a Signature-Input field.
fn signature_input(
    text: &mut String,
    parts: &Parts<'_>,
    random: &mut Random,
) -> Result<(), SerializeError> {
    let mut dictionary = DictSerializer::with_buffer(text);
    let mut inner = dictionary.inner_list(key_ref("sig1"))?;
    if let Err(error) = components(&mut inner) {
        inner.abandon();
        return Err(error);
    }
    inner
        .finish()?
        .parameter(key_ref("created"), number(random))?
        .parameter(key_ref("keyid"), GenericBareItem::String(parts.path))?
        .finish();
    Ok(())
}

// Appends a dictionary of numbers, a digest and a date.
fn limits(text: &mut String, parts: &Parts<'_>, random: &mut Random) -> Result<(), SerializeError> {
    let date = Date::from_unix_seconds(Integer::from(random.number()));
    let mut dictionary = DictSerializer::with_buffer(text);
    dictionary
        .bare_item(key_ref("max-age"), number(random))?
        .finish();
    dictionary
        .bare_item(key_ref("public"), GenericBareItem::Boolean(true))?
        .finish();
    dictionary
        .bare_item(key_ref("q"), decimal(random))?
        .finish();
    dictionary
        .bare_item(
            key_ref("sha-256"),
            GenericBareItem::ByteSequence(parts.bytes),
        )?
        .finish();
    dictionary
        .bare_item(key_ref("at"), GenericBareItem::Date(date))?
        .finish();
    Ok(())
}

// Appends an item with a parameter.
fn item(text: &mut String, parts: &Parts<'_>, random: &mut Random) -> Result<(), SerializeError> {
    ItemSerializer::with_buffer(text)
        .bare_item(decimal(random))?
        .parameter(key_ref("type"), GenericBareItem::Token(parts.word))?
        .finish();
    Ok(())
}

// Appends a list of many short members.
fn hints(text: &mut String, parts: &Parts<'_>, random: &mut Random) -> Result<(), SerializeError> {
    let mut list = ListSerializer::with_buffer(text);
    for _ in 0..8 {
        list.bare_item(GenericBareItem::Token(parts.word))?.finish();
        list.bare_item(number(random))?.finish();
    }
    Ok(())
}

// Returns the calls of an item with a parameter.
fn calls<'a>(
    alloc: Global,
    parts: &Parts<'a>,
    random: &mut Random,
) -> Result<ItemCalls<'a>, OutOfMemory> {
    let mut params = Vec::new(alloc);
    params.push(ParamCall {
        key: key_ref("v"),
        value: number(random),
    })?;
    Ok(ItemCalls {
        value: GenericBareItem::String(parts.path),
        params,
    })
}

// Appends a list by a list of calls.
fn list_script(
    alloc: Global,
    text: &mut String,
    parts: &Parts<'_>,
    random: &mut Random,
) -> Result<(), OutOfMemory> {
    let mut members = Vec::new(alloc);
    for _ in 0..4 {
        members.push(MemberCalls::Item(calls(alloc, parts, random)?))?;
    }
    run_list(text, members.as_slice())?;
    Ok(())
}

// Appends a dictionary by a list of calls.
fn dict_script(
    alloc: Global,
    text: &mut String,
    parts: &Parts<'_>,
    random: &mut Random,
) -> Result<(), OutOfMemory> {
    let names: [KeyRef<'_>; 4] = [key_ref("a"), key_ref("bc"), key_ref("def"), key_ref("u")];
    let mut members = Vec::new(alloc);
    for name in names {
        members.push((name, MemberCalls::Item(calls(alloc, parts, random)?)))?;
    }
    run_dict(text, members.as_slice())?;
    Ok(())
}

// Appends a separator, unless the text is empty.
fn separate(text: &mut String) -> Result<(), OutOfMemory> {
    if !text.is_empty() {
        text.push_str(", ")?;
    }
    Ok(())
}

// Appends a Priority field with an extension.
fn priority(text: &mut String, random: &mut Random) -> Result<(), SerializeError> {
    let urgency = (random.next() % 8) as u8;
    write_priority(text, Priority::new(urgency, random.next() % 2 == 0))?;
    separate(text)?;
    let mut dictionary = DictSerializer::with_buffer(text);
    dictionary.bare_item(key_ref("n"), number(random))?.finish();
    Ok(())
}

/// Writes the field with this number, and adds its text.
pub fn write(
    alloc: Global,
    kind: u64,
    parts: &Parts<'_>,
    random: &mut Random,
    digest: &mut Digest,
) -> Result<(), Error> {
    let mut text = String::new(alloc);
    let written = match kind % 8 {
        0 => cache_status(&mut text, parts, random),
        1 => signature_input(&mut text, parts, random),
        2 => limits(&mut text, parts, random),
        3 => item(&mut text, parts, random),
        4 => hints(&mut text, parts, random),
        5 => Ok(list_script(alloc, &mut text, parts, random)?),
        6 => Ok(dict_script(alloc, &mut text, parts, random)?),
        _ => priority(&mut text, random),
    };
    match written {
        Ok(()) => digest.text(Some(text.as_str())),
        Err(_) => digest.number(9),
    }
    Ok(())
}
