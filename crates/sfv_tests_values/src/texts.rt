//! Keys, tokens and strings: their texts, order, hashes, clones and prints.

use crate::common::{hash_of, is_shown, is_text, prints};
use sfv::{
    Error, ErrorKind, Key, String, StringRef, Token, TokenRef, key_ref, string_ref, token_ref,
};
use sfv_values::checked_text::CheckedText;
use sfv_values::checked_text_ref::CheckedTextRef;
use sfv_values::key::KeyClass;
use sfv_values::string::StringClass;
use sfv_values::text_class::TextClass;
use sfv_values::token::TokenClass;
use std::alloc::Global;
use std::cmp::Ordering;
use std::string::String as StdString;

/// Returns `true` if the result is this text, or this error if there is one.
fn is_answer<C: TextClass>(
    answer: Result<CheckedTextRef<'_, C>, Error>,
    text: &str,
    fault: Option<Error>,
) -> bool {
    match (answer, fault) {
        (Ok(checked), None) => is_text(checked.as_str(), text),
        (Err(error), Some(fault)) => error == fault,
        _ => false,
    }
}

/// Returns `true` if all constructors of borrowed texts have this result.
fn is_checked<C: TextClass>(text: &str, fault: Option<Error>) -> bool {
    let bytes = text.as_bytes();
    is_answer(CheckedTextRef::<C>::from_str(text), text, fault)
        && is_answer(CheckedTextRef::<C>::from_bytes(bytes), text, fault)
        && is_answer(CheckedTextRef::<C>::try_from(text), text, fault)
        && is_answer(CheckedTextRef::<C>::try_from(bytes), text, fault)
}

/// Returns the error for a wrong byte at this index, if there is one.
fn wrong_at(index: Option<usize>) -> Option<Error> {
    match index {
        Some(_) => Some(Error::with_kind(ErrorKind::InvalidCharacter, index)),
        None => None,
    }
}

#[test]
fn texts_are_refused_at_their_first_wrong_byte(rt: HostRuntime) {
    // Where a text is not a key, not a token and not a string.
    let rows = &[
        ("*", None, None, None),
        ("a1_-.*", None, None, None),
        ("aB", Some(1), None, None),
        ("1a", Some(0), Some(0), None),
        ("a:/~", Some(1), None, None),
        ("A1!#$%&'*+-.^_`|", Some(0), None, None),
        ("a b", Some(1), Some(1), None),
        (" \"\\~", Some(0), Some(0), None),
        ("a\tb", Some(1), Some(1), Some(1)),
        ("ab\u{7f}", Some(2), Some(2), Some(2)),
        ("\u{e9}", Some(0), Some(0), Some(0)),
        ("a\u{e9}", Some(1), Some(1), Some(1)),
        ("a;\u{e9}", Some(1), Some(1), Some(2)),
    ];
    for (row, &(text, key, token, string)) in rows.iter().enumerate() {
        let holds = is_checked::<KeyClass>(text, wrong_at(key))
            && is_checked::<TokenClass>(text, wrong_at(token))
            && is_checked::<StringClass>(text, wrong_at(string));
        assert!(rt; holds, "row {row}");
    }
}

#[test]
fn no_text_is_a_string_and_no_key_or_token(rt: HostRuntime) {
    let empty = Some(Error::with_kind(ErrorKind::Empty, None));
    let checked = is_checked::<KeyClass>("", empty)
        & is_checked::<TokenClass>("", empty)
        & is_checked::<StringClass>("", None);
    let given = is_text(String::empty(rt.alloc()).as_str(), "")
        & is_text(StringRef::EMPTY.as_str(), "")
        & is_text(StringRef::default().as_str(), "");
    assert!(rt; checked & given);
}

/// Returns whether a byte may begin a text of the class, and whether it may follow the byte `first`.
fn places_of<C: TextClass>(byte: u8, first: u8) -> (bool, bool) {
    let begins = CheckedTextRef::<C>::from_bytes(&[byte]).is_ok();
    let follows = CheckedTextRef::<C>::from_bytes(&[first, byte]).is_ok();
    (begins, follows)
}

// The ABNF of RFC 9651 lists these bytes.
#[test]
fn texts_hold_the_bytes_of_their_class(rt: HostRuntime) {
    let first_of_key = "*abcdefghijklmnopqrstuvwxyz";
    let key = "*-.0123456789_abcdefghijklmnopqrstuvwxyz";
    let first_of_token = "*ABCDEFGHIJKLMNOPQRSTUVWXYZabcdefghijklmnopqrstuvwxyz";
    let token = "!#$%&'*+-./0123456789:ABCDEFGHIJKLMNOPQRSTUVWXYZ^_`abcdefghijklmnopqrstuvwxyz|~";
    for byte in 0..=255u8 {
        let of_key = (
            first_of_key.as_bytes().contains(&byte),
            key.as_bytes().contains(&byte),
        );
        let of_token = (
            first_of_token.as_bytes().contains(&byte),
            token.as_bytes().contains(&byte),
        );
        let printable = byte >= 0x20 && byte < 0x7f;
        let holds = places_of::<KeyClass>(byte, b'a') == of_key
            && places_of::<TokenClass>(byte, b'a') == of_token
            && places_of::<StringClass>(byte, b'a') == (printable, printable);
        assert!(rt; holds, "{byte}");
    }
}

/// Returns `true` if each of three texts is borrowed unchanged.
fn are_lent(key: Option<Key>, token: Option<Token>, string: Option<String>) -> bool {
    key.is_some_and(|key| key.as_key_ref() == key_ref("key"))
        & token.is_some_and(|token| token.as_token_ref() == token_ref("token"))
        & string.is_some_and(|string| string.as_string_ref() == string_ref("a string"))
}

#[test]
fn owned_texts_are_lent(rt: HostRuntime) {
    let alloc = rt.alloc();
    let key = key_ref("key").to_owned(alloc).ok();
    let token = token_ref("token").to_owned(alloc).ok();
    let string = string_ref("a string").to_owned(alloc).ok();
    assert!(rt; are_lent(key, token, string));
}

/// Returns `true` if `Display` and `Debug` print a text of the class, borrowed and owned, as these texts.
fn is_printed<C: TextClass>(alloc: Global, text: &str, shown_ref: &str, shown: &str) -> bool {
    let Ok(borrowed) = CheckedTextRef::<C>::from_str(text) else {
        return false;
    };
    let Ok(owned) = borrowed.to_owned(alloc) else {
        return false;
    };
    prints(alloc, &borrowed, text)
        & prints(alloc, &owned, text)
        & is_shown(alloc, &borrowed, shown_ref)
        & is_shown(alloc, &owned, shown)
}

#[test]
fn texts_print_as_they_are_and_show_their_type(rt: HostRuntime) {
    let alloc = rt.alloc();
    let holds = is_printed::<KeyClass>(alloc, "a", "KeyRef(\"a\")", "Key(\"a\")")
        & is_printed::<TokenClass>(alloc, "B", "TokenRef(\"B\")", "Token(\"B\")")
        & is_printed::<StringClass>(alloc, "c\"d", r#"StringRef("c\"d")"#, r#"String("c\"d")"#);
    assert!(rt; holds);
}

/// Returns `true` if `from_string` accepts the text, its clone is equal, and it converts back; or if `from_string`
/// returns the text with the error at this index.
fn comes_back<C: TextClass>(alloc: Global, text: &str, fault: Option<usize>) -> bool {
    let Ok(owned) = StdString::from_str(alloc, text) else {
        return false;
    };
    match CheckedText::<C>::from_string(owned) {
        Ok(taken) => {
            let is_copied = match taken.clone() {
                Ok(copy) => copy == taken,
                Err(_) => false,
            };
            fault.is_none() & is_copied & is_text(&StdString::from(taken), text)
        }
        Err((error, back)) => (Some(error) == wrong_at(fault)) & is_text(&back, text),
    }
}

/// Returns `true` if `try_from` accepts the text.
fn is_taken<C: TextClass>(alloc: Global, text: &str) -> bool {
    let Ok(owned) = StdString::from_str(alloc, text) else {
        return false;
    };
    match CheckedText::<C>::try_from(owned) {
        Ok(taken) => is_text(taken.as_str(), text),
        Err(_) => false,
    }
}

#[test]
fn texts_become_owned_and_are_given_back(rt: HostRuntime) {
    let alloc = rt.alloc();
    let taken = comes_back::<KeyClass>(alloc, "a", None)
        & comes_back::<TokenClass>(alloc, "a", None)
        & comes_back::<StringClass>(alloc, "a", None);
    let refused = comes_back::<KeyClass>(alloc, "key!", Some(3))
        & comes_back::<TokenClass>(alloc, "1a", Some(0))
        & comes_back::<StringClass>(alloc, "a\n", Some(1));
    assert!(rt; taken & refused & is_taken::<TokenClass>(alloc, "a"));
}

/// Returns `true` if two tokens, borrowed and owned, have this order, and are equal and have equal hashes if and only
/// if the order is `Equal`.
fn is_ordered(alloc: Global, a: &str, b: &str, order: Ordering) -> bool {
    let equal = order == Ordering::Equal;
    let (Ok(a), Ok(b)) = (TokenRef::from_str(a), TokenRef::from_str(b)) else {
        return false;
    };
    let (Ok(c), Ok(d)) = (a.to_owned(alloc), b.to_owned(alloc)) else {
        return false;
    };
    let borrowed = (a.cmp(&b) == order) & ((a == b) == equal);
    let owned = (c.cmp(&d) == order) & ((c == d) == equal) & ((c < d) == (order == Ordering::Less));
    let hashed = ((hash_of(&a) == hash_of(&b)) == equal) & ((hash_of(&c) == hash_of(&d)) == equal);
    borrowed & owned & hashed & (hash_of(&a) == hash_of(&c))
}

// Texts are ordered by bytes, not by length.
#[test]
fn texts_are_ordered_by_their_bytes_and_hash_by_them(rt: HostRuntime) {
    let rows = &[
        ("ab", "b", Ordering::Less),
        ("b", "ab", Ordering::Greater),
        ("a", "a", Ordering::Equal),
        ("abcdefghi", "abcdefghj", Ordering::Less),
    ];
    for &(a, b, order) in rows {
        assert!(rt; is_ordered(rt.alloc(), a, b, order), "{a} {b}");
    }
}

/// Returns `true` if the texts of a class print the same with all options of a `Formatter`.
fn is_printed_alike<C: TextClass>(alloc: Global, text: &str, name: &str) -> Option<bool> {
    let borrowed = CheckedTextRef::<C>::from_str(text).ok()?;
    let owned = borrowed.to_owned(alloc).ok()?;
    let shown = format!(in alloc; "{name}({text:?}) {name}({text:?}) {name}({text:?})").ok()?;
    let shown_ref = format!(in alloc;
        "{name}Ref({text:?}) {name}Ref({text:?}) {name}Ref({text:?})"
    ).ok()?;
    let printed = format!(in alloc; "{text} {text} {text}").ok()?;
    Some(
        format!(in alloc; "{owned:#?} {owned:>40?} {owned:+.1?}").ok()? == shown
            && format!(in alloc; "{borrowed:#?} {borrowed:>40?} {borrowed:+.1?}").ok()? == shown_ref
            && format!(in alloc; "{owned:#} {owned:>40} {owned:+.1}").ok()? == printed
            && format!(in alloc; "{borrowed:#} {borrowed:>40} {borrowed:+.1}").ok()? == printed,
    )
}

#[test]
fn texts_print_the_same_with_all_options(rt: HostRuntime) {
    let alloc = rt.alloc();
    let holds = is_printed_alike::<KeyClass>(alloc, "ab", "Key") == Some(true)
        && is_printed_alike::<TokenClass>(alloc, "Ab", "Token") == Some(true)
        && is_printed_alike::<StringClass>(alloc, "\"\\", "String") == Some(true);
    assert!(rt; holds);
}

/// A writer that fails.
#[derive(Drop)]
struct Broken {
    calls: usize,
}

impl std::fmt::Write for Broken {
    fn write_str(&mut self, _s: &str) -> std::fmt::Result {
        self.calls = self.calls.saturating_add(1);
        Err(std::fmt::Error)
    }
}

/// Returns `true` if the printing fails, and the writer is called once.
fn fails_once<T: std::fmt::Display + std::fmt::Debug>(value: &T) -> bool {
    let mut f = std::fmt::Formatter::new(Broken { calls: 0 });
    let printed = std::fmt::Display::fmt(value, &mut f);
    let calls = f.into_inner().calls;
    let mut f = std::fmt::Formatter::new(Broken { calls: 0 });
    let shown = std::fmt::Debug::fmt(value, &mut f);
    printed.is_err() && shown.is_err() && calls == 1 && f.into_inner().calls == 1
}

#[test]
fn prints_stop_at_the_error_of_the_writer(rt: HostRuntime) {
    let key = key_ref("a");
    assert!(rt; fails_once(&key));
    assert!(rt; key.to_owned(rt.alloc()).is_ok_and(|key| fails_once(&key)));
    assert!(rt; fails_once(&sfv::BareItemType::Date));
}
