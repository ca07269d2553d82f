//! Tests of readers. They parse the rows of a list, a member of a dictionary, and the items of inner lists.

ghost use Rattle.std.specs.Prelude.{⊤, codes};

use crate::common::{has_text, ladder, of_size};
use sfv::{BareItemFromInput, KeyRef, OutOfMemory, Version};
use sfv_examples::member_integers::integer_of_member;
use sfv_examples::rows::last_row;
use sfv_first_field::cdn_cache_control::max_age;
use sfv_readers::{DictionaryReader, InnerListReader, ListReader, read_dictionary, read_list};
use std::alloc::Global;
use std::test::Fail;

// Returns `true` if the last row has these integers.
fn has_row(alloc: Global, input: &str, expected: Option<&[i64]>) -> bool {
    match last_row(alloc, input.as_bytes(), Version::Rfc9651) {
        Ok(Some(row)) => expected == Some(row.as_slice()),
        Ok(None) => expected.is_none(),
        Err(_) => false,
    }
}

#[test]
fn last_rows_are_found(rt: HostRuntime) {
    let rows: &[(&str, Option<&[i64]>)] = &[
        ("(1 2 3)", Some(&[1, 2, 3])),
        ("(1), (4;a=7 x 5;b;b=2);c=9", Some(&[4, 5])),
        ("(1), ()", Some(&[])),
        ("(1), 2", None),
        ("1, (2)", Some(&[2])),
        ("", None),
    ];
    for &(input, expected) in rows {
        assert!(rt; has_row(rt.alloc(), input, expected));
    }
}

// Returns `true` if the field has this age.
fn has_age(alloc: Global, input: &str, expected: Option<i64>) -> bool {
    match max_age(alloc, input.as_bytes(), Version::Rfc9651) {
        Ok(age) => age.map(|age| age.to_i64()) == expected,
        Err(_) => false,
    }
}

#[test]
fn last_ages_are_found(rt: HostRuntime) {
    let rows = &[
        ("max-age=600", Some(600)),
        ("max-age=1, no-store, max-age=2;max-age=3", Some(2)),
        ("max-age=1, max-age", None),
        ("max-age=1, max-age=(2)", None),
        ("max-ages=1, a=(max-age);max-age=4", None),
        ("a=(1 2);max-age=7, max-age=5;x, b", Some(5)),
        ("", None),
    ];
    for &(input, expected) in rows {
        assert!(rt; has_age(rt.alloc(), input, expected));
    }
}

// Returns `true` if the member of this key has this integer.
fn has_integer(alloc: Global, input: &str, key: &str, expected: Option<i64>) -> bool {
    match integer_of_member(alloc, input.as_bytes(), Version::Rfc9651, key) {
        Ok(found) => found.map(|found| found.to_i64()) == expected,
        Err(_) => false,
    }
}

#[test]
fn members_of_keys_known_at_run_time_are_found(rt: HostRuntime) {
    let rows = &[
        ("a=1, b=2", "a", Some(1)),
        ("a=1, b=2", "b", Some(2)),
        ("a=1, b=2", "c", None),
        ("a=1, b=2, a=3;b=4", "a", Some(3)),
        ("a=1, a", "a", None),
        ("a=1, a=(2)", "a", None),
        ("b=(1;a=2);a=3", "a", None),
        ("", "a", None),
    ];
    for &(input, key, expected) in rows {
        assert!(rt;
            has_integer(rt.alloc(), input, key, expected),
            "{input} {key}"
        );
    }
}

#[test]
fn members_of_dictionaries_of_many_sizes_are_found(rt: HostRuntime) -> Result<(), Fail> {
    for &count in ladder(rt.alloc(), 40, 1 << 14)?.iter() {
        let input = of_size(rt.alloc(), ("a=1", ", k#=3", "", ", z=2"), count)?;
        for (key, expected) in [("a", Some(1)), ("z", Some(2)), ("k", None)] {
            assert!(rt;
                has_integer(rt.alloc(), input.as_str(), key, expected),
                "{count} {key}"
            );
        }
    }
    Ok(())
}

/// Appends a token. Ignores a boolean. Runs out of memory at the token `no`, and at any other kind of value.
fn push(text: &mut String, front: &str, value: &BareItemFromInput<'_>) -> Result<(), OutOfMemory> {
    let Some(token) = value.as_token() else {
        return match value.as_boolean() {
            Some(_) => Ok(()),
            None => Err(OutOfMemory),
        };
    };
    if token.as_str() == "no" {
        return Err(OutOfMemory);
    }
    text.push_str(front)?;
    text.push_str(token.as_str())?;
    Ok(())
}

/// A reader that writes the tokens of an inner list, or of the members `a` of a dictionary, into a text. It ignores a
/// list. To make one takes long.
#[derive(Drop)]
pub struct Teller {
    told: String,
}

impl<'de> InnerListReader<'de> for Teller {
    ghost reads = { λ _ _. ⊤ };

    fn new(alloc: Global) -> Teller {
        let mut told = String::new(alloc);
        for _ in 0..3_000 {
            let _ = told.push_str("a text");
        }
        told.clear();
        Teller { told }
    }

    fn item(&mut self, item: BareItemFromInput<'de>) -> Result<(), OutOfMemory> {
        push(&mut self.told, " ", &item)
    }

    fn parameter(
        &mut self,
        _key: KeyRef<'de>,
        value: BareItemFromInput<'de>,
    ) -> Result<(), OutOfMemory> {
        push(&mut self.told, ";", &value)
    }
}

impl<'de> ListReader<'de> for Teller {
    type Member = ();

    type Items = Teller;

    ghost keeps = { λ _ _ _ _. ⊤ };

    ghost reads = { λ _ _ _. ⊤ };

    fn item(&self, _item: BareItemFromInput<'de>) {}

    fn inner_list(&self, _items: Teller) {}

    fn parameter(&self, _member: &mut (), _key: KeyRef<'de>, _value: BareItemFromInput<'de>) {}

    fn member(&mut self, _member: ()) -> Result<(), OutOfMemory> {
        Ok(())
    }
}

impl<'de> DictionaryReader<'de> for Teller {
    type Key = ();

    type Items = Teller;

    ghost text = { λ _ _. codes "a" };

    ghost reads = { λ _ _ _. ⊤ };

    fn key(&self, key: KeyRef<'de>) -> Option<()> {
        if key.as_str() == "a" { Some(()) } else { None }
    }

    fn item(&mut self, _key: (), item: BareItemFromInput<'de>) {
        let _ = push(&mut self.told, " ", &item);
    }

    fn inner_list(&mut self, _key: (), items: Teller) {
        for part in ["(", items.told.as_str(), ")"] {
            let _ = self.told.push_str(part);
        }
    }

    fn parameter(&mut self, _key: (), _name: KeyRef<'de>, value: BareItemFromInput<'de>) {
        let _ = push(&mut self.told, ";", &value);
    }
}

/// Returns what the reader of a list, or of a dictionary, receives.
pub fn told(alloc: Global, is_list: bool, input: &[u8]) -> Option<String> {
    let (told, version) = (String::new(alloc), Version::Rfc9651);
    let read = if is_list {
        read_list(alloc, input, version, Teller { told })
    } else {
        read_dictionary(alloc, input, version, Teller { told })
    };
    Some(read.ok()?.told)
}

// A reader receives the items of each inner list that matters, and nothing else.
#[test]
fn items_are_received(rt: HostRuntime) {
    let alloc = rt.alloc();
    let rows = &[
        ("a=(x;p=y;q z);r=w", "( x;y z);w"),
        ("b=(no;p=no);p=no, c=no, a=(x), d=(no), e=no", "( x)"),
        ("a=(x), b=no;p=no, c=(no), a=(y);p=z, d=no", "( x)( y);z"),
        ("a=x;p=y, b=(no), a=z, c=no;p=no, a=()", " x;y z()"),
        ("aa=(no), b=no", ""),
        (
            "b=1;p=@1, c=:aGk=:;p=\"\\\"\", d=(1.5;p ?0), e=%\"%c3%bc\";p=-1.5, a=(x), f=@1;p=%\"a\", g=\"a\";p=?0",
            "( x)",
        ),
    ];
    let mut holds = true;
    for &input in &[
        "no;p=no, (x);p=no",
        "1;p=1, \"a\";p=\"a\", ();p=:aGk=:",
        ":aGk=:;p=no, a;p=@1, no",
    ] {
        holds &= has_text(told(alloc, true, input.as_bytes()), "");
    }
    for &(input, wanted) in rows {
        holds &= has_text(told(alloc, false, input.as_bytes()), wanted);
    }
    for &(is_list, input) in &[(true, "(no)"), (true, "(x;p=no)"), (false, "a=(x no)")] {
        holds &= told(alloc, is_list, input.as_bytes()).is_none();
    }
    assert!(rt; holds);
}
