//! The fields Signature-Input and Signature.

use sfv::{Dictionary, Integer, KeyRef, Parser, StringRef, key_ref};
use sfv_signatures::{
    SignatureError, SignatureInput, SignatureParam, signature_bytes, signature_input,
};
use std::alloc::Global;
use std::test::Fail;

const INPUTS: &[u8] =
    b"sig1=(\"@method\" \"host\";req);created=1618884473;expires=1;nonce=\"n\";alg=\"a\";keyid=\"k\";tag=\"t\";x, \
none=(), item=\"a\", bytes=:AQI=:, c=();created=\"1\", e=();expires=1.0, n=();nonce=1, a=();alg=a, k=();keyid, t=();tag=?0";

fn dictionary(alloc: Global) -> Result<Dictionary, Fail> {
    Ok(
        Parser::new(INPUTS)
            .parse::<Dictionary>(alloc)
            .ok()
            .ok_or("dictionary")?,
    )
}

fn is_number(found: Option<Integer>, number: i64) -> bool {
    found.is_some_and(|found| found.to_i64() == number)
}

fn is_text(found: Option<StringRef<'_>>, text: &str) -> bool {
    found.is_some_and(|found| found.as_str() == text)
}

fn has_texts(input: &SignatureInput<'_>) -> bool {
    is_text(input.nonce, "n")
        && is_text(input.alg, "a")
        && is_text(input.keyid, "k")
        && is_text(input.tag, "t")
}

fn has_all(input: &SignatureInput<'_>) -> bool {
    input.list.items.len() == 2
        && is_number(input.created, 1_618_884_473)
        && is_number(input.expires, 1)
        && has_texts(input)
}

fn has_none(input: &SignatureInput<'_>) -> bool {
    input.list.items.is_empty()
        && input.created.is_none()
        && input.expires.is_none()
        && input.nonce.is_none()
        && input.alg.is_none()
        && input.keyid.is_none()
        && input.tag.is_none()
}

fn is_read(inputs: &Dictionary, label: KeyRef<'_>, is_empty: bool) -> bool {
    match signature_input(inputs, label) {
        Ok(input) => {
            if is_empty {
                has_none(&input)
            } else {
                has_all(&input)
            }
        }
        Err(_) => false,
    }
}

fn has_bytes(signatures: &Dictionary, label: KeyRef<'_>, bytes: &[u8]) -> bool {
    match signature_bytes(signatures, label) {
        Ok(found) => found == bytes,
        Err(_) => false,
    }
}

fn has_error(signatures: &Dictionary, label: KeyRef<'_>, wanted: SignatureError) -> bool {
    match signature_bytes(signatures, label) {
        Ok(_) => false,
        Err(error) => error == wanted,
    }
}

fn has_input_error(inputs: &Dictionary, label: &str, wanted: SignatureError) -> bool {
    let Ok(label) = KeyRef::from_str(label) else {
        return false;
    };
    match signature_input(inputs, label) {
        Ok(_) => false,
        Err(error) => error == wanted,
    }
}

#[test]
fn an_input_has_its_parameters(rt: HostRuntime) -> Result<(), Fail> {
    let inputs = dictionary(rt.alloc())?;
    assert!(rt; is_read(&inputs, key_ref("sig1"), false), "sig1");
    assert!(rt; is_read(&inputs, key_ref("none"), true), "none");
    assert!(rt; has_bytes(&inputs, key_ref("bytes"), &[1, 2]), "bytes");
    Ok(())
}

#[test]
fn errors_are_named(rt: HostRuntime) -> Result<(), Fail> {
    let inputs = dictionary(rt.alloc())?;
    let rows = &[
        ("absent", SignatureError::UnknownLabel),
        ("item", SignatureError::WrongMember),
        ("c", SignatureError::WrongType(SignatureParam::Created)),
        ("e", SignatureError::WrongType(SignatureParam::Expires)),
        ("n", SignatureError::WrongType(SignatureParam::Nonce)),
        ("a", SignatureError::WrongType(SignatureParam::Alg)),
        ("k", SignatureError::WrongType(SignatureParam::Keyid)),
        ("t", SignatureError::WrongType(SignatureParam::Tag)),
    ];
    for &(label, error) in rows {
        assert!(rt; has_input_error(&inputs, label, error), "{label}");
    }
    let unknown = SignatureError::UnknownLabel;
    assert!(rt; has_error(&inputs, key_ref("absent"), unknown), "absent");
    let wrong = SignatureError::WrongMember;
    assert!(rt; has_error(&inputs, key_ref("none"), wrong), "none");
    assert!(rt; has_error(&inputs, key_ref("item"), wrong), "item");
    Ok(())
}
