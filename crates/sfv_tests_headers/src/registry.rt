//! The registry of structured fields.

use sfv::FieldKind;
use sfv_http_fields::registry::type_of;

#[test]
fn fields_have_their_type(rt: HostRuntime) {
    let rows = &[
        ("Accept-CH", Some(FieldKind::List)),
        ("accept-signature", Some(FieldKind::Dictionary)),
        ("CDN-Cache-Control", Some(FieldKind::Dictionary)),
        ("Client-Cert", Some(FieldKind::Item)),
        ("Client-Cert-Chain", Some(FieldKind::List)),
        ("CONTENT-DIGEST", Some(FieldKind::Dictionary)),
        (
            "Cross-Origin-Opener-Policy-Report-Only",
            Some(FieldKind::Item),
        ),
        ("Deprecation", Some(FieldKind::Item)),
        ("Incremental", Some(FieldKind::Item)),
        ("No-Vary-Search", Some(FieldKind::Dictionary)),
        ("Proxy-Status", Some(FieldKind::List)),
        ("Sec-CH-UA", Some(FieldKind::List)),
        ("Sec-CH-UA-Form-Factors", Some(FieldKind::List)),
        ("Sec-CH-UA-Mobile", Some(FieldKind::Item)),
        ("Want-Repr-Digest", Some(FieldKind::Dictionary)),
        ("Content-Type", None),
        ("Signature-", None),
        ("", None),
    ];
    for &(name, kind) in rows {
        assert!(rt; type_of(name) == kind, "{name}");
    }
}
