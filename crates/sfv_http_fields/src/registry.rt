//! The registry of structured fields: the type of each field that a standard defines as an item, a list or a dictionary.

ghost use Rattle.std.specs.Prelude.{◌≡◌, map};
ghost use Rattle.std.specs.Map.{lookup};
ghost use Rattle.std.specs.Str.{str_eq_ignore_ascii_case};
ghost use Rattle.sfv_http_fields.specs.Registry.{registered_type, OneRow};

use sfv::FieldKind;

// The rows. Each names the document that defines the field.
const ROWS: [(&str, FieldKind); 39] = [
    ("accept-ch", FieldKind::List), // RFC 8942, section 3.1
    ("accept-signature", FieldKind::Dictionary), // RFC 9421, section 5.1
    ("available-dictionary", FieldKind::Item), // RFC 9842, section 2.2
    ("cache-status", FieldKind::List), // RFC 9211, section 2
    ("capsule-protocol", FieldKind::Item), // RFC 9297, section 3.4
    ("cdn-cache-control", FieldKind::Dictionary), // RFC 9213, section 3
    ("client-cert", FieldKind::Item), // RFC 9440, section 2.2
    ("client-cert-chain", FieldKind::List), // RFC 9440, section 2.3
    ("content-digest", FieldKind::Dictionary), // RFC 9530, section 2
    ("cross-origin-embedder-policy", FieldKind::Item), // HTML Standard
    ("cross-origin-embedder-policy-report-only", FieldKind::Item), // HTML Standard
    ("cross-origin-opener-policy", FieldKind::Item), // HTML Standard
    ("cross-origin-opener-policy-report-only", FieldKind::Item), // HTML Standard
    ("deprecation", FieldKind::Item), // RFC 9745, section 2.1
    ("dictionary-id", FieldKind::Item), // RFC 9842, section 2.3
    ("incremental", FieldKind::Item), // draft-ietf-httpbis-incremental
    ("no-vary-search", FieldKind::Dictionary), // draft-ietf-httpbis-no-vary-search
    ("origin-agent-cluster", FieldKind::Item), // HTML Standard
    ("permissions-policy", FieldKind::Dictionary), // W3C Permissions Policy
    ("priority", FieldKind::Dictionary), // RFC 9218, section 5
    ("proxy-status", FieldKind::List), // RFC 9209, section 2
    ("reporting-endpoints", FieldKind::Dictionary), // W3C Reporting API
    ("repr-digest", FieldKind::Dictionary), // RFC 9530, section 3
    ("sec-ch-ua", FieldKind::List), // User-Agent Client Hints
    ("sec-ch-ua-arch", FieldKind::Item), // User-Agent Client Hints
    ("sec-ch-ua-bitness", FieldKind::Item), // User-Agent Client Hints
    ("sec-ch-ua-form-factors", FieldKind::List), // User-Agent Client Hints
    ("sec-ch-ua-full-version", FieldKind::Item), // User-Agent Client Hints
    ("sec-ch-ua-full-version-list", FieldKind::List), // User-Agent Client Hints
    ("sec-ch-ua-mobile", FieldKind::Item), // User-Agent Client Hints
    ("sec-ch-ua-model", FieldKind::Item), // User-Agent Client Hints
    ("sec-ch-ua-platform", FieldKind::Item), // User-Agent Client Hints
    ("sec-ch-ua-platform-version", FieldKind::Item), // User-Agent Client Hints
    ("sec-ch-ua-wow64", FieldKind::Item), // User-Agent Client Hints
    ("signature", FieldKind::Dictionary), // RFC 9421, section 4.2
    ("signature-input", FieldKind::Dictionary), // RFC 9421, section 4.1
    ("use-as-dictionary", FieldKind::Dictionary), // RFC 9842, section 2.1
    ("want-content-digest", FieldKind::Dictionary), // RFC 9530, section 4
    ("want-repr-digest", FieldKind::Dictionary), // RFC 9530, section 4
];

// Returns `true` if a row has this name, in any case.
fn is_named(registered: &str, name: &str) -> bool
    ensures { result ≡ str_eq_ignore_ascii_case name.now registered.now }
{
    name.eq_ignore_ascii_case(registered)
}

// Returns the type in the first of these rows with this name, in any case.
fn find(rows: &[(&str, FieldKind)], name: &str) -> Option<FieldKind>
    ensures { result ≡ lookup (str_eq_ignore_ascii_case name.now) (map (λ row. (row.0.now, row.1)) rows.now) }
{
    for (registered, kind) in rows {
        if is_named(registered, name) {
            return Some(*kind);
        }
    }
    None
}

/// Returns the type of the structured field `name`, or `None` if no row of the registry has this name. Ignores the case
/// of the name.
pub fn type_of(name: &str) -> Option<FieldKind>
    ensures registered { result ≡ registered_type name.now }
    ensures one_row { OneRow }
{
    find(&ROWS, name)
}
