//! Component identifiers (RFC 9421, section 2).

ghost use Rattle.std.specs.Prelude.{◌≡◌, ◌↔◌, IsTrue, Any, map};
ghost use Rattle.sfv.specs.BareItems.{bare_value};
ghost use Rattle.sfv.specs.Trees.{item_tree, pairs_tree};
ghost use Rattle.sfv_signatures.specs.SignatureBase.{AreWithin, AreSame};

use sfv::{BareItem, Item, Parameters, find_param};

// Returns `true` if the values are equal.
fn is_same_value(a: &BareItem, b: &BareItem) -> bool
    ensures { IsTrue result ↔ (bare_value a.now ≡ bare_value b.now) }
{
    a == b
}

// Returns `true` if each parameter of `a` has the same value in `b`.
fn is_within(a: &Parameters, b: &Parameters) -> bool
    ensures { IsTrue result ↔ AreWithin (pairs_tree a.now.entries) (pairs_tree b.now.entries) }
{
    for (key, value) in a.iter() {
        let Some(other) = find_param(b, key.as_key_ref()) else {
            return false;
        };
        if !is_same_value(value, other) {
            return false;
        }
    }
    true
}

// Returns `true` if two identifiers have the same name and the same parameters, in any order.
fn is_same(a: &Item, b: &Item) -> bool
    ensures { IsTrue result ↔ AreSame (item_tree a.now) (item_tree b.now) }
{
    is_same_value(&a.bare_item, &b.bare_item)
        && is_within(&a.params, &b.params)
        && is_within(&b.params, &a.params)
}

/// Returns `true` if an identifier is the same as one of those before it.
pub(crate) fn is_repeated(before: &[Item], identifier: &Item) -> bool
    ensures { IsTrue result ↔ Any (AreSame (item_tree identifier.now)) (map item_tree before.now) }
{
    for other in before {
        if is_same(identifier, other) {
            return true;
        }
    }
    false
}
