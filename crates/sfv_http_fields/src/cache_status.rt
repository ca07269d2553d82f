//! The Cache-Status field (RFC 9211): a list of the caches that handled a response. The last one is nearest to the
//! user.
//!
//! `LastHit` is a `ListReader`. Its proofs need no file.

ghost use Rattle.std.specs.Prelude.{◌≡◌, Some, IfOk, IfErr, option_map};
ghost use Rattle.sfv_readers.specs.Field.{list_field, ref_value, integer_of, IsParseError, ErrorNeedsMark};
ghost use Rattle.sfv_http_fields.specs.CacheStatus.{names_cache, is_true, integer_in, hit_value, last_hit_of};
ghost use Rattle.sfv_http_fields.specs.CacheStatus.{IsLastHitOf};

use sfv::{
    BareItemFromInput, Error, GenericBareItem, Integer, KeyRef, OutOfMemory, RefBareItem, Version,
};
use sfv_readers::{IgnoredItems, ListReader, read_list};
use std::alloc::Global;

/// A hit: the cache had the response.
#[derive(Clone, Copy, Debug, PartialEq, Eq)]
pub struct Hit {
    /// The remaining seconds of freshness, if the cache states them.
    pub ttl: Option<Integer>,
}

// Returns `true` if a bare item names a cache: a String or a Token.
fn names_cache(value: RefBareItem<'_>) -> bool
    ensures { result ≡ names_cache (ref_value value.entry) }
{
    matches!(
        value,
        GenericBareItem::String(_) | GenericBareItem::Token(_)
    )
}

// Returns `true` if a bare item is the Boolean true.
fn true_of(value: RefBareItem<'_>) -> bool
    ensures { result ≡ is_true (Some (ref_value value.entry)) }
{
    value.as_boolean().unwrap_or(false)
}

// Returns the integer of a bare item, or `None` for another kind.
fn integer_in_item(value: RefBareItem<'_>) -> Option<Integer>
    ensures { option_map integer_of result ≡ integer_in (Some (ref_value value.entry)) }
{
    value.as_integer()
}

/// The state of one member.
#[derive(Clone, Copy, Debug)]
struct Cache {
    is_named: bool,
    hit: bool,
    ttl: Option<Integer>,
}

/// A reader that keeps the last hit of a list.
#[derive(Clone, Copy, Debug)]
struct LastHit {
    found: Option<Hit>,
}

#[tactic(auto, using(sfv_readers::proofs::Puts::last_of_put, sfv_readers::proofs::Puts::fold_more), unfolding(sfv_readers::specs::Field::last_of))]
impl<'de> ListReader<'de> for LastHit {
    ghost use Rattle.sfv_http_fields.specs.CacheStatusSteps.{kept_value, kept_of};

    type Member = Cache;

    type Items = IgnoredItems;

    ghost keeps = { λ _ kept head ps. kept_value kept ≡ kept_of head ps };

    ghost reads = { λ _ s members. hit_value s.found ≡ last_hit_of members };

    ghost may_fail = { ⊥ };

    fn item(&self, item: BareItemFromInput<'de>) -> Cache {
        Cache {
            is_named: names_cache(item.as_ref_item()),
            hit: false,
            ttl: None,
        }
    }

    fn inner_list(&self, _items: IgnoredItems) -> Cache {
        Cache {
            is_named: false,
            hit: false,
            ttl: None,
        }
    }

    fn parameter(&self, member: &mut Cache, key: KeyRef<'de>, value: BareItemFromInput<'de>) {
        if key.as_str() == "hit" {
            member.hit = true_of(value.as_ref_item());
        } else if key.as_str() == "ttl" {
            member.ttl = integer_in_item(value.as_ref_item());
        }
    }

    fn member(&mut self, member: Cache) -> Result<(), OutOfMemory> {
        if member.is_named && member.hit {
            self.found = Some(Hit { ttl: member.ttl });
        }
        Ok(())
    }
}

/// Returns the last hit of a Cache-Status field (RFC 9211, section 2.1), or `None` if no cache had the response.
///
/// Only a String or a Token names a cache. Ignores members with another bare item, and inner lists.
///
/// # Errors
///
/// Returns the error of `Parser::parse` if the input is not a list, or if memory runs out. Memory runs out only if the
/// input contains a backslash, a percent sign or a colon.
#[tactic(auto, using(sfv_readers::proofs::Memory::mark_needed_of_list))]
pub fn last_hit(alloc: Global, input: &[u8], version: Version) -> Result<Option<Hit>, Error>
    ensures read { IfOk result (λ found. IsLastHitOf version input.now (hit_value found)) }
    ensures rejected { IfErr result (IsParseError version list_field input.now) }
    ensures memory { IfErr result (ErrorNeedsMark input.now) }
{
    let read = read_list(alloc, input, version, LastHit { found: None })?;
    Ok(read.found)
}
