//! Parsing of the last member, without a list.

ghost use Rattle.std.specs.Prelude.{◌≡◌, IfOk, IfErr, option_map, bytes_eq, codes, if◌then◌else◌};
ghost use Rattle.sfv_readers.specs.Field.{list_field, input_value, IsParseError, ErrorNeedsMark, text_of};
ghost use Rattle.sfv_http_fields.specs.ProxyStatus.{name_in, error_in, status_in, name_value, proxy_value};
ghost use Rattle.sfv_http_fields.specs.ProxyStatus.{last_proxy_of, IsLastProxyOf};

use sfv::{
    BareItemFromInput, Error, GenericBareItem, KeyRef, OutOfMemory, StringFromInput, TokenRef,
    Version,
};
use sfv_readers::{IgnoredItems, ListReader, read_list};
use std::alloc::Global;

/// The name of an intermediary.
#[derive(Debug, Drop)]
pub enum Name<'a> {
    /// A string.
    String(StringFromInput<'a>),
    /// A token.
    Token(TokenRef<'a>),
}

/// An intermediary that handled a response.
#[derive(Debug, Drop)]
pub struct Proxy<'a> {
    /// Its name.
    pub name: Name<'a>,
    /// The type of the error that it met, if it states one.
    pub error: Option<TokenRef<'a>>,
    /// The status that it received from the next hop, if it states one.
    pub received_status: Option<u16>,
}

// Returns the name of a bare item: a String or a Token.
fn name_of(item: BareItemFromInput<'_>) -> Option<Name<'_>>
    ensures { option_map name_value result ≡ name_in (input_value item.entry) }
{
    match item {
        GenericBareItem::String(text) => Some(Name::String(text)),
        GenericBareItem::Token(token) => Some(Name::Token(token)),
        _ => None,
    }
}

// Returns the token of a bare item, or `None` for another kind.
fn error_of<'a>(item: &BareItemFromInput<'a>) -> Option<TokenRef<'a>>
    ensures { option_map text_of result ≡ error_in (input_value item.now) }
{
    item.as_token()
}

// Returns the status of a bare item: an Integer from 100 to 599, or `None` for any other value.
fn status_of(item: &BareItemFromInput<'_>) -> Option<u16>
    ensures { result ≡ status_in (input_value item.now) }
{
    let integer = item.as_integer()?;
    match u16::try_from(integer.to_i64()) {
        Ok(status) if status >= 100 && status <= 599 => Some(status),
        _ => None,
    }
}

// Returns the error type after one more parameter.
fn error_after<'a>(
    before: Option<TokenRef<'a>>,
    key: &str,
    value: &BareItemFromInput<'a>,
) -> Option<TokenRef<'a>>
    ensures { option_map text_of result ≡ if bytes_eq key.now (codes "error") then error_in (input_value value.now)
        else option_map text_of before.entry }
{
    if key == "error" {
        error_of(value)
    } else {
        before
    }
}

// Returns the status after one more parameter.
fn status_after(before: Option<u16>, key: &str, value: &BareItemFromInput<'_>) -> Option<u16>
    ensures { result ≡ if bytes_eq key.now (codes "received-status") then status_in (input_value value.now) else before }
{
    if key == "received-status" {
        status_of(value)
    } else {
        before
    }
}

/// The state of one member.
#[derive(Debug, Drop)]
struct Member<'a> {
    name: Option<Name<'a>>,
    error: Option<TokenRef<'a>>,
    received_status: Option<u16>,
}

/// A reader that keeps the last member of a list.
#[derive(Debug, Drop)]
struct LastProxy<'a> {
    found: Option<Proxy<'a>>,
}

#[tactic(auto, using(crate::proofs::LastProxies::kept_put, sfv_readers::proofs::Puts::fold_more), unfolding(sfv_readers::specs::Field::last_of))]
impl<'de> ListReader<'de> for LastProxy<'de> {
    ghost use Rattle.sfv_http_fields.specs.Kept.{kept_value, kept_of};

    type Member = Member<'de>;

    type Items = IgnoredItems;

    ghost keeps = { λ _ member head ps. kept_value member ≡ kept_of head ps };

    ghost reads = { λ _ s members. option_map proxy_value s.found ≡ last_proxy_of members };

    ghost may_fail = { ⊥ };

    fn item(&self, item: BareItemFromInput<'de>) -> Member<'de> {
        Member {
            name: name_of(item),
            error: None,
            received_status: None,
        }
    }

    fn inner_list(&self, _items: IgnoredItems) -> Member<'de> {
        Member {
            name: None,
            error: None,
            received_status: None,
        }
    }

    fn parameter(&self, member: &mut Member<'de>, key: KeyRef<'de>, value: BareItemFromInput<'de>) {
        member.error = error_after(member.error, key.as_str(), &value);
        member.received_status = status_after(member.received_status, key.as_str(), &value);
    }

    fn member(&mut self, member: Member<'de>) -> Result<(), OutOfMemory> {
        let Member {
            name,
            error,
            received_status,
        } = member;
        self.found = match name {
            Some(name) => Some(Proxy {
                name,
                error,
                received_status,
            }),
            None => None,
        };
        Ok(())
    }
}

/// Returns the last member of a Proxy-Status field. Returns `None` if there is no member, or if the last one is not an
/// item with a String or a Token.
///
/// # Errors
///
/// Returns the error of `Parser::parse` if the input is not a list, or if memory runs out. Memory runs out only if the
/// input contains a backslash, a percent sign or a colon.
#[tactic(auto, using(sfv_readers::proofs::Memory::mark_needed_of_list))]
pub fn last_proxy<'a>(
    alloc: Global,
    input: &'a [u8],
    version: Version,
) -> Result<Option<Proxy<'a>>, Error>
    ensures read { IfOk result (λ found. IsLastProxyOf version input.now (option_map proxy_value found)) }
    ensures rejected { IfErr result (IsParseError version list_field input.now) }
    ensures memory { IfErr result (ErrorNeedsMark input.now) }
{
    let read = read_list(alloc, input, version, LastProxy { found: None })?;
    Ok(read.found)
}
