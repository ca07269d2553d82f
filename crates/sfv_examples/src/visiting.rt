//! Parsing of a field with a visitor, without a value.

ghost use Rattle.std.specs.Prelude.{◌≡◌, ⊤, ◌≤◌, IsSome, IfOk, IfErr, OnOk};
ghost use Rattle.sfv.specs.Types.{item_field, dictionary_field, Rfc9651};
ghost use Rattle.sfv.specs.Grammar.{IsAccepted};
ghost use Rattle.sfv.specs.EventRuns.{key_in};
ghost use Rattle.sfv_examples.specs.Uses.{counts, HasMembers, IsCountError, IsMemoryError, IsReturnedFor, IsCallError};

use sfv::visitor::{Event, Visitor, item_visitor_with};
use sfv::{BareItemFromInput, OutOfMemory, ParseError, Parser};
use std::alloc::Global;
use std::convert::Infallible;

/// A visitor that calls a function with each key.
#[derive(Drop)]
struct EachKey<F> {
    visit: F,
}

impl<'de, F: FnMut(&str) + Drop> Visitor<'de> for EachKey<F> {
    type Out = ();

    type Error = Infallible;

    ghost is_ready = { λ s. F.IsAlwaysCallable s.visit };

    ghost takes = { λ _ _ _. ⊤ };

    ghost fails = { λ _ _ _. ⊥ };

    ghost finishes = { λ _ _. ⊤ };

    ghost finish_fails = { λ _ _. ⊥ };

    fn event(&mut self, event: Event<'de>) -> Result<(), Infallible> {
        if let Event::KeyedEntry(key) = event {
            (self.visit)(key.as_str());
        }
        Ok(())
    }

    fn finish(self) -> Result<(), Infallible> {
        Ok(())
    }
}

/// Calls `visit` with each key of a dictionary. A repeated key is passed each time.
///
/// # Errors
///
/// Returns the errors of `Parser::parse_dictionary_with_visitor`. For a dictionary, the only error is out of memory.
pub fn each_key<F: FnMut(&str) + Drop>(
    alloc: Global,
    input: &[u8],
    visit: F,
) -> Result<(), ParseError<Infallible>>
    requires { F.IsAlwaysCallable visit }
    ensures visited { OnOk result (IsAccepted Rfc9651 dictionary_field input.now) }
    ensures accepted { IsAccepted Rfc9651 dictionary_field input.now → IfErr result (IsMemoryError (λ _. ⊥)) }
{
    Parser::new(input).parse_dictionary_with_visitor(alloc, EachKey { visit })
}

/// Calls a function with the bare item of an item, and returns its result, which is `Some`. The function fails only if
/// memory runs out.
///
/// # Errors
///
/// If a bare item comes first and the function fails for it, returns the function's error. Otherwise, returns the error
/// of `Parser::parse`. For an item, the only error is out of memory.
pub fn with_bare_item<
    'de,
    T: Drop,
    F: FnOnce(BareItemFromInput<'de>) -> Result<T, OutOfMemory> + Drop,
>(alloc: Global, input: &'de [u8], f: F) -> Result<Option<T>, ParseError<OutOfMemory>>
    requires { F.IsAlwaysCallable f }
    ensures read { OnOk result (IsAccepted Rfc9651 item_field input.now) }
    ensures called { IfOk result (IsReturnedFor F.post f input.now) }
    ensures failed { IfErr result (IsCallError F.post f input.now) }
    ensures accepted { IsAccepted Rfc9651 item_field input.now → IfErr result (IsMemoryError (λ _. ⊤)) }
{
    Parser::new(input).parse_item_with_visitor(alloc, item_visitor_with(f))
}

/// The error that a dictionary has more members than the limit.
#[derive(Clone, Copy, Debug, PartialEq, Eq)]
pub struct TooMany;

/// A visitor that counts the members of a dictionary, up to a limit.
#[derive(Drop)]
struct MemberCounter {
    members: u64,
    limit: u64,
}

impl<'de> Visitor<'de> for MemberCounter {
    type Out = u64;

    type Error = TooMany;

    ghost is_ready = { λ s. s.members ≤ s.limit };

    ghost takes = { λ s e after. (after.members, after.limit) ≡ counts (s.members, s.limit) e };

    ghost fails = { λ s e _. (s.limit ≤ s.members) × IsSome (key_in e) };

    ghost finishes = { λ s out. (out ≡ s.members) × (out ≤ s.limit) };

    ghost finish_fails = { λ _ _. ⊥ };

    fn event(&mut self, event: Event<'de>) -> Result<(), TooMany> {
        if let Event::KeyedEntry(_) = event {
            if self.members >= self.limit {
                return Err(TooMany);
            }
            self.members += 1;
        }
        Ok(())
    }

    fn finish(self) -> Result<u64, TooMany> {
        Ok(self.members)
    }
}

/// Counts the members of a dictionary, repeated keys included, up to `limit`.
///
/// # Errors
///
/// Returns `TooMany` if there are more, and otherwise the errors of `Parser::parse_dictionary_with_visitor`.
pub fn count_members(alloc: Global, input: &[u8], limit: u64) -> Result<u64, ParseError<TooMany>>
    ensures counted { IfOk result (HasMembers input.now limit) }
    ensures failed { IfErr result (IsCountError input.now limit) }
{
    let counter = MemberCounter { members: 0, limit };
    Parser::new(input).parse_dictionary_with_visitor(alloc, counter)
}
