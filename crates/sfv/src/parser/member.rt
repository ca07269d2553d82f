//! Parsing of inner lists, and of the members of lists and dictionaries (RFC 9651, sections 4.2.1 and 4.2.2).

ghost use Rattle.std.specs.Prelude.{◌≡◌, [], Bool, true, false, OnOk, flat_map};
ghost use Rattle.sfv_spec.specs.Events.{member_events, inner_item_events};
ghost use Rattle.sfv_spec.proofs.Marks.{left_parenthesis};
ghost use Rattle.sfv_model.specs.Reader.{byte};
ghost use Rattle.sfv_model.specs.Members.{inner_item_at, inner_items_at, inner_at, member_at, member_value_at};
ghost use Rattle.sfv_model.specs.Fields.{members_at};
ghost use Rattle.sfv.specs.parser.Cursor.{rest, NextIs, Reads};
ghost use Rattle.sfv.specs.parser.Members.{item_delimiter_at, member_delimiter_at, after_begin, member_parts};
ghost use Rattle.sfv.specs.parser.Members.{one_member_at};
ghost use Rattle.sfv.specs.parser.AsRead.{VisitsAsRead};

use crate::parser::cursor::Cursor;
use crate::parser::visit::visit;
use sfv_base::error::{Error, ErrorKind, ParseError};
use sfv_tree::visitor::{Event, Visitor};
use sfv_values::bare::GenericBareItem;

impl<'de> Cursor<'de> {
    /// Parses an item of an inner list, and passes its parts to `visitor`.
    fn inner_item<V: Visitor<'de>>(&mut self, visitor: &mut V) -> Result<(), ParseError<V::Error>>
        requires { V.is_ready visitor.old }
        ensures ready { OnOk result (V.is_ready visitor.new) }
        ensures visited { VisitsAsRead V.Visitor inner_item_events
            self.old self.new visitor.old visitor.new result inner_item_at }
    {
        visit(visitor, Event::Item)?;
        self.item(visitor)
    }

    /// Consumes the spaces between two items of an inner list, or its closing parenthesis. Returns `true` if another
    /// item follows.
    #[inline(always)]
    pub(super) fn consume_item_delimiter(&mut self) -> Result<bool, Error>
        ensures { Reads (λ wants. wants) self.old self.new result item_delimiter_at }
    {
        if self.take_if(b' ') {
            self.skip_sp();
            return Ok(!self.take_if(b')'));
        }
        if self.take_if(b')') {
            return Ok(false);
        }
        if self.peek().is_some() {
            Err(self.error(ErrorKind::ExpectedInnerListDelimiter))
        } else {
            Err(self.error(ErrorKind::UnterminatedInnerList))
        }
    }

    /// Parses the items of an inner list after its opening parenthesis, with the closing one, and passes the items to
    /// `visitor`.
    fn inner_items<V: Visitor<'de>>(&mut self, visitor: &mut V) -> Result<(), ParseError<V::Error>>
        requires { V.is_ready visitor.old }
        ensures ready { OnOk result (V.is_ready visitor.new) }
        ensures visited { VisitsAsRead V.Visitor (λ items. flat_map inner_item_events items)
            self.old self.new visitor.old visitor.new result inner_items_at }
    {
        if self.peek().is_none() {
            let error = self.error(ErrorKind::UnterminatedInnerList);
            return Err(ParseError::Syntax(error));
        }
        self.skip_sp();
        if self.take_if(b')') {
            return Ok(());
        }
        self.inner_item(visitor)?;
        while self.consume_item_delimiter()? {
            self.inner_item(visitor)?;
        }
        Ok(())
    }

    /// Parses an inner list after its opening parenthesis, with its parameters, and passes its parts to `visitor`.
    #[inline(always)]
    fn inner_list<V: Visitor<'de>>(&mut self, visitor: &mut V) -> Result<(), ParseError<V::Error>>
        requires { V.is_ready visitor.old }
        ensures ready { OnOk result (V.is_ready visitor.new) }
        ensures visited { VisitsAsRead V.Visitor after_begin self.old self.new visitor.old visitor.new result inner_at }
    {
        self.inner_items(visitor)?;
        visit(visitor, Event::InnerListEnd)?;
        self.parameters(visitor)
    }

    /// Parses an inner list with its parentheses, and passes its parts to `visitor`.
    #[inline(never)]
    fn inner_list_member<V: Visitor<'de>>(
        &mut self,
        visitor: &mut V,
    ) -> Result<(), ParseError<V::Error>>
        requires ready { V.is_ready visitor.old }
        requires next { NextIs (byte left_parenthesis) true (rest self.old) }
        ensures ready { OnOk result (V.is_ready visitor.new) }
        ensures visited { VisitsAsRead V.Visitor member_events
            self.old self.new visitor.old visitor.new result member_at }
    {
        self.skip();
        visit(visitor, Event::InnerList)?;
        self.inner_list(visitor)
    }

    /// Parses an inner list, as `inner_list_member` does, by a call.
    // Inlined at the branch of a parenthesis: the other branch then clears no room for the result of the call.
    #[inline(always)]
    fn inner_list_by_call<V: Visitor<'de>>(
        &mut self,
        visitor: &mut V,
    ) -> Result<(), ParseError<V::Error>>
        requires ready { V.is_ready visitor.old }
        requires next { NextIs (byte left_parenthesis) true (rest self.old) }
        ensures ready { OnOk result (V.is_ready visitor.new) }
        ensures visited { VisitsAsRead V.Visitor member_events
            self.old self.new visitor.old visitor.new result member_at }
    {
        self.inner_list_member(visitor)
    }

    /// Parses an item or an inner list, and passes its parts to `visitor`.
    #[inline(always)]
    pub(crate) fn member<V: Visitor<'de>>(
        &mut self,
        visitor: &mut V,
    ) -> Result<(), ParseError<V::Error>>
        requires { V.is_ready visitor.old }
        ensures ready { OnOk result (V.is_ready visitor.new) }
        ensures visited { VisitsAsRead V.Visitor member_events
            self.old self.new visitor.old visitor.new result member_at }
    {
        if self.next_is(b'(') {
            return self.inner_list_by_call(visitor);
        }
        visit(visitor, Event::Item)?;
        self.item(visitor)
    }

    /// Consumes the comma between two members, with the spaces and tabs around it. Returns `true` if another member
    /// follows, and `false` at the end of the input.
    #[inline(always)]
    pub(super) fn consume_comma(&mut self) -> Result<bool, Error>
        ensures { Reads (λ wants. wants) self.old self.new result member_delimiter_at }
    {
        self.skip_ows();
        if self.peek().is_none() {
            return Ok(false);
        }
        // The error if the input ends after the comma.
        let comma = self.error(ErrorKind::TrailingComma);
        if !self.take_if(b',') {
            return Err(self.error(ErrorKind::TrailingCharactersAfterMember));
        }
        self.skip_ows();
        if self.peek().is_none() {
            return Err(comma);
        }
        Ok(true)
    }

    /// Parses the rest of a dictionary member after its key, and passes its parts to `visitor`. Without `=`, the member
    /// is the item true.
    #[inline(always)]
    fn member_value<V: Visitor<'de>>(&mut self, visitor: &mut V) -> Result<(), ParseError<V::Error>>
        requires { V.is_ready visitor.old }
        ensures ready { OnOk result (V.is_ready visitor.new) }
        ensures visited { VisitsAsRead V.Visitor member_events
            self.old self.new visitor.old visitor.new result member_value_at }
    {
        if self.take_if(b'=') {
            return self.member(visitor);
        }
        visit(visitor, Event::Item)?;
        visit(visitor, Event::BareItem(GenericBareItem::Boolean(true)))?;
        self.parameters(visitor)
    }

    /// Parses members up to the end of the input, and passes their parts to `visitor`.
    pub(super) fn members<M: Member<'de, V>, V: Visitor<'de>>(
        &mut self,
        visitor: &mut V,
    ) -> Result<(), ParseError<V::Error>>
        requires { V.is_ready visitor.old }
        ensures ready { OnOk result (V.is_ready visitor.new) }
        ensures visited { VisitsAsRead V.Visitor (λ members. flat_map (member_parts M.keyed) members)
            self.old self.new visitor.old visitor.new
            result (λ version. members_at (member_parts M.keyed) (one_member_at M.keyed version)) }
        ensures end { OnOk result (rest self.new ≡ []) }
    {
        self.skip_sp();
        if self.peek().is_none() {
            return Ok(());
        }
        // One call in the loop: the compiler inlines a function that has no other call.
        let mut wants = true;
        while wants {
            M::consume(self, visitor)?;
            wants = self.consume_comma()?;
        }
        Ok(())
    }
}

/// A kind of member: list members or dictionary members.
pub(super) trait Member<'de, V: Visitor<'de>> {
    ghost keyed: { Bool };

    /// Parses a member, and passes its parts to `visitor`.
    fn consume(cursor: &mut Cursor<'de>, visitor: &mut V) -> Result<(), ParseError<V::Error>>
        requires { V.is_ready visitor.old }
        ensures ready { OnOk result (V.is_ready visitor.new) }
        ensures visited { VisitsAsRead V.Visitor (member_parts keyed)
            cursor.old cursor.new visitor.old visitor.new result (one_member_at keyed) };
}

/// A member of a list. The visitor receives its first event before the member is parsed.
pub(super) struct Entry;

impl<'de, V: Visitor<'de>> Member<'de, V> for Entry {
    ghost keyed = { false };

    #[inline(always)]
    fn consume(cursor: &mut Cursor<'de>, visitor: &mut V) -> Result<(), ParseError<V::Error>> {
        visit(visitor, Event::Entry)?;
        cursor.member(visitor)
    }
}

/// A member of a dictionary. The visitor receives its first event once the key is parsed.
pub(super) struct KeyedEntry;

impl<'de, V: Visitor<'de>> Member<'de, V> for KeyedEntry {
    ghost keyed = { true };

    #[inline(always)]
    fn consume(cursor: &mut Cursor<'de>, visitor: &mut V) -> Result<(), ParseError<V::Error>> {
        let key = cursor.short_key()?;
        visit(visitor, Event::KeyedEntry(key))?;
        cursor.member_value(visitor)
    }
}
