//! Parsing of whole fields (RFC 9651, section 4.2).

ghost use Rattle.std.specs.Prelude.{IfOk};
ghost use Rattle.sfv_spec.specs.declared.field_kind.FieldKind.TheVariants.{Item as item_field};
ghost use Rattle.sfv.specs.parser.Members.{field_of};
ghost use Rattle.sfv.specs.Parsers.{ReceivesAsReadBy};
ghost use Rattle.sfv.specs.parser.AsRead.{VisitsFieldAsRead};

use crate::parser::Parser;
use crate::parser::cursor::Cursor;
use crate::parser::member::Member;
use crate::parser::visit::finish;
use sfv_base::error::{ErrorKind, ParseError};
use sfv_tree::visitor::Visitor;
use std::alloc::Global;

/// Parses the input as an item, and passes its parts to `visitor`. The visitor is finished before the check for
/// characters after the item.
pub(crate) fn parse_item_field<'de, V: Visitor<'de>>(
    parser: Parser<'de>,
    alloc: Global,
    mut visitor: V,
) -> Result<V::Out, ParseError<V::Error>>
    requires { V.is_ready visitor }
    ensures visited { VisitsFieldAsRead V.Visitor parser.entry item_field visitor result }
    ensures as_read { IfOk result (ReceivesAsReadBy V.Visitor parser.entry item_field visitor) }
{
    let mut cursor = Cursor::new(parser, alloc);
    cursor.skip_sp();
    cursor.item(&mut visitor)?;
    let out = finish(visitor)?;
    cursor.skip_sp();
    if cursor.peek().is_some() {
        let error = cursor.error(ErrorKind::TrailingCharactersAfterParsedValue);
        return Err(ParseError::Syntax(error));
    }
    Ok(out)
}

/// Parses the input as members of the kind `M`, and passes their parts to `visitor`. The visitor is finished at the end
/// of the input.
pub(crate) fn parse_members_field<'de, M: Member<'de, V>, V: Visitor<'de>>(
    parser: Parser<'de>,
    alloc: Global,
    mut visitor: V,
) -> Result<V::Out, ParseError<V::Error>>
    requires { V.is_ready visitor }
    ensures visited { VisitsFieldAsRead V.Visitor parser.entry (field_of M.keyed) visitor result }
    ensures as_read { IfOk result (ReceivesAsReadBy V.Visitor parser.entry (field_of M.keyed) visitor) }
{
    Cursor::new(parser, alloc).members::<M, V>(&mut visitor)?;
    finish(visitor)
}
