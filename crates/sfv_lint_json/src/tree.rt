//! Structured fields as trees for reading: a line for each part, with its type, below the part that contains it.

ghost use Rattle.std.specs.Prelude.{◌≡◌, ◌++◌, OnOk, map, string_bytes};
ghost use Rattle.sfv.specs.BareItems.{bare_value};
ghost use Rattle.sfv.specs.Kinds.{kind_of_value};
ghost use Rattle.sfv.specs.Trees.{pairs_tree, item_tree, inner_list_tree, member_tree, list_tree, dictionary_tree};
ghost use Rattle.sfv.specs.Types.{item_field, list_field, dictionary_field};
ghost use Rattle.sfv_lint_json.specs.Trees.{bare_line, parameter_lines, item_lines, items_lines};
ghost use Rattle.sfv_lint_json.specs.Trees.{parts_lines, member_lines, field_lines};

use sfv::{
    BareItem, BareItemType, Dictionary, GenericBareItem, InnerList, Item, List, ListEntry,
    OutOfMemory, Parameters,
};
use sfv_writer::item::serialize_bare_item;

/// Returns the type of a bare item.
fn type_of(item: &BareItem) -> BareItemType
    ensures { result ≡ kind_of_value (bare_value item.now) }
{
    match item {
        GenericBareItem::Decimal(_) => BareItemType::Decimal,
        GenericBareItem::Integer(_) => BareItemType::Integer,
        GenericBareItem::String(_) => BareItemType::String,
        GenericBareItem::ByteSequence(_) => BareItemType::ByteSequence,
        GenericBareItem::Boolean(_) => BareItemType::Boolean,
        GenericBareItem::Token(_) => BareItemType::Token,
        GenericBareItem::Date(_) => BareItemType::Date,
        GenericBareItem::DisplayString(_) => BareItemType::DisplayString,
    }
}

/// Appends the type of a bare item, and its canonical text.
fn append_bare_item(out: &mut String, item: &BareItem) -> Result<(), OutOfMemory>
    ensures { OnOk result (string_bytes out.new ≡ string_bytes out.old ++ bare_line (bare_value item.now)) }
{
    write!(out, "{} ", type_of(item))?;
    serialize_bare_item(item.as_ref_item(), out)?;
    out.push('\n')?;
    Ok(())
}

/// Appends a line for each parameter, with `indent` before it.
fn append_parameters(out: &mut String, indent: &str, params: &Parameters) -> Result<(), OutOfMemory>
    ensures { OnOk result (string_bytes out.new ≡ string_bytes out.old
        ++ parameter_lines indent.now (pairs_tree params.now.entries)) }
{
    for (key, value) in params {
        out.push_str(indent)?;
        out.push(';')?;
        out.push_str(key.as_str())?;
        out.push_str(" = ")?;
        append_bare_item(out, value)?;
    }
    Ok(())
}

/// Appends the lines of an item, without white space before the first.
fn append_item_at(out: &mut String, indent: &str, item: &Item) -> Result<(), OutOfMemory>
    ensures { OnOk result (string_bytes out.new ≡ string_bytes out.old ++ item_lines indent.now (item_tree item.now)) }
{
    append_bare_item(out, &item.bare_item)?;
    append_parameters(out, indent, &item.params)
}

/// Appends the lines of the items of an inner list.
fn append_items(out: &mut String, items: &[Item]) -> Result<(), OutOfMemory>
    ensures { OnOk result (string_bytes out.new ≡ string_bytes out.old ++ items_lines (map item_tree items.now)) }
{
    for item in items {
        out.push_str("        ")?;
        append_item_at(out, "          ", item)?;
    }
    Ok(())
}

/// Appends the lines of the items of an inner list, and then of its parameters.
fn append_parts(out: &mut String, list: &InnerList) -> Result<(), OutOfMemory>
    ensures { OnOk result (string_bytes out.new ≡ string_bytes out.old ++ parts_lines (inner_list_tree list.now)) }
{
    append_items(out, list.items.as_slice())?;
    append_parameters(out, "      ", &list.params)
}

/// Appends a line, and the lines of the items and the parameters of an inner list.
fn append_line_and_parts(out: &mut String, line: &str, list: &InnerList) -> Result<(), OutOfMemory>
    ensures { OnOk result (string_bytes out.new ≡ string_bytes out.old
        ++ (line.now ++ parts_lines (inner_list_tree list.now))) }
{
    out.push_str(line)?;
    append_parts(out, list)
}

/// Appends the lines of a member, without white space before the first.
fn append_member(out: &mut String, entry: &ListEntry) -> Result<(), OutOfMemory>
    ensures { OnOk result (string_bytes out.new ≡ string_bytes out.old ++ member_lines (member_tree entry.now)) }
{
    match entry {
        ListEntry::Item(item) => append_item_at(out, "      ", item),
        ListEntry::InnerList(list) => append_line_and_parts(out, "inner list\n", list),
    }
}

/// Appends an item as a tree.
///
/// # Errors
///
/// Returns `OutOfMemory` if memory runs out. A part may then be appended.
pub fn append_item(out: &mut String, item: &Item) -> Result<(), OutOfMemory>
    ensures { OnOk result (string_bytes out.new ≡ string_bytes out.old
        ++ field_lines item_field (item_tree item.now)) }
{
    out.push_str("    ")?;
    append_item_at(out, "      ", item)
}

/// Appends a list as a tree.
///
/// # Errors
///
/// Returns `OutOfMemory` if memory runs out. A part may then be appended.
pub fn append_list(out: &mut String, list: &List) -> Result<(), OutOfMemory>
    ensures { OnOk result (string_bytes out.new ≡ string_bytes out.old
        ++ field_lines list_field (list_tree list.now.items)) }
{
    for entry in list {
        out.push_str("    ")?;
        append_member(out, entry)?;
    }
    Ok(())
}

/// Appends a dictionary as a tree.
///
/// # Errors
///
/// Returns `OutOfMemory` if memory runs out. A part may then be appended.
pub fn append_dictionary(out: &mut String, dictionary: &Dictionary) -> Result<(), OutOfMemory>
    ensures { OnOk result (string_bytes out.new ≡ string_bytes out.old
        ++ field_lines dictionary_field (dictionary_tree dictionary.now.entries)) }
{
    for (key, entry) in dictionary {
        out.push_str("    ")?;
        out.push_str(key.as_str())?;
        out.push_str(" = ")?;
        append_member(out, entry)?;
    }
    Ok(())
}
