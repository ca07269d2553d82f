//! The elements of lists, dictionaries and inner lists, and functions that append all elements of an iterator or none.
#![tactic(auto, using(crate::proofs::Written::cut_to))]

ghost use Rattle.std.specs.Prelude.{◌≡◌, true, IfErr, IfOk, OnOk, OnErr, ◌≤◌, string_bytes, string_capacity};
ghost use Rattle.std.specs.Iterator.{IsFinite};
ghost use Rattle.sfv_writer.specs.Versions.{ChecksVersion, PartKind, AppendsAll, AppendsParts, LacksForParts};
ghost use Rattle.sfv_writer.specs.Versions.{StopsEarly, inner_items, list_members, dictionary_members};
ghost use Rattle.sfv_writer.specs.Written.{AsksForRoom, Appends, Extends};

use crate::capacity::prepare;
use crate::item::serialize_item;
use crate::member::{serialize_dictionary_member, serialize_member};
use crate::output::{serialize_separator, truncate_to};
use crate::serialize_error::SerializeError;
use crate::version_check::{check_item, check_member};
use sfv_base::error::OutOfMemory;
use sfv_spec::version::Version;
use sfv_tree::parsed::{Item, ListEntry};
use sfv_values::key::Key;
use std::alloc::Allocator;
use std::string::String as StdString;

/// An item of an inner list, or a member of a list or a dictionary.
// The functions that append an element are inlined into the loop of each caller, except for inner lists. A member then
// takes no call.
pub trait Element: Copy {
    ghost part: { PartKind Self };

    /// Checks that `version` has every value of the element.
    ///
    /// # Errors
    ///
    /// Returns `SerializeError::Unsupported` with the kind of the first value that `version` lacks.
    fn check(self, version: Version) -> Result<(), SerializeError>
        ensures { ChecksVersion version (part.values self) result };

    /// Appends the text of the element.
    ///
    /// # Errors
    ///
    /// Returns `OutOfMemory` if memory runs out. The old text is then still a prefix of `output`.
    fn serialize<A: Allocator>(self, output: &mut StdString<A>) -> Result<(), OutOfMemory>
        ensures text { Appends output.old output.new (part.text self) result }
        ensures room { AsksForRoom output.old output.new (part.text self) result }
        ensures valid { OnOk result (part.is_valid self) };
}

impl<'m> Element for &'m Item {
    ghost part = { inner_items };

    fn check(self, version: Version) -> Result<(), SerializeError> {
        check_item(version, self)
    }

    #[inline(always)]
    fn serialize<A: Allocator>(self, output: &mut StdString<A>) -> Result<(), OutOfMemory> {
        serialize_item(self, output)
    }
}

impl<'m> Element for &'m ListEntry {
    ghost part = { list_members };

    fn check(self, version: Version) -> Result<(), SerializeError> {
        check_member(version, self)
    }

    #[inline(always)]
    fn serialize<A: Allocator>(self, output: &mut StdString<A>) -> Result<(), OutOfMemory> {
        serialize_member(self, output)
    }
}

impl<'m> Element for (&'m Key, &'m ListEntry) {
    ghost part = { dictionary_members };

    fn check(self, version: Version) -> Result<(), SerializeError> {
        check_member(version, self.1)
    }

    #[inline(always)]
    fn serialize<A: Allocator>(self, output: &mut StdString<A>) -> Result<(), OutOfMemory> {
        serialize_dictionary_member(self.0, self.1, output)
    }
}

/// Requests memory before the first member of a list or a dictionary, if `output` has none yet.
#[inline(always)]
fn prepare_for<A: Allocator>(is_member: bool, output: &mut StdString<A>)
    ensures text { string_bytes output.new ≡ string_bytes output.old }
    ensures room { string_capacity output.old ≤ string_capacity output.new }
{
    if is_member {
        prepare(output);
    }
}

/// Appends all elements, with the separator between neighbours: the members of a list or a dictionary, or the items of
/// an inner list.
// The first element is appended before the loop, so the loop needs no flag for it.
#[inline(always)]
pub(crate) fn serialize_elements<E: Element, A: Allocator, I: Iterator<Item = E> + Drop>(
    are_members: bool,
    separator: &str,
    mut elements: I,
    output: &mut StdString<A>,
) -> Result<(), OutOfMemory>
    requires can { I.can_next elements }
    requires ends { IsFinite (I.remaining elements) }
    ensures text { OnOk result (AppendsParts E.part I.next_gives elements separator.now true output.old output.new) }
    ensures room { OnErr result (LacksForParts E.part I.next_gives elements separator.now true output.old) }
    ensures stays { string_capacity output.old ≤ string_capacity output.new }
    ensures kept { OnErr result (Extends (string_bytes output.old) (string_bytes output.new)) }
{
    let Some(first) = elements.next() else {
        return Ok(());
    };
    prepare_for(are_members, output);
    first.serialize(output)?;
    for element in elements {
        serialize_separator(false, separator, output)?;
        element.serialize(output)?;
    }
    Ok(())
}

/// Appends each element, after the separator except for the first, and fails at the first that `version` lacks.
/// Returns `true` if nothing has been written so far.
pub(crate) fn serialize_each<E: Element, A: Allocator, I: Iterator<Item = E> + Drop>(
    version: Version,
    is_first: bool,
    separator: &str,
    elements: I,
    output: &mut StdString<A>,
) -> Result<bool, SerializeError>
    requires can { I.can_next elements }
    requires ends { IsFinite (I.remaining elements) }
    ensures text { IfOk result (AppendsAll E.part version I.next_gives elements separator.now output.old is_first output.new) }
    ensures failed { IfErr result (StopsEarly E.part version I.next_gives elements separator.now output.old is_first) }
    ensures stays { string_capacity output.old ≤ string_capacity output.new }
    ensures kept { OnErr result (Extends (string_bytes output.old) (string_bytes output.new)) }
{
    let mut none = is_first;
    for element in elements {
        element.check(version)?;
        serialize_separator(none, separator, output)?;
        element.serialize(output)?;
        none = false;
    }
    Ok(none)
}

/// Appends each part, after the separator except for the first. Returns `true` if nothing has been written so far.
///
/// # Errors
///
/// Returns `SerializeError::Unsupported` with the kind of the first value that `version` lacks, or `OutOfMemory` if
/// memory runs out. After an error, `text` is unchanged.
pub fn append_each<E: Element, A: Allocator, I: Iterator<Item = E> + Drop>(
    version: Version,
    is_first: bool,
    separator: &str,
    parts: I,
    text: &mut StdString<A>,
) -> Result<bool, SerializeError>
    requires can { I.can_next parts }
    requires ends { IsFinite (I.remaining parts) }
    ensures text { IfOk result (AppendsAll E.part version I.next_gives parts separator.now text.old is_first text.new) }
    ensures failed { IfErr result (StopsEarly E.part version I.next_gives parts separator.now text.old is_first) }
    ensures stays { string_capacity text.old ≤ string_capacity text.new }
    ensures kept { OnErr result (string_bytes text.new ≡ string_bytes text.old) }
{
    let len = text.len();
    match serialize_each(version, is_first, separator, parts, text) {
        Ok(none) => Ok(none),
        Err(error) => {
            truncate_to(len, text);
            Err(error)
        }
    }
}
