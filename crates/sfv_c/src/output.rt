//! A text that is written part by part, up to the first error.

ghost use Rattle.std.specs.Prelude.{◌≡◌, [], None, string_bytes};
ghost use Rattle.std.specs.Result.{result_err};
ghost use Rattle.sfv.specs.BareItems.{ref_value};
ghost use Rattle.sfv.specs.CheckedTexts.{text_of};
ghost use Rattle.sfv.specs.Versions.{OnOutOfMemory};
ghost use Rattle.sfv.specs.Written.{LacksRoom, separator_before};
ghost use Rattle.sfv_c.specs.RowEvents.{IsAppended, Appends, LacksForPiece, text_only, item_piece};

use sfv::{KeyRef, RefBareItem, SerializeError, Version};
use sfv_writer::item::{serialize_bare_item, serialize_key, serialize_value};
use sfv_writer::output::serialize_separator;
use sfv_writer::version_check::check_bare_item;
use std::alloc::Global;

/// A text for a version. After the first error, nothing is appended.
#[derive(Drop)]
pub(crate) struct Output {
    pub(crate) version: Version,
    pub(crate) text: String,
    pub(crate) error: Option<SerializeError>,
}

/// Appends a bare item or the value of a key, if the version has it.
#[inline(always)]
fn check_and_append_item(
    version: Version,
    keyed: bool,
    value: RefBareItem<'_>,
    text: &mut String,
) -> Result<(), SerializeError>
    ensures appended { IsAppended version (item_piece keyed (ref_value value.entry)) text.old text.new (result_err result) }
    ensures room { OnOutOfMemory result (LacksRoom text.old (item_piece keyed (ref_value value.entry)).text) }
{
    check_bare_item(version, value)?;
    if keyed {
        serialize_value(value, text)?;
        return Ok(());
    }
    serialize_bare_item(value, text)?;
    Ok(())
}

impl Output {
    /// Creates an empty text with this capacity, if there is memory for it.
    pub(crate) fn new(alloc: Global, version: Version, capacity: usize) -> Output
        ensures version { result.version ≡ version }
        ensures text { string_bytes result.text ≡ [] }
        ensures error { result.error ≡ None }
    {
        let mut text = String::new(alloc);
        // A failed request is no error, because the text may need fewer bytes.
        let _ = text.reserve_exact(capacity);
        Output {
            version,
            text,
            error: None,
        }
    }

    /// Appends a text.
    #[inline(always)]
    pub(crate) fn append_text(&mut self, text: &str)
        ensures appended { Appends (text_only text.now) self.old self.new }
        ensures room { LacksForPiece (text_only text.now) self.old self.new }
    {
        if self.error.is_none() && self.text.push_str(text).is_err() {
            self.error = Some(SerializeError::OutOfMemory);
        }
    }

    /// Appends the separator, unless `is_first` is true.
    #[inline(always)]
    pub(crate) fn append_separator(&mut self, is_first: bool, separator: &str)
        ensures appended { Appends (text_only (separator_before is_first separator.now)) self.old self.new }
        ensures room { LacksForPiece (text_only (separator_before is_first separator.now)) self.old self.new }
    {
        if self.error.is_none()
            && serialize_separator(is_first, separator, &mut self.text).is_err()
        {
            self.error = Some(SerializeError::OutOfMemory);
        }
    }

    /// Appends a key.
    #[inline(always)]
    pub(crate) fn append_key(&mut self, key: KeyRef<'_>)
        ensures appended { Appends (text_only (text_of key.entry)) self.old self.new }
        ensures room { LacksForPiece (text_only (text_of key.entry)) self.old self.new }
    {
        if self.error.is_none() && serialize_key(key, &mut self.text).is_err() {
            self.error = Some(SerializeError::OutOfMemory);
        }
    }

    /// Appends a bare item, or the value of a key.
    #[inline(always)]
    pub(crate) fn append_item(&mut self, keyed: bool, value: RefBareItem<'_>)
        ensures appended { Appends (item_piece keyed (ref_value value.entry)) self.old self.new }
        ensures room { LacksForPiece (item_piece keyed (ref_value value.entry)) self.old self.new }
    {
        if self.error.is_none() {
            if let Err(error) = check_and_append_item(self.version, keyed, value, &mut self.text) {
                self.error = Some(error);
            }
        }
    }
}
