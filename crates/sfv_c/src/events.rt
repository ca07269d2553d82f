//! Events as rows, which point to their texts: into the input, or to the decoded text in a borrowed buffer.

ghost use Rattle.std.specs.Prelude.{◌≡◌, ◌≤◌, ◌<◌, ◌^◌, ◌+◌, [], Some, None, length, string_bytes};
ghost use Rattle.std.specs.Cow.{cow_str_bytes};
ghost use Rattle.sfv.specs.Types.bare_items as bare;
ghost use Rattle.sfv.specs.BareItems.{input_value, read_text};
ghost use Rattle.sfv.specs.Parsers.{input_of, version_of};
ghost use Rattle.sfv_c.specs.Rows.{row_parts, value_numbers};
ghost use Rattle.sfv_c.specs.Events.{counted, put_row, room_of_read, IsRowKept, TakesRow, PutsEvents};
ghost use Rattle.sfv_c.specs.Answers.{answer};

use crate::answer::{Answer, OK, TOO_SMALL};
use crate::reading::{Receiver, read_into};
use crate::rows::{
    BARE_ITEM, ENTRY, INNER_LIST, INNER_LIST_END, ITEM, KEYED_ENTRY, PARAMETER, PARAMETERS_END, Row,
};
use sfv::visitor::Event;
use sfv::{BareItemFromInput, FieldKind, GenericBareItem, Parser, String, StringFromInput};
use std::alloc::Global;
use std::borrow::CowStr;
use std::string::String as StdString;

/// A borrowed buffer of rows, the number of rows so far, the free part of the room for decoded texts, and the length of
/// all decoded texts so far.
#[derive(Drop)]
struct Collector<'r, 'a> {
    rows: &'r mut [Row<'a>],
    count: usize,
    room: &'a mut [u8],
    used: usize,
}

impl<'r, 'a> Collector<'r, 'a> {
    /// Counts a row without a place in the buffer.
    #[cold]
    #[inline(never)]
    fn count_unwritten(&mut self)
        ensures same_rows { self.new.rows.ghost_name ≡ self.old.rows.ghost_name }
        ensures rows { self.new.rows.now ≡ self.old.rows.now }
        ensures count { self.new.count ≡ counted (self.old.count + 1) }
        ensures used { self.new.used ≡ self.old.used }
        ensures room { self.new.room.now ≡ self.old.room.now }
    {
        self.count = self.count.saturating_add(1);
    }

    /// Counts a row, and writes it if the buffer has a place for it.
    // By a hint only: the compiler stops inlining where `receive` is large.
    #[inline]
    #[tactic(auto, using(crate::proofs::Kept::row_kept))]
    fn put(&mut self, row: Row<'a>)
        ensures { IsRowKept self.old (row_parts row.entry) 0 self.new }
    {
        // This gives the proof the range of the field.
        let _used = self.used;
        let count = self.count;
        if count < self.rows.len() {
            self.rows[count] = row;
            self.count = count + 1;
            return;
        }
        self.count_unwritten();
    }

    /// Copies a decoded text to the room, if it fits, and returns the copy.
    #[inline(never)]
    fn hold(&mut self, text: &[u8]) -> &'a [u8]
        ensures same_rows { self.new.rows.ghost_name ≡ self.old.rows.ghost_name }
        ensures rows { self.new.rows.now ≡ self.old.rows.now }
        ensures count { self.new.count ≡ self.old.count }
        ensures used { self.new.used ≡ counted (self.old.used + length text.now) }
        ensures held { length text.now ≤ length self.old.room.now → result.now ≡ text.now }
        ensures left { length text.now ≤ length self.old.room.now
            → length self.new.room.now + length text.now ≡ length self.old.room.now }
    {
        self.used = self.used.saturating_add(text.len());
        match self.room.split_off_mut(..text.len()) {
            Some(place) => {
                place.copy_from_slice(text);
                place
            }
            None => b"",
        }
    }

    /// Copies decoded bytes to the room, if they fit, and returns the copy.
    #[inline(never)]
    fn hold_bytes(&mut self, bytes: Vec<u8>) -> &'a [u8]
        ensures same_rows { self.new.rows.ghost_name ≡ self.old.rows.ghost_name }
        ensures rows { self.new.rows.now ≡ self.old.rows.now }
        ensures count { self.new.count ≡ self.old.count }
        ensures used { self.new.used ≡ counted (self.old.used + length bytes.items) }
        ensures held { length bytes.items ≤ length self.old.room.now → result.now ≡ bytes.items }
        ensures left { length bytes.items ≤ length self.old.room.now
            → length self.new.room.now + length bytes.items ≡ length self.old.room.now }
    {
        self.hold(bytes.as_slice())
    }

    /// Copies a decoded string to the room, if it fits, and returns the copy.
    #[inline(never)]
    fn hold_string(&mut self, text: String) -> &'a [u8]
        ensures same_rows { self.new.rows.ghost_name ≡ self.old.rows.ghost_name }
        ensures rows { self.new.rows.now ≡ self.old.rows.now }
        ensures count { self.new.count ≡ self.old.count }
        ensures used { self.new.used ≡ counted (self.old.used + length text) }
        ensures held { length text ≤ length self.old.room.now → result.now ≡ text }
        ensures left { length text ≤ length self.old.room.now
            → length self.new.room.now + length text ≡ length self.old.room.now }
    {
        self.hold(text.as_str().as_bytes())
    }

    /// Returns the bytes of a string. Copies them to the room if they are decoded.
    // A function, as is `bytes_of_display_string`, so `parts_of` is short: large functions are not inlined.
    #[inline]
    fn bytes_of_string(&mut self, text: StringFromInput<'a>) -> &'a [u8]
        ensures same_rows { self.new.rows.ghost_name ≡ self.old.rows.ghost_name }
        ensures rows { self.new.rows.now ≡ self.old.rows.now }
        ensures count { self.new.count ≡ self.old.count }
        ensures used { self.new.used ≡ counted (self.old.used + room_of_read (bare.String text.entry)) }
        ensures held { room_of_read (bare.String text.entry) ≤ length self.old.room.now
            → result.now ≡ read_text text.entry }
        ensures left { room_of_read (bare.String text.entry) ≤ length self.old.room.now
            → length self.new.room.now + room_of_read (bare.String text.entry) ≡ length self.old.room.now }
    {
        // This gives the proof the range of the field.
        let _used = self.used;
        match text {
            StringFromInput::Borrowed(text) => text.as_str().as_bytes(),
            StringFromInput::Owned(text) => self.hold_string(text),
        }
    }

    /// Copies a decoded display string to the room, if it fits, and returns the copy.
    #[inline(never)]
    fn hold_display_string(&mut self, text: StdString) -> &'a [u8]
        ensures same_rows { self.new.rows.ghost_name ≡ self.old.rows.ghost_name }
        ensures rows { self.new.rows.now ≡ self.old.rows.now }
        ensures count { self.new.count ≡ self.old.count }
        ensures used { self.new.used ≡ counted (self.old.used + length (string_bytes text)) }
        ensures held { length (string_bytes text) ≤ length self.old.room.now → result.now ≡ string_bytes text }
        ensures left { length (string_bytes text) ≤ length self.old.room.now
            → length self.new.room.now + length (string_bytes text) ≡ length self.old.room.now }
    {
        self.hold(text.as_str().as_bytes())
    }

    /// Returns the bytes of a display string. Copies them to the room if they are decoded.
    #[inline]
    fn bytes_of_display_string(&mut self, text: CowStr<'a>) -> &'a [u8]
        ensures same_rows { self.new.rows.ghost_name ≡ self.old.rows.ghost_name }
        ensures rows { self.new.rows.now ≡ self.old.rows.now }
        ensures count { self.new.count ≡ self.old.count }
        ensures used { self.new.used ≡ counted (self.old.used + room_of_read (bare.DisplayString text.entry)) }
        ensures held { room_of_read (bare.DisplayString text.entry) ≤ length self.old.room.now
            → result.now ≡ cow_str_bytes text.entry }
        ensures left { room_of_read (bare.DisplayString text.entry) ≤ length self.old.room.now
            → length self.new.room.now + room_of_read (bare.DisplayString text.entry) ≡ length self.old.room.now }
    {
        // This gives the proof the range of the field.
        let _used = self.used;
        match text {
            CowStr::Borrowed(text) => text.as_bytes(),
            CowStr::Owned(text) => self.hold_display_string(text),
        }
    }

    /// Adds the row of an event without a value.
    #[inline]
    fn keep_plain(&mut self, tag: u32, key: &'a [u8])
        ensures { IsRowKept self.old (record { tag = tag; key = key.now; value = value_numbers None }) 0 self.new }
    {
        self.put(Row {
            tag,
            kind: 0,
            key,
            bytes: b"",
            number: 0,
        });
    }

    /// Adds the row of an event without a key and a value.
    #[inline]
    fn keep_tag(&mut self, tag: u32)
        ensures { IsRowKept self.old (record { tag = tag; key = []; value = value_numbers None }) 0 self.new }
    {
        self.keep_plain(tag, b"");
    }

    /// Returns the kind, the bytes and the number of a value. Copies a decoded text to the room.
    #[inline(always)]
    fn parts_of(&mut self, item: BareItemFromInput<'a>) -> (u32, &'a [u8], i64)
        ensures same_rows { self.new.rows.ghost_name ≡ self.old.rows.ghost_name }
        ensures rows { self.new.rows.now ≡ self.old.rows.now }
        ensures count { self.new.count ≡ self.old.count }
        ensures used { self.new.used ≡ counted (self.old.used + room_of_read item.entry) }
        ensures parts { room_of_read item.entry ≤ length self.old.room.now
            → record { kind = result.0; number = result.2; bytes = result.1.now }
            ≡ value_numbers (Some (input_value item.entry)) }
        ensures left { room_of_read item.entry ≤ length self.old.room.now
            → length self.new.room.now + room_of_read item.entry ≡ length self.old.room.now }
    {
        // This gives the proof the range of the field.
        let _used = self.used;
        match item {
            GenericBareItem::Integer(value) => (1, b"", value.to_i64()),
            GenericBareItem::Decimal(value) => (2, b"", value.as_integer_scaled_1000().to_i64()),
            GenericBareItem::String(text) => (3, self.bytes_of_string(text), 0),
            GenericBareItem::Token(text) => (4, text.as_str().as_bytes(), 0),
            GenericBareItem::ByteSequence(bytes) => (5, self.hold_bytes(bytes), 0),
            GenericBareItem::Boolean(value) => (6, b"", i64::from(value)),
            GenericBareItem::Date(value) => (7, b"", value.unix_seconds().to_i64()),
            GenericBareItem::DisplayString(text) => (8, self.bytes_of_display_string(text), 0),
        }
    }

    /// Adds the row of an event with this value.
    // Inlined, as is `receive`: the parts of a row then stay in registers.
    #[inline(always)]
    fn keep_value(&mut self, tag: u32, key: &'a [u8], item: BareItemFromInput<'a>)
        ensures { IsRowKept self.old (record {
          tag = tag;
          key = key.now;
          value = value_numbers (Some (input_value item.entry));
        }) (room_of_read item.entry) self.new }
    {
        let (kind, bytes, number) = self.parts_of(item);
        self.put(Row {
            tag,
            kind,
            key,
            bytes,
            number,
        });
    }
}

impl<'r, 'a> Receiver<'a> for Collector<'r, 'a> {
    ghost receives = { TakesRow };

    #[inline(always)]
    fn receive(&mut self, event: Event<'a>) {
        match event {
            Event::Entry => self.keep_tag(ENTRY),
            Event::KeyedEntry(key) => self.keep_plain(KEYED_ENTRY, key.as_str().as_bytes()),
            Event::Item => self.keep_tag(ITEM),
            Event::InnerList => self.keep_tag(INNER_LIST),
            Event::BareItem(item) => self.keep_value(BARE_ITEM, b"", item),
            Event::Parameter(key, item) => {
                self.keep_value(PARAMETER, key.as_str().as_bytes(), item)
            }
            Event::ParametersEnd => self.keep_tag(PARAMETERS_END),
            Event::InnerListEnd => self.keep_tag(INNER_LIST_END),
        }
    }
}

/// Returns the result for so many rows with so many bytes of room, if the buffers have these lengths.
fn answer_of(rows: usize, bytes: usize, most_rows: usize, most_bytes: usize) -> Answer
    ensures fit { (rows ≤ most_rows) × (bytes ≤ most_bytes) → result ≡ answer 0 0 0 bytes rows }
    ensures too_small { ¬ ((rows ≤ most_rows) × (bytes ≤ most_bytes)) → result ≡ answer 2 0 0 bytes rows }
{
    if rows > most_rows || bytes > most_bytes {
        return Answer::of_sizes(TOO_SMALL, bytes, rows);
    }
    Answer::of_sizes(OK, bytes, rows)
}

/// Parses a field of this type, and writes its rows to the buffer, as far as they fit.
pub(crate) fn put_events<'a>(
    alloc: Global,
    field: FieldKind,
    parser: Parser<'a>,
    rows: &mut [Row<'a>],
    room: &'a mut [u8],
) -> Answer
    ensures { PutsEvents (version_of parser.entry) field (input_of parser.entry)
        rows.old (length room.old) (rows.new, result) }
{
    let (most_rows, most_bytes) = (rows.len(), room.len());
    let mut collector = Collector {
        rows,
        count: 0,
        room,
        used: 0,
    };
    match read_into(alloc, field, parser, &mut collector) {
        Ok(()) => answer_of(collector.count, collector.used, most_rows, most_bytes),
        Err(error) => Answer::of_error(error),
    }
}
