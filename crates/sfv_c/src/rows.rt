//! Events as rows, which point to their texts.

/// The tag of `Event::Entry`.
pub(crate) const ENTRY: u32 = 1;

/// The tag of `Event::KeyedEntry`.
pub(crate) const KEYED_ENTRY: u32 = 2;

/// The tag of `Event::Item`.
pub(crate) const ITEM: u32 = 3;

/// The tag of `Event::InnerList`.
pub(crate) const INNER_LIST: u32 = 4;

/// The tag of `Event::BareItem`.
pub(crate) const BARE_ITEM: u32 = 5;

/// The tag of `Event::Parameter`.
pub(crate) const PARAMETER: u32 = 6;

/// The tag of `Event::ParametersEnd`.
pub(crate) const PARAMETERS_END: u32 = 7;

/// The tag of `Event::InnerListEnd`.
pub(crate) const INNER_LIST_END: u32 = 8;

/// An event with a borrowed key and borrowed bytes. Each part that the event lacks is 0 or empty.
#[repr(C)]
#[derive(Clone, Copy, Drop)]
pub struct Row<'a> {
    /// The tag of the event.
    pub tag: u32,
    /// The kind of its value.
    pub kind: u32,
    /// Its key.
    pub key: &'a [u8],
    /// The bytes of its value, if this is a text or a byte sequence.
    pub bytes: &'a [u8],
    /// The number of its value, if this is a number or a boolean.
    pub number: i64,
}
