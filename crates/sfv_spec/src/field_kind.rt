//! The types of field.

/// A type of field (RFC 9651, sections 3.1 to 3.3).
#[derive(Clone, Copy, Debug, PartialEq, Eq)]
pub enum FieldKind {
    /// An item.
    Item,
    /// A list.
    List,
    /// A dictionary.
    Dictionary,
}
