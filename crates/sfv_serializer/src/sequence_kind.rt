//! The kinds of serializers, and their separators.

ghost use Rattle.std.specs.Prelude.{◌≡◌, ℕ, List, codes};

mod sealed {
    pub trait Sealed {}

    impl Sealed for super::ListMembers {}

    impl Sealed for super::DictMembers {}

    impl Sealed for super::InnerListItems {}
}

/// The kind of parts that a serializer writes: list members, dictionary members, or items of an inner list.
///
/// The kind determines the separator. This trait is sealed, and so are the traits below it.
pub trait SequenceKind: sealed::Sealed {
    ghost separator: { List ℕ };

    /// Returns the separator between two parts.
    fn separator() -> &'static str
        ensures { result.now ≡ separator };
}

/// A kind of parts without keys: list members, or items of an inner list.
///
/// Code that writes items into either takes `SequenceSerializer<W, K>` with `K: Keyless`.
pub trait Keyless: SequenceKind {}

/// A kind of members: list members or dictionary members.
///
/// Code that calls `has_member` on either takes `SequenceSerializer<W, K>` with `K: TopLevel`.
pub trait TopLevel: SequenceKind + Drop {
    /// Creates a value of this kind.
    fn kind() -> Self;
}

/// The members of a list, which have no keys.
#[derive(Drop)]
pub struct ListMembers {}

impl SequenceKind for ListMembers {
    ghost separator = { codes ", " };

    fn separator() -> &'static str {
        ", "
    }
}

impl Keyless for ListMembers {}

impl TopLevel for ListMembers {
    fn kind() -> ListMembers {
        ListMembers {}
    }
}

/// The members of a dictionary, each with a key.
#[derive(Drop)]
pub struct DictMembers {}

impl SequenceKind for DictMembers {
    ghost separator = { codes ", " };

    fn separator() -> &'static str {
        ", "
    }
}

impl TopLevel for DictMembers {
    fn kind() -> DictMembers {
        DictMembers {}
    }
}

/// The items of an inner list. This type is not `Drop`, so an inner list must be finished or abandoned.
pub struct InnerListItems {
    // The length of the text before the inner list with its separator and key.
    pub(crate) len_before: usize,
}

impl SequenceKind for InnerListItems {
    ghost separator = { codes " " };

    fn separator() -> &'static str {
        " "
    }
}

impl Keyless for InnerListItems {}
