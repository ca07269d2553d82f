//! The trait `Visitor`, its events, and the visitors that build trees.

ghost use Rattle.std.specs.Prelude.{◌≡◌, ⊤, Some, OnOk, IfOk, IfErr};
ghost use Rattle.sfv_spec.specs.Events.{TreeEvent};
ghost use Rattle.sfv_tree.specs.ItemFaults.{item_fault_text};
ghost use Rattle.sfv_tree.specs.Events.{event_of};
ghost use Rattle.sfv_tree.specs.declared.visitor.Event.{Event};

mod dictionary_builder;
mod item_builder;
mod list_builder;
mod member;
mod option;
mod parameters;

pub use dictionary_builder::DictionaryBuilder;
pub use item_builder::ItemBuilder;
pub use list_builder::ListBuilder;
use sfv_values::bare::BareItemFromInput;
pub use sfv_values::bare::BareItemType;
use sfv_values::key_ref::KeyRef;
use std::fmt;

/// A part of a field. The parser emits events from left to right.
///
/// A list member begins with `Entry`, and a dictionary member with `KeyedEntry`. An item is `Item`, `BareItem`, a
/// `Parameter` for each parameter, repeated keys included, and `ParametersEnd`. An inner list is `InnerList`, its
/// items, `InnerListEnd`, a `Parameter` for each parameter, and `ParametersEnd`. An item that is the whole field
/// begins with `BareItem`.
#[derive(Drop)]
pub enum Event<'de> {
    /// The start of a list member. It is emitted before the member is parsed.
    Entry,
    /// The start of a dictionary member with this key.
    KeyedEntry(KeyRef<'de>),
    /// The start of an item.
    Item,
    /// The start of an inner list.
    InnerList,
    /// The bare item of an item. A dictionary member without `=` has the bare item true.
    BareItem(BareItemFromInput<'de>),
    /// A parameter with its value, which is true if the text has none.
    Parameter(KeyRef<'de>, BareItemFromInput<'de>),
    /// The end of the parameters of an item or an inner list.
    ParametersEnd,
    /// The end of the items of an inner list.
    InnerListEnd,
}

/// A receiver of the events of a field during parsing, with a result at the end.
///
/// If `event` or `finish` returns an error, parsing ends and the visitor is not called again.
///
/// Only the last value of a repeated key counts (RFC 9651, sections 3.1.2 and 3.2), but a visitor receives every
/// value. Do not fail at the value of a key while the key may come again: keep the value, replace it by a later one,
/// and check it in `finish`.
///
/// The ghost members describe the visitor's steps in each state. `takes` and `fails` do not distinguish borrowed and
/// owned text; `takes_read` and `fails_read` do.
///
/// `Some` of a visitor passes every event on and returns `Some` of its result. `None` ignores every event and returns
/// `None`.
pub trait Visitor<'de>: Drop {
    /// The result of the visitor.
    type Out: Drop;

    /// The error of the visitor.
    type Error: Drop;

    /// `is_ready s`: the closures that the visitor holds may be called. A precondition of both methods.
    ghost is_ready: { Self → Type 0 } = { λ _. ⊤ };

    /// `takes s e t`: in state `s` the visitor may accept `e`, and then is in state `t`.
    ghost takes: { Self → TreeEvent → Self → Type 0 };

    /// `fails s e error`: in state `s` the visitor may fail at `e` with `error`.
    ghost fails: { Self → TreeEvent → Self.Error → Type 0 };

    /// As `takes`, for an event with borrowed or owned text. Default: no further constraint.
    ghost takes_read: { Self → Event → Self → Type 0 } = { λ _ _ _. ⊤ };

    /// As `fails`, for an event with borrowed or owned text. Default: no further constraint.
    ghost fails_read: { Self → Event → Self.Error → Type 0 } = { λ _ _ _. ⊤ };

    /// `finishes s out`: in state `s` the visitor may return `out`.
    ghost finishes: { Self → Self.Out → Type 0 };

    /// `finish_fails s error`: in state `s` the visitor may fail to finish, with `error`.
    ghost finish_fails: { Self → Self.Error → Type 0 };

    /// Receives an event.
    ///
    /// # Errors
    ///
    /// Returns the visitor's error, which ends parsing.
    fn event(&mut self, event: Event<'de>) -> Result<(), Self::Error>
        requires { is_ready self.old }
        ensures ready { OnOk result (is_ready self.new) }
        ensures taken { OnOk result (takes self.old (event_of event.entry) self.new) }
        ensures taken_read { OnOk result (takes_read self.old event.entry self.new) }
        ensures failed { IfErr result (λ error. fails self.old (event_of event.entry) error) }
        ensures failed_read { IfErr result (λ error. fails_read self.old event.entry error) };

    /// Returns the result after the last event.
    ///
    /// # Errors
    ///
    /// Returns the visitor's error.
    fn finish(self) -> Result<Self::Out, Self::Error>
        requires { is_ready self }
        ensures answered { IfOk result (λ out. finishes self out) }
        ensures failed { IfErr result (λ error. finish_fails self error) };
}

/// The error of a visitor that expects an item of one kind.
#[derive(Clone, Copy, Debug, PartialEq, Eq)]
pub enum ItemFault {
    /// The item has another kind than the expected one.
    WrongType {
        /// The expected kind.
        expected: BareItemType,
        /// The kind of the item.
        got: BareItemType,
    },
    /// There is no item.
    NoItem,
    /// Memory ran out.
    OutOfMemory,
}

impl fmt::Display for ItemFault {
    ghost output = { λ fault. Some (item_fault_text fault) };

    fn fmt<W: fmt::Write>(&self, f: &mut fmt::Formatter<W>) -> fmt::Result {
        match self {
            ItemFault::WrongType { expected, got } => {
                write!(
                    f,
                    "unexpected bare item type: expected {expected}, got {got}"
                )
            }
            ItemFault::NoItem => f.write_str("no item"),
            ItemFault::OutOfMemory => f.write_str("out of memory"),
        }
    }
}

impl std::error::Error for ItemFault {}
