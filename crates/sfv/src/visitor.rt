//! The trait `Visitor` and the provided visitors. A visitor receives the parts of a field during parsing. `Visitor`
//! explains how to handle repeated keys.

pub use sfv_tree::expect_item::{ExpectItem, ExpectedItem};
pub use sfv_tree::ignored::Ignored;
pub use sfv_tree::item_visitor::{ItemVisitorWith, item_visitor_with};
pub use sfv_tree::make::{MakeDictionaryVisitor, MakeItemVisitor, MakeListVisitor};
pub use sfv_tree::parameter_visitor::{ParameterVisitorWith, parameter_visitor_with};
pub use sfv_tree::visitor::{
    DictionaryBuilder, Event, ItemBuilder, ItemFault, ListBuilder, Visitor,
};
