//! HTTP messages, as maps of their fields and texts of their derived components.

ghost use Rattle.std.specs.Prelude.{◌≡◌, true, option_map, option_and_then, option_copied};
ghost use Rattle.sfv.specs.Trees.{pairs_tree};
ghost use Rattle.sfv_signatures.specs.HttpMessages.{HttpGives, ValueGives, part_of, section_of, derived_in};
ghost use Rattle.sfv_signatures.specs.Components.{AppendsValue};

use crate::base_error::BaseErrorKind;
use crate::components::Components;
use crate::fields::append_field;
use crate::parameters::{fault_of, has, is_derived, string_param};
use crate::rows::text_in;
use http_header::HeaderMap;
use sfv::{FieldKind, Parameters, key_ref};
use std::alloc::Global;

/// The fields and the derived components of a request or a response.
#[derive(Clone, Copy)]
pub struct MessagePart<'a> {
    /// The fields of the header section.
    pub fields: &'a HeaderMap,
    /// The fields of the trailer section, if there is one.
    pub trailers: Option<&'a HeaderMap>,
    /// The derived components, such as `("@method", "POST")` (RFC 9421, section 2.2). The first row of a name
    /// counts.
    pub derived: &'a [(&'a str, &'a str)],
    /// The values of `@query-param`, by the parameter `name` (section 2.2.8). The first row of a
    /// name counts, so leave out a parameter that the query has twice.
    pub query_params: &'a [(&'a str, &'a str)],
}

/// A message for `signature_base`: its components, those of the related request, and the types of fields.
#[derive(Clone, Copy)]
pub struct HttpMessage<'a> {
    /// The message.
    pub own: MessagePart<'a>,
    /// The related request, for the flag `req` in a response (RFC 9421, section 2.4).
    pub request: Option<MessagePart<'a>>,
    /// The types of the structured fields that the program knows, by name, for the flag `sf` (section 2.1.1).
    pub types: &'a [(&'a str, FieldKind)],
}

impl<'a> MessagePart<'a> {
    // Returns the fields, or with `tr` the trailers.
    fn section(&self, params: &Parameters) -> Option<&'a HeaderMap>
        ensures { result ≡ section_of (pairs_tree params.now.entries) self.now }
    {
        if has(params, key_ref("tr")) {
            self.trailers
        } else {
            Some(self.fields)
        }
    }

    // Returns the text of a derived component, or `None`.
    fn derived_text(&self, name: &str, params: &Parameters) -> Option<&'a str>
        ensures { option_map (λ text. text.now) result ≡ derived_in name.now (pairs_tree params.now.entries) self.now }
    {
        if name == "@query-param" {
            let param = string_param(params, key_ref("name"))?;
            text_in(self.query_params, param.as_str())
        } else {
            text_in(self.derived, name)
        }
    }
}

impl<'a> HttpMessage<'a> {
    // Returns the message, or with `req` the related request.
    fn part(&self, params: &Parameters) -> Option<&MessagePart<'a>>
        ensures { option_copied result ≡ part_of self.now (pairs_tree params.now.entries) }
    {
        if has(params, key_ref("req")) {
            self.request.as_ref()
        } else {
            Some(&self.own)
        }
    }

    // Returns the fields that the parameters name, or `None` if the message lacks them.
    fn section(&self, params: &Parameters) -> Option<&'a HeaderMap>
        ensures { result ≡ option_and_then (section_of (pairs_tree params.now.entries))
            (part_of self.now (pairs_tree params.now.entries)) }
    {
        match self.part(params) {
            Some(part) => part.section(params),
            None => None,
        }
    }

    // Appends the value of a derived component.
    fn append_derived(
        &self,
        name: &str,
        params: &Parameters,
        base: &mut String,
    ) -> Result<(), BaseErrorKind>
        ensures { AppendsValue (ValueGives true self.now name.now (pairs_tree params.now.entries))
            base.old base.new result }
    {
        let Some(part) = self.part(params) else {
            return Err(BaseErrorKind::Absent);
        };
        let Some(text) = part.derived_text(name, params) else {
            return Err(BaseErrorKind::Absent);
        };
        base.push_str(text)?;
        Ok(())
    }
}

impl Components for HttpMessage<'_> {
    ghost gives = { HttpGives };

    fn append_value(
        &self,
        alloc: Global,
        name: &str,
        params: &Parameters,
        base: &mut String,
    ) -> Result<(), BaseErrorKind> {
        if let Some(kind) = fault_of(name, params) {
            return Err(kind);
        }
        if is_derived(name) {
            return self.append_derived(name, params, base);
        }
        append_field(alloc, self.types, name, params, self.section(params), base)
    }
}
