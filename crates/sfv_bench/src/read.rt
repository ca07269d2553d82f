//! Parses fields without a tree.

use crate::digest::Digest;
use crate::fields::Field;
use crate::summary::Summary;
use crate::templates::Shape;
use httparse::Status;
use httparse::spans::{EMPTY_HEADER_SPAN, HeaderSpan};
use sfv::{BareItemFromInput, Error, Parser, Version};
use sfv_first_field::cdn_cache_control::max_age;
use sfv_http_fields::cache_status::last_hit;
use sfv_http_fields::priority::{Priority, read_priority};
use sfv_http_fields::proxy_status::reading::last_proxy;
use sfv_http_fields::request::request_priority;
use std::alloc::Global;

const ROOM: [HeaderSpan; 16] = [EMPTY_HEADER_SPAN; 16];

fn add_priority(digest: &mut Digest, priority: Priority) {
    digest.number(u64::from(priority.urgency));
    digest.number(u64::from(priority.incremental));
}

// Adds the priority of a request.
fn read_head(alloc: Global, head: &[u8], digest: &mut Digest) {
    let mut headers = ROOM;
    match request_priority(alloc, Version::Rfc9651, head, &mut headers) {
        Ok(Status::Complete(priority)) => add_priority(digest, priority),
        Ok(Status::Partial) => digest.number(8),
        Err(_) => digest.number(9),
    }
}

// Adds the intermediary of a Proxy-Status field.
fn read_proxy(alloc: Global, text: &[u8], digest: &mut Digest) -> Result<(), Error> {
    if let Some(proxy) = last_proxy(alloc, text, Version::Rfc9651)? {
        digest.number(u64::from(proxy.received_status.unwrap_or(0)));
        if let Some(error) = proxy.error {
            digest.bytes(error.as_str().as_bytes());
        }
    }
    Ok(())
}

// Adds the last hit of a Cache-Status field.
fn read_hit(alloc: Global, text: &[u8], digest: &mut Digest) -> Result<(), Error> {
    if let Some(hit) = last_hit(alloc, text, Version::Rfc9651)? {
        if let Some(ttl) = hit.ttl {
            digest.integer(ttl);
        }
    }
    Ok(())
}

/// Parses a field with its reader, or with a visitor.
pub fn read(alloc: Global, shape: Shape, field: &Field, digest: &mut Digest) -> Result<(), Error> {
    let text = field.text.as_slice();
    match shape {
        Shape::Item => match Parser::new(text).parse_item::<BareItemFromInput>(alloc) {
            Ok(value) => digest.value(value.as_ref_item()),
            Err(_) => digest.number(9),
        },
        Shape::List => match Parser::new(text).parse_list_with_visitor(alloc, Summary::new()) {
            Ok(summary) => digest.number(summary),
            Err(_) => digest.number(9),
        },
        Shape::Dictionary => {
            match Parser::new(text).parse_dictionary_with_visitor(alloc, Summary::new()) {
                Ok(summary) => digest.number(summary),
                Err(_) => digest.number(9),
            }
        }
        Shape::CacheStatus => read_hit(alloc, text, digest)?,
        Shape::ProxyStatus => read_proxy(alloc, text, digest)?,
        Shape::Priority => add_priority(digest, read_priority(alloc, text, Version::Rfc9651)?),
        Shape::CdnCacheControl => {
            if let Some(seconds) = max_age(alloc, text, Version::Rfc9651)? {
                digest.integer(seconds);
            }
        }
        Shape::Head => read_head(alloc, text, digest),
    }
    Ok(())
}
