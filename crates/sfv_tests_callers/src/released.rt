//! Memory that the calls release which write, or read the head of a request. Each is made often.

use crate::content_digest::come_back;
use crate::priority::{is_read_and_written, is_written_and_read};
use crate::proxy_status::comes_back;
use crate::requests::{has_fault, has_priority, is_field};
use crate::tool::{fails, writes};
use crate::uses::{are_repeated, hold, is_written, two};
use sfv::{Dictionary, ErrorKind, Parser, StringFromInput, key_ref, string_ref, token_ref};
use sfv_examples::lookups::{remove_member, replace_member};
use sfv_http_fields::proxy_status::reading::Name;
use sfv_random::leaks::{Repeated, keeps_memory};
use std::alloc::Global;
use std::test::Fail;

/// A call, or a few calls that belong together.
#[derive(Clone, Copy, Drop)]
enum Call {
    /// The priority of a request.
    Request(&'static [u8], (u8, bool)),
    /// The error of a request's field.
    WrongRequest(&'static [u8], ErrorKind, usize),
    /// The lines `a` of a request with four lines are joined to this text.
    Lines(&'static str, &'static str),
    /// Digests of these lengths are written, and parse back.
    Digests(Option<usize>, Option<usize>),
    /// Members of Proxy-Status are written, and parse back.
    Proxies,
    /// A priority is parsed, with and without a tree, and written.
    Priority(&'static str, (u8, bool), &'static str),
    /// A priority is written, and parses back.
    Urgency(u8, bool, &'static str),
    /// The program writes this output for these arguments and this input.
    Output(&'static str, &'static str, &'static str),
    /// The program writes this error.
    Error(&'static str, &'static str, &'static str),
    /// Both values are written and copied.
    Values(&'static str, &'static str),
    /// A string and a token of this text are written and copied.
    Text(&'static str),
    /// So many calls are performed, and parse back.
    Script(usize),
    /// A member of this dictionary is replaced, and another one is removed.
    Changed(&'static str),
}

/// Replaces the member `a` of a dictionary by the item 2, and removes the member `b`.
fn is_changed(alloc: Global, input: &[u8]) -> bool {
    let Ok(mut members) = Parser::new(input).parse::<Dictionary>(alloc) else {
        return false;
    };
    replace_member(&mut members, key_ref("a"), two(alloc))
        & remove_member(&mut members, key_ref("b")).is_some()
}

/// Writes members of Proxy-Status, one with a string that is escaped.
fn are_proxies(alloc: Global) -> bool {
    let string = Name::String(StringFromInput::Borrowed(string_ref("a \"b\"")));
    let token = Name::Token(token_ref("c"));
    comes_back(alloc, &string, "a \"b\"", 200) & comes_back(alloc, &token, "c", 404)
}

impl Repeated for Call {
    fn repeat(&self, alloc: Global) -> bool {
        match *self {
            Call::Request(head, wanted) => has_priority(alloc, head, wanted),
            Call::WrongRequest(head, kind, index) => has_fault(alloc, head, kind, index),
            Call::Lines(head, text) => is_field(alloc, "a", head, 4, text),
            Call::Digests(first, second) => come_back(alloc, first, second) == Ok(true),
            Call::Proxies => are_proxies(alloc),
            Call::Priority(input, wanted, line) => is_read_and_written(alloc, input, wanted, line),
            Call::Urgency(urgency, flag, line) => is_written_and_read(alloc, urgency, flag, line),
            Call::Output(args, input, output) => writes(alloc, args, input, output),
            Call::Error(args, input, error) => fails(alloc, args, input, error),
            Call::Values(first, second) => hold(alloc, first, second, key_ref("k")) == Some(true),
            Call::Text(text) => is_written(alloc, text) == Some(true),
            Call::Script(count) => are_repeated(alloc, count),
            Call::Changed(input) => is_changed(alloc, input.as_bytes()),
        }
    }
}

/// The calls, with their arguments and results.
#[rattlefmt::skip]
const CALLS: &[Call] = &[
    Call::Request(b"GET / HTTP/1.1\r\npriority: u=1;k=\"\\\\\"\r\nPRIORITY: i, k=:aGk=:\r\n\r\n", (1, true)),
    Call::Request(b"GET / HTTP/1.1\r\nhost: a\r\n\r\n", (3, false)),
    Call::WrongRequest(b"GET / HTTP/1.1\r\npriority: u=:aGk=:\r\npriority: k=\"\\\\\",\r\n\r\n", ErrorKind::TrailingComma, 16),
    Call::WrongRequest(b"GET / HTTP/1.1\r\npriority: U\r\n\r\n", ErrorKind::ExpectedStartOfKey, 0),
    Call::Lines("GET / HTTP/1.1\r\nb: 1\r\n\r\n", ""),
    Call::Lines("GET / HTTP/1.1\r\na: 1\r\n\r\n", "1"),
    Call::Lines("GET / HTTP/1.1\r\na: some text\r\nb: 1\r\nA:\r\na: 2\r\n\r\n", "some text, , 2"),
    Call::Digests(None, Some(64)),
    Call::Digests(Some(32), None),
    Call::Digests(Some(32), Some(64)),
    Call::Digests(Some(0), Some(400)),
    Call::Proxies,
    Call::Priority("u=:aGk=:, i, u=7;k=\"\\\\\"", (7, true), "u=7, i"),
    Call::Urgency(3, false, ""),
    Call::Urgency(0, true, "u=0, i"),
    Call::Output("item 9651", "\"\\\\\";k=:aGk=:\n", "\"\\\\\";k=:aGk=:\n"),
    Call::Output("list 9651 8941", "\"\\\\\", (:aGk=:;k 2);k=\"\\\\\"", "\"\\\\\", (:aGk=:;k 2);k=\"\\\\\"\n"),
    Call::Output("dict 9651", "a=:aGk=:, b=\"\\\\\";k, a=(\"\\\\\")", "a=(\"\\\\\"), b=\"\\\\\";k\n"),
    Call::Output("priority 9651", "u=1, i=:aGk=:, i\n", "u=1, i\n"),
    Call::Error("dict 9651 8941", "a=\"\\\\\", b=@2;k=:aGk=:\n", "error: RFC 8941 does not support dates\n"),
    Call::Error("list 9651", "\"\\\\\", :aGk=:,\n", "error: trailing comma at index 12\n"),
    Call::Error("priority 9651", "u=\"\\\\\", i,\n", "error: trailing comma at index 9\n"),
    Call::Values("\"a\\\"\";k=:AAEC:", ":AAEC:"),
    Call::Values(":AAEC:", "\"a\\\"\""),
    Call::Values("%\"%c3%bc\"", "@1"),
    Call::Values("1;a;b;c;d;e;f;g;h;i;j;k;l;m;n;o;p;q=\"\\\\\";r", "1"),
    Call::Text("abcdefghijklmnopqrstuvwxyzabcdefghijklmnopqrstuvwxyzabcdefghijklmnopqr"),
    Call::Script(0),
    Call::Script(100),
    Call::Changed("a=1, b=2"),
    Call::Changed("b=:aGk=:;k=\"\\\\\", a=\"\\\\\";k=:aGk=:"),
    Call::Changed("a=(\"\\\\\" :aGk=:;k);k=:aGk=:, b=(\"\\\\\" :aGk=:;k);k=:aGk=:, c"),
];

#[test]
fn calls_lose_no_memory(rt: HostRuntime) -> Result<(), Fail> {
    let mut holds = true;
    for call in CALLS {
        holds &= keeps_memory(&rt, call)?;
    }
    assert!(rt; holds);
    Ok(())
}
