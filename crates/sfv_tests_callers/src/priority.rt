//! The Priority field, with and without a tree, and its text.

use crate::common::is_tight;
use sfv::{Dictionary, Parser, Version};
use sfv_tool_lib::answer::answer_priority;
use sfv_tool_lib::priority::{Priority, priority_from_dictionary, read_priority, write_priority};
use std::alloc::Global;

/// Returns `true` if the input is a dictionary with this priority.
fn is_in_dictionary(alloc: Global, input: &str, priority: Priority) -> bool {
    match Parser::new(input.as_bytes()).parse::<Dictionary>(alloc) {
        Ok(dictionary) => priority_from_dictionary(&dictionary) == priority,
        Err(_) => false,
    }
}

/// Returns `true` if the priority is appended as this text, which may be empty.
fn is_written(alloc: Global, priority: Priority, line: &str) -> bool {
    let Ok(mut text) = String::from_str(alloc, "P: ") else {
        return false;
    };
    let stands = write_priority(&mut text, priority);
    stands == Ok(!line.is_empty()) && text.as_str().strip_prefix("P: ") == Some(line)
}

/// Returns `true` if the input has this urgency and flag, with and without a tree, and is written as this text.
pub fn is_read_and_written(alloc: Global, input: &str, wanted: (u8, bool), line: &str) -> bool {
    match read_priority(alloc, input.as_bytes(), Version::Rfc9651) {
        Ok(priority) => {
            (priority.urgency, priority.incremental) == wanted
                && is_in_dictionary(alloc, input, priority)
                && is_written(alloc, priority, line)
        }
        Err(_) => false,
    }
}

/// Returns `true` if the text parses to this urgency and flag under this version.
fn is_read(alloc: Global, version: Version, text: &str, wanted: (u8, bool)) -> bool {
    match read_priority(alloc, text.as_bytes(), version) {
        Ok(priority) => (priority.urgency, priority.incremental) == wanted,
        Err(_) => false,
    }
}

/// Returns `true` if the program returns the text and a newline for it.
fn is_answered(alloc: Global, version: Version, text: &str) -> bool {
    match answer_priority(alloc, version, text.as_bytes()) {
        Ok(line) => line.as_str().strip_suffix('\n') == Some(text),
        Err(_) => false,
    }
}

/// Returns `true` if the priority is written as this text, which keeps little unused memory. The text parses to the
/// priority, and the program returns it, under both versions.
pub fn is_written_and_read(alloc: Global, urgency: u8, incremental: bool, wanted: &str) -> bool {
    if urgency > 7 {
        return false;
    }
    let mut text = String::new(alloc);
    let is_any = write_priority(&mut text, Priority::new(urgency, incremental));
    (is_any == Ok(!wanted.is_empty()))
        & (text.as_str() == wanted)
        & is_tight(text.capacity(), text.len())
        & is_answered(alloc, Version::Rfc8941, wanted)
        & is_answered(alloc, Version::Rfc9651, wanted)
        & is_read(alloc, Version::Rfc8941, wanted, (urgency, incremental))
        & is_read(alloc, Version::Rfc9651, wanted, (urgency, incremental))
}

#[test]
fn all_priorities_are_written_and_read(rt: HostRuntime) {
    let rows = &[
        (0, false, "u=0"),
        (1, false, "u=1"),
        (2, false, "u=2"),
        (3, false, ""),
        (4, false, "u=4"),
        (5, false, "u=5"),
        (6, false, "u=6"),
        (7, false, "u=7"),
        (0, true, "u=0, i"),
        (1, true, "u=1, i"),
        (2, true, "u=2, i"),
        (3, true, "i"),
        (4, true, "u=4, i"),
        (5, true, "u=5, i"),
        (6, true, "u=6, i"),
        (7, true, "u=7, i"),
    ];
    for &(urgency, incremental, text) in rows {
        assert!(rt; is_written_and_read(rt.alloc(), urgency, incremental, text));
    }
}

#[test]
fn priorities_are_read_and_written(rt: HostRuntime) {
    let rows = &[
        ("u=1, i", (1, true), "u=1, i"),
        ("i, u=3", (3, true), "i"),
        ("u=5;x=1, foo=(a b), i=?0", (5, false), "u=5"),
        ("u=-0", (0, false), "u=0"),
        ("", (3, false), ""),
        ("u=8, i=1", (3, false), ""),
        ("u=2.0", (3, false), ""),
        ("u=(1)", (3, false), ""),
        ("u", (3, false), ""),
        ("u=1, u=9", (3, false), ""),
        ("u=1, x=@5", (1, false), "u=1"),
        ("u=1, x=%\"a\"", (1, false), "u=1"),
        ("u=1, x=\"\\\\\", y=:aGk=:", (1, false), "u=1"),
    ];
    for &(input, wanted, line) in rows {
        assert!(rt;
            is_read_and_written(rt.alloc(), input, wanted, line),
            "{input}"
        );
    }
    assert!(rt; Priority::new(3, false) == Priority::default());
}
