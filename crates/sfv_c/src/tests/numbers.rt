//! The number of the interface, and the messages of kinds.

use crate::tests::common::{GUARD_BYTE, holds_text, is_error, is_size, is_untouched};
use crate::{sfv_c_abi, sfv_c_message};

#[test]
fn the_interface_has_a_number(rt: HostRuntime) {
    assert!(rt; sfv_c_abi() == 1);
}

/// Writes the message into a buffer of each size up to its length. Returns `true` if only the last suffices.
fn is_length_exact(kind: u32, length: usize) -> bool {
    let mut holds = true;
    for size in 0..=length {
        let mut out = [GUARD_BYTE; 64];
        let Some(place) = out.get_mut(..size) else {
            return false;
        };
        let answer = sfv_c_message(kind, place);
        holds &= is_size(answer, if size == length { 0 } else { 2 }, length, 0);
        holds &= is_untouched(out.get(length..).unwrap_or(&[]));
        holds &= (size == length) != is_untouched(&out);
    }
    holds
}

#[test]
fn each_kind_has_a_message(rt: HostRuntime) {
    let mut holds = true;
    for kind in 1..=30 {
        let mut out = [GUARD_BYTE; 64];
        let answer = sfv_c_message(kind, &mut out);
        holds &= answer.status == 0 && answer.length < 64 && is_length_exact(kind, answer.length);
    }
    assert!(rt; holds);
}

#[test]
fn messages_have_a_text(rt: HostRuntime) {
    let mut holds = true;
    for (kind, text) in [(1, "out of memory"), (6, "trailing comma")] {
        let mut out = [GUARD_BYTE; 64];
        holds &= sfv_c_message(kind, &mut out).status == 0 && holds_text(&out, text.as_bytes());
    }
    for kind in [0, 31, 287, u32::MAX] {
        let mut out = [GUARD_BYTE; 64];
        holds &= is_error(sfv_c_message(kind, &mut out), 5, 0, 0) && is_untouched(&out);
    }
    assert!(rt; holds);
}
