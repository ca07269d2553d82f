//! Parsing of byte sequences (RFC 9651, section 4.2.7).
//!
//! The symbols and the padding are checked before memory is allocated, once, for all bytes. So decoding tests no symbol.
//! The last symbols are decoded in a block of their own, which is filled up, because padding may be missing.

ghost use Rattle.std.specs.Prelude.{◌≡◌, ◌≢◌, ◌<◌, ◌++◌, [], length, IfOk, IfErr, IsOk, OnOk, OnErr};
ghost use Rattle.sfv_spec.specs.Texts.{RunOf};
ghost use Rattle.sfv_spec.proofs.Marks.{is_symbol};
ghost use Rattle.sfv_base.specs.Errors.{out_of_memory};
ghost use Rattle.sfv_model.specs.Content.{bytes_at};
ghost use Rattle.sfv.specs.parser.Cursor.{rest, ReadsOrOutOfMemory};
ghost use Rattle.sfv.specs.parser.Values.{vec_bytes};
ghost use Rattle.sfv.specs.parser.Base64.{decoded_symbols};

use crate::parser::base64_blocks::block_bytes;
use crate::parser::base64_symbols::{padding_after, padding_run, symbol_run};
use crate::parser::cursor::Cursor;
use sfv_base::error::{Error, ErrorKind};
use std::alloc::{AllocError, Global};

/// Appends the bytes of fewer than 16 symbols, and ignores spare bits. A single symbol has no byte.
fn append_last(symbols: &[u8], bytes: &mut Vec<u8>) -> Result<(), AllocError>
    requires symbols { RunOf is_symbol symbols.now }
    requires few { length symbols.now < 16 }
    ensures bytes { OnOk result (bytes.new.items ≡ bytes.old.items ++ decoded_symbols symbols.now) }
    ensures out_of_memory { OnErr result (symbols.now ≢ []) }
{
    if symbols.is_empty() {
        return Ok(());
    }
    // The symbol `A` has the value 0.
    let mut block = [b'A'; 16];
    block[..symbols.len()].copy_from_slice(symbols);
    bytes.extend_from_slice(&block_bytes(&block)[..symbols.len() * 3 / 4])?;
    Ok(())
}

/// Appends the bytes of symbols, and ignores the spare bits of the last one. Without a symbol, no memory is requested.
fn append_symbols(symbols: &[u8], bytes: &mut Vec<u8>) -> Result<(), AllocError>
    requires { RunOf is_symbol symbols.now }
    ensures bytes { OnOk result (bytes.new.items ≡ bytes.old.items ++ decoded_symbols symbols.now) }
    ensures out_of_memory { OnErr result (symbols.now ≢ []) }
{
    let mut rest = symbols;
    while let Some((block, after)) = rest.split_first_chunk::<16>() {
        bytes.extend_from_slice(&block_bytes(block)[..12])?;
        rest = after;
    }
    append_last(rest, bytes)
}

/// Decodes symbols, and ignores the spare bits of the last one. Without a symbol, no memory is requested.
fn decode_symbols(alloc: Global, symbols: &[u8]) -> Result<Vec<u8>, AllocError>
    requires { RunOf is_symbol symbols.now }
    ensures bytes { IfOk result (λ bytes. bytes.items ≡ decoded_symbols symbols.now) }
    ensures out_of_memory { OnErr result (symbols.now ≢ []) }
{
    let len = symbols.len() / 4 * 3 + symbols.len() % 4 * 3 / 4;
    let mut bytes = Vec::with_capacity(alloc, len)?;
    append_symbols(symbols, &mut bytes)?;
    Ok(bytes)
}

impl Cursor<'_> {
    /// Parses a byte sequence after its opening colon, with the closing colon. Allocates only if the content is well
    /// formed.
    pub(super) fn byte_sequence(&mut self) -> Result<Vec<u8>, Error>
        ensures read { ReadsOrOutOfMemory vec_bytes self.old self.new result bytes_at }
        ensures out_of_memory { IfErr result (λ e. e ≡ out_of_memory → IsOk (bytes_at (rest self.old))) }
    {
        let content = &self.parser.input[self.index..];
        let count = symbol_run(content);
        let end = count + padding_run(&content[count..], padding_after(count));
        if end == content.len() || content[end] != b':' {
            // If a colon follows later, it closes the content, and the content is malformed here.
            return Err(if content[end..].contains(&b':') {
                Error::at(ErrorKind::InvalidByteSequence, self.index + end)
            } else {
                Error::at(ErrorKind::UnterminatedByteSequence, self.parser.input.len())
            });
        }
        // A single symbol has six bits, fewer than a byte.
        if count % 4 == 1 {
            return Err(Error::at(ErrorKind::InvalidByteSequence, self.index + end - 1));
        }
        // The symbols are checked before memory is allocated. `base64` would test each again.
        let bytes = decode_symbols(self.alloc, &content[..count])?;
        self.index += end + 1;
        Ok(bytes)
    }
}
