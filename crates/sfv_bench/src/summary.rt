//! A visitor that digests a field.

ghost use Rattle.std.specs.Prelude.{⊤};

use crate::digest::Digest;
use sfv::visitor::{Event, Visitor};
use std::convert::Infallible;

/// A visitor that returns a digest of the keys and values of a field.
#[derive(Drop)]
pub struct Summary {
    digest: Digest,
}

impl Summary {
    /// Creates the visitor.
    pub fn new() -> Summary {
        Summary {
            digest: Digest::new(),
        }
    }
}

impl<'de> Visitor<'de> for Summary {
    type Out = u64;

    type Error = Infallible;

    ghost takes = { λ _ _ _. ⊤ };

    ghost fails = { λ _ _ _. ⊥ };

    ghost finishes = { λ _ _. ⊤ };

    ghost finish_fails = { λ _ _. ⊥ };

    fn event(&mut self, event: Event<'de>) -> Result<(), Infallible> {
        match event {
            Event::KeyedEntry(key) => self.digest.bytes(key.as_str().as_bytes()),
            Event::BareItem(value) => self.digest.value(value.as_ref_item()),
            Event::Parameter(key, value) => {
                self.digest.bytes(key.as_str().as_bytes());
                self.digest.value(value.as_ref_item());
            }
            Event::InnerList => self.digest.number(1),
            _ => {}
        }
        Ok(())
    }

    fn finish(self) -> Result<u64, Infallible> {
        Ok(self.digest.finish())
    }
}
