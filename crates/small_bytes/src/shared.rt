//! Bytes that several texts share.

ghost use Rattle.std.specs.Prelude.{◌≡◌, [], IfOk};

use std::alloc::{AllocError, Global};
use std::marker::Model;
use std::rc::Rc;

/// Some bytes that texts may be parts of, held as long as one of these is. Contracts see the list of them.
#[derive(Drop)]
pub struct SharedBytes {
    bytes: Rc<Vec<u8>, Global>,
}

impl Model for SharedBytes {
    ghost use Rattle.std.specs.Prelude.{List, ℕ};

    ghost Value = { List ℕ };

    ghost view = { λ s. s.bytes.value.items };
}

impl SharedBytes {
    /// These bytes. An `Err` comes only where memory is wanting.
    pub fn new(alloc: Global, bytes: Vec<u8>) -> Result<SharedBytes, AllocError>
        ensures { IfOk result (λ shared. shared ≡ bytes.items) }
    {
        Ok(SharedBytes {
            bytes: Rc::new(alloc, bytes)?,
        })
    }

    /// The same bytes for one more text. An `Err` comes only where no more can be counted.
    pub(crate) fn again(&self) -> Result<SharedBytes, AllocError>
        ensures { IfOk result (λ other. other ≡ self.now) }
    {
        Ok(SharedBytes {
            bytes: self.bytes.clone()?,
        })
    }

    /// The bytes.
    #[inline(always)]
    pub fn as_slice(&self) -> &[u8]
        ensures { result.now ≡ self.now }
    {
        self.bytes.as_ref().as_slice()
    }

    /// An empty list, with the memory that the bytes stood in where no text is a part of them.
    pub fn into_room(self, alloc: Global) -> Vec<u8>
        ensures { result.items ≡ [] }
    {
        let SharedBytes { bytes } = self;
        match Rc::into_inner(bytes) {
            Some(mut bytes) => {
                bytes.clear();
                bytes
            }
            None => Vec::new(alloc),
        }
    }
}
