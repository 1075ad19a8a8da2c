//! The bytes written to one slot of a desk over memory.

ghost use Rattle.std.specs.Prelude.{◌≡◌, ◌-◌, ◌≤◌, [], ◌++◌, length, min, take, vec_capacity, IfOk};

use std::alloc::{AllocError, Global};

/// The bytes that were written to a slot, with room for so many.
#[derive(Drop)]
pub(crate) struct Sink {
    pub(crate) bytes: Vec<u8>,
    pub(crate) room: usize,
    ghost reserved: { room ≤ vec_capacity bytes },
}

impl Sink {
    /// An empty sink, with memory for `room` bytes.
    pub(crate) fn new(alloc: Global, room: usize) -> Result<Sink, AllocError>
        ensures bytes { IfOk result (λ sink. sink.bytes.items ≡ []) }
        ensures room { IfOk result (λ sink. sink.room ≡ room) }
    {
        let bytes = Vec::with_capacity(alloc, room)?;
        Ok(Sink { bytes, room })
    }

    /// How many bytes there is room for.
    pub(crate) fn space(&self) -> usize
        ensures { result ≡ self.now.room - length self.now.bytes.items }
    {
        self.room.saturating_sub(self.bytes.len())
    }

    /// Appends the bytes that there is room for, and answers how many.
    pub(crate) fn append(&mut self, bytes: &[u8]) -> usize
        ensures count { result ≡ min (length bytes.now) (self.old.room - length self.old.bytes.items) }
        ensures bytes { self.new.bytes.items ≡ self.old.bytes.items ++ take result bytes.now }
        ensures room { self.new.room ≡ self.old.room }
    {
        let count = bytes.len().min(self.space());
        self.bytes.extend_from_slice(&bytes[..count]).unwrap();
        count
    }

    /// Lets all bytes go, and keeps the room.
    pub(crate) fn clear(&mut self)
        ensures bytes { self.new.bytes.items ≡ [] }
        ensures room { self.new.room ≡ self.old.room }
    {
        self.bytes.clear();
    }
}
