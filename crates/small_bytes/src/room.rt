//! Room for so many bytes.

ghost use Rattle.std.specs.Prelude.{◌≡◌, ◌<◌, ◌≤◌, length};

use std::marker::Model;

/// At most `N` bytes, beside their number. Contracts see the list of the bytes.
#[derive(Drop)]
pub(crate) struct Room<const N: usize> {
    len: u8,
    bytes: [u8; N],
}

impl<const N: usize> Model for Room<N> {
    ghost use Rattle.std.specs.Prelude.{List, ℕ, take, ◌≤◌};

    ghost Value = { List ℕ };

    ghost view = { λ r. take r.len r.bytes };

    ghost invariant = { λ r. r.len ≤ N };
}

impl<const N: usize> Room<N> {
    /// A copy of some bytes.
    #[inline(always)]
    pub(crate) fn filled(bytes: &[u8]) -> Room<N>
        requires fits { length bytes.now ≤ N }
        requires few { N < 256 }
        ensures { result ≡ bytes.now }
    {
        let mut room = [0; N];
        room[..bytes.len()].copy_from_slice(bytes);
        Room {
            len: bytes.len() as u8,
            bytes: room,
        }
    }

    /// The bytes.
    #[inline(always)]
    pub(crate) fn as_slice(&self) -> &[u8]
        ensures { result.now ≡ self.now }
    {
        &self.bytes[..usize::from(self.len)]
    }
}
