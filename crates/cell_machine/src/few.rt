//! Short lists that take no memory.
ghost use Rattle.std.specs.Prelude.{◌≡◌, ◌+◌, ◌<◌, ◌≤◌, [], ◌∷◌, ◌++◌, length};

use std::marker::Model;

/// At most `N` entries in their order. Contracts see the list of them.
#[derive(Drop)]
pub struct Few<T, const N: usize> {
    len: usize,
    entries: [T; N],
}

impl<T, const N: usize> Model for Few<T, N> {
    ghost use Rattle.std.specs.Prelude.{◌≡◌, ◌≤◌, List, length, take};
    ghost use Rattle.std.specs.Coded.{coded_list};

    ghost Value = { List T };

    ghost coded = { coded_list T.code };

    ghost view = { λ s. take s.len s.entries };

    ghost invariant = { λ s. (s.len ≤ N) × (length s.entries ≡ N) };
}

impl<T: Copy, const N: usize> Few<T, N> {
    /// No entries. `blank` lies where entries may come to stand.
    pub fn new(blank: T) -> Few<T, N>
        ensures { result ≡ [] }
    {
        Few {
            len: 0,
            entries: [blank; N],
        }
    }

    /// Adds an entry at the end.
    pub fn push(&mut self, entry: T)
        requires { length self.old < N }
        ensures { self.new ≡ self.old ++ entry ∷ [] }
    {
        self.entries[self.len] = entry;
        self.len += 1;
    }

    /// Adds these entries at the end.
    pub fn append(&mut self, entries: &[T])
        requires { length self.old + length entries.now ≤ N }
        ensures { self.new ≡ self.old ++ entries.now }
    {
        let start = self.len;
        let end = start + entries.len();
        let all = &mut self.entries[..];
        all[start..end].copy_from_slice(entries);
        self.len = end;
    }

    /// Takes all entries away.
    pub fn clear(&mut self)
        ensures { self.new ≡ [] }
    {
        self.len = 0;
    }

    /// The entries in order.
    pub fn as_slice(&self) -> &[T]
        ensures { result.now ≡ self.now }
    {
        &self.entries[..self.len]
    }
}
