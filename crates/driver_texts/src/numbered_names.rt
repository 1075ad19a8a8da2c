//! Names that are a word and a number.
ghost use Rattle.std.specs.Prelude.{◌++◌};
ghost use Rattle.std.specs.List.{flat_map};
ghost use Rattle.driver_models.specs.Terminals.{all_numbered};
ghost use Rattle.driver_texts.specs.NumberedNames.{listed_names_text};

use text_io::{Bytes, Decimal, Desk, Line, OutSlot, Part, Put, parts};

/// The names of a word and the numbers from 1 up to a count, each between these bytes.
#[derive(Drop)]
pub struct NumberedNames<'a> {
    pub before: &'a [u8],
    pub word: &'a [u8],
    pub count: usize,
    pub behind: &'a [u8],
}

impl Part for NumberedNames<'_> {
    ghost text = { λ n. flat_map (λ name. n.before.now ++ (name ++ n.behind.now)) (all_numbered n.word.now n.count) };

    fn put<D: Desk>(&self, line: &mut Line, desk: &mut D, slot: OutSlot) -> Put {
        for index in 0..self.count {
            let name = parts!(Bytes(self.word), Decimal(index as u128 + 1));
            parts!(Bytes(self.before), name, Bytes(self.behind)).put(line, desk, slot)?;
        }
        Ok(())
    }
}

/// The names of a word and the numbers from 1 up to a count, in a list of names.
#[derive(Drop)]
pub struct ListedNames<'a> {
    pub word: &'a [u8],
    pub count: usize,
}

impl Part for ListedNames<'_> {
    ghost text = { λ l. listed_names_text l.word.now l.count };

    fn put<D: Desk>(&self, line: &mut Line, desk: &mut D, slot: OutSlot) -> Put {
        if self.count == 0 {
            return line.put(desk, slot, b"");
        }
        let others = NumberedNames {
            before: b"",
            word: self.word,
            count: self.count - 1,
            behind: b", ",
        };
        parts!(others, Bytes(self.word), Decimal(self.count as u128)).put(line, desk, slot)
    }
}

/// The names of so many wires to inputs of buffers, then those of as many to enables: words and the numbers from 1 on, each
/// between these bytes.
#[derive(Drop)]
pub struct WireNames<'a> {
    pub before: &'a [u8],
    pub value: &'a [u8],
    pub enable: &'a [u8],
    pub count: usize,
    pub behind: &'a [u8],
}

impl Part for WireNames<'_> {
    ghost text = { λ w.
        flat_map (λ name. w.before.now ++ (name ++ w.behind.now)) (all_numbered w.value.now w.count)
        ++ flat_map (λ name. w.before.now ++ (name ++ w.behind.now)) (all_numbered w.enable.now w.count) };

    fn put<D: Desk>(&self, line: &mut Line, desk: &mut D, slot: OutSlot) -> Put {
        let values = NumberedNames {
            before: self.before,
            word: self.value,
            count: self.count,
            behind: self.behind,
        };
        let enables = NumberedNames {
            before: self.before,
            word: self.enable,
            count: self.count,
            behind: self.behind,
        };
        parts!(values, enables).put(line, desk, slot)
    }
}
