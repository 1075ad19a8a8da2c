//! Things of a text, with the names that are declared.

ghost use Rattle.std.specs.Prelude.{◌≡◌, ◌∷◌, ◌++◌, [], false, IfErr, OnOk};
ghost use Rattle.udp_tables.specs.VerilogRules.{is_among};

use crate::text_names::TextNames;
use grammar_reader::{Read, Stop};
use sqlite_items::Items;

/// Things in the order of their text, and the names that are declared so far, as they stand in the text.
#[derive(Drop)]
pub struct NamedItems<'a, T> {
    /// The things.
    pub items: Items<T>,
    /// The names.
    pub names: TextNames<'a>,
}

impl<'a, T: Drop> NamedItems<'a, T> {
    /// Puts one more thing behind these, of which this is the name, which is none of theirs.
    pub fn add(&mut self, item: T, name: &'a [u8]) -> Read<()>
        requires { is_among self.old.names name.now ≡ false }
        ensures items { OnOk result (self.new.items ≡ self.old.items ++ item ∷ []) }
        ensures names { OnOk result (self.new.names ≡ self.old.names ++ name.now ∷ []) }
        ensures memory { IfErr result (λ stop. stop ≡ Stop.Memory) }
    {
        self.items.push(item)?;
        self.names.add(name)
    }
}
