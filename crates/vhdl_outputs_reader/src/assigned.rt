//! The values of outputs that were read so far, with the count of their look-ups.

ghost use Rattle.std.specs.Prelude.{◌≡◌, ◌+◌, ◌<◌, ◌^◌, if◌then◌else◌};
ghost use Rattle.vhdl_grammar.specs.VhdlOutputs.{is_lookup};

use grammar_reader::{Read, Stop};
use sqlite_items::Items;
use std::alloc::Global;
use std::marker::Model;
use vhdl_grammar::Assigned;

/// Values in the order of their text. Contracts see the list of them.
#[derive(Drop)]
pub struct Values {
    values: Items<Assigned>,
    count: usize,
}

impl Model for Values {
    ghost use Rattle.std.specs.Prelude.{◌≡◌, List};
    ghost use Rattle.vhdl_grammar.specs.declared.scope.Assigned.{Assigned};
    ghost use Rattle.vhdl_grammar.specs.VhdlOutputs.{lookups};

    ghost Value = { List Assigned };

    ghost view = { λ v. v.values };

    ghost invariant = { λ v. v.count ≡ lookups v.values };
}

/// How many look-ups there are with one more value.
fn lookups_with(lookups: usize, value: &Assigned) -> usize
    requires { lookups < 2 ^ 63 }
    ensures { result ≡ (if is_lookup value.now then lookups + 1 else lookups) }
{
    match value {
        Assigned::Constant(_) => lookups,
        Assigned::Lookup(_) => lookups + 1,
    }
}

impl Values {
    ghost use Rattle.std.specs.Prelude.{◌≡◌, [], ◌∷◌, ◌++◌, ◌<◌, ◌^◌, length, IfErr, OnOk};
    ghost use Rattle.vhdl_grammar.specs.VhdlOutputs.{lookups};

    /// No values. Takes no memory.
    pub fn new(alloc: Global) -> Values
        ensures { result ≡ [] }
    {
        Values {
            values: Items::new(alloc),
            count: 0,
        }
    }

    /// How many values there are.
    pub fn len(&self) -> usize
        ensures count { result ≡ length self.now }
        ensures few { result < 2 ^ 63 }
    {
        self.values.as_slice().len()
    }

    /// How many tables of outputs these values look up.
    pub fn lookups(&self) -> usize
        ensures { result ≡ lookups self.now }
    {
        self.count
    }

    /// Puts one more value behind these.
    #[tactic(auto, using(crate::proofs::ValueCounts::lookups_few))]
    pub fn add(&mut self, value: Assigned) -> Read<()>
        ensures added { OnOk result (self.new ≡ self.old ++ value ∷ []) }
        ensures memory { IfErr result (λ stop. stop ≡ Stop.Memory) }
    {
        let _bound = self.values.as_slice().len();
        let count = lookups_with(self.count, &value);
        self.values.push(value)?;
        self.count = count;
        Ok(())
    }

    /// The list of these values, alone.
    pub fn into_items(self) -> Items<Assigned>
        ensures { result ≡ self }
    {
        self.values
    }
}
