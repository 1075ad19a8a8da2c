//! Things that are found by their names, where there are more than a few in the time of one look-up.

ghost use Rattle.std.specs.Prelude.{◌≡◌, bytes_eq, position, IfOk, IfErr};
ghost use Rattle.verilog_grammar.specs.VerilogModules.{port_name};
ghost use Rattle.first_names.specs.Places.{FindsFirst};
ghost use Rattle.verilog_reader.specs.NameSearch.{udp_name, own_name};
ghost use Rattle.verilog_reader.specs.Netlist.{MayFind};

use crate::nets::FEW;
use bool_functions::Names;
use first_names::FirstNames;
use grammar_reader::{Read, Stop};
use sqlite_items::{Boxed, Items};
use std::alloc::{AllocError, Global};
use udp_tables::{Udp, VPort};

/// A thing with a name.
pub trait Named {
    ghost use Rattle.std.specs.Prelude.{ℕ, List};

    ghost name_of: { Self → List ℕ };

    /// The name.
    fn name(&self) -> &[u8]
        ensures { result.now ≡ name_of self.now };
}

impl Named for Udp {
    ghost name_of = { udp_name };

    fn name(&self) -> &[u8] {
        self.name.as_slice()
    }
}

impl Named for VPort {
    ghost name_of = { port_name };

    fn name(&self) -> &[u8] {
        self.name.as_slice()
    }
}

impl Named for Items<u8> {
    ghost name_of = { own_name };

    fn name(&self) -> &[u8] {
        self.as_slice()
    }
}

/// The names of these things.
fn all_names<T: Named>(alloc: Global, things: &[T]) -> Result<FirstNames, AllocError>
    ensures { IfOk result (λ found. FindsFirst T.name_of found things.now) }
{
    let mut found = FirstNames {
        names: Names::new(alloc),
        places: Items::new(alloc),
    };
    for (number, thing) in things.iter().enumerate() {
        found.add(thing.name(), number)?;
    }
    Ok(found)
}

/// The names of these things, where there are more than a few.
pub fn many_names<T: Named>(alloc: Global, things: &[T]) -> Read<Option<Boxed<FirstNames>>>
    ensures first { IfOk result (λ found. MayFind T.name_of found things.now) }
    ensures memory { IfErr result (λ stop. stop ≡ Stop.Memory) }
{
    if things.len() <= FEW {
        return Ok(None);
    }
    let names = all_names(alloc, things)?;
    Ok(Some(Boxed::new(alloc, names)?))
}

/// The number of the first of these things with a name, looked for one after another.
fn place_among<T: Named>(things: &[T], name: &[u8]) -> Option<usize>
    ensures { result ≡ position (λ x. bytes_eq name.now (T.name_of x)) things.now }
{
    things.iter().position(|thing| name == thing.name())
}

/// The number of the first of these things with a name, where these are their names, if there are more than a few.
#[tactic(auto, using(crate::proofs::NameSearch::may_find))]
pub fn place_of<T: Named>(
    kept: &Option<Boxed<FirstNames>>,
    things: &[T],
    name: &[u8],
) -> Option<usize>
    requires { MayFind T.name_of kept.now things.now }
    ensures { result ≡ position (λ x. bytes_eq name.now (T.name_of x)) things.now }
{
    match kept {
        Some(found) => found.get().place(name),
        None => place_among(things, name),
    }
}
