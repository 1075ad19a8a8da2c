//! Which nets of a module are driven, each told by one look-up.

ghost use Rattle.std.specs.Prelude.{◌≡◌, List, [], false, replicate, slice_set, true, IfOk, IfErr};
ghost use Rattle.udp_tables.specs.declared.table.Udp.{Udp};
ghost use Rattle.verilog_grammar.specs.specify_blocks.declared.model.Instance.{Instance};
ghost use Rattle.verilog_reader.specs.DrivenNets.{AreDriven};

use crate::all_made::{AllMade, all_made};
use crate::nets::{FEW, has_state};
use grammar_reader::{Read, Stop};
use sqlite_items::Items;
use std::alloc::Global;
use verilog_grammar::modules::{VModule, VNet};

/// Sets a mark, where there is one.
#[tactic(auto, using(crate::proofs::DrivenNets::set_behind))]
fn mark(marks: &mut Items<bool>, at: usize)
    ensures { marks.new ≡ slice_set marks.old at true }
{
    if at < marks.len() {
        marks.set(at, true);
    }
}

/// Which nets the instances of a module drive: a mark for each port, one for each wire that is driven as a state, and one for
/// each wire that is driven without a state. Nothing is told of a net without a mark.
#[derive(Drop)]
pub struct DrivenNets {
    pub ports: Items<bool>,
    pub states: Items<bool>,
    pub values: Items<bool>,
}

/// So many marks that are not set.
fn unset(alloc: Global, count: usize) -> Read<Items<bool>>
    ensures unset { IfOk result (λ marks. marks ≡ replicate count false) }
    ensures memory { IfErr result (λ stop. stop ≡ Stop.Memory) }
{
    let marks = vec![in alloc; false; count]?;
    Ok(Items::from_vec(marks))
}

impl DrivenNets {
    ghost use Rattle.std.specs.Prelude.{◌≡◌, if◌then◌else◌, slice_get};
    ghost use Rattle.verilog_reader.specs.DrivenNets.{driven_by};

    /// The mark of a wire that an instance with a state, or one without, drives.
    pub fn mark_of(&self, stateful: bool, wire: usize) -> Option<bool>
        ensures { result ≡ slice_get (if stateful then self.now.states else self.now.values) wire }
    {
        if stateful {
            self.states.get(wire).copied()
        } else {
            self.values.get(wire).copied()
        }
    }

    /// Marks the net that an instance with a state, or one without, drives.
    pub fn drive(&mut self, has_state: bool, net: VNet)
        ensures { self.new ≡ driven_by self.old has_state net }
    {
        match net {
            VNet::Port(port) => mark(&mut self.ports, port),
            VNet::Wire(wire) if has_state => mark(&mut self.states, wire),
            VNet::Wire(wire) => mark(&mut self.values, wire),
            VNet::Notifier => {}
        }
    }
}

/// No marks. Takes no memory.
#[tactic(auto, using(crate::proofs::DrivenNets::no_marks))]
fn no_marks(alloc: Global) -> DrivenNets
    ensures { (udps : List Udp) (instances : List Instance) → AreDriven result udps instances }
{
    DrivenNets {
        ports: Items::new(alloc),
        states: Items::new(alloc),
        values: Items::new(alloc),
    }
}

/// Marks for so many ports and wires, of which none is driven.
#[tactic(auto, using(crate::proofs::DrivenNets::none_driven))]
fn undriven(alloc: Global, ports: usize, wires: usize) -> Read<DrivenNets>
    ensures undriven { IfOk result (λ driven. (udps : List Udp) → AreDriven driven udps []) }
    ensures memory { IfErr result (λ stop. stop ≡ Stop.Memory) }
{
    let ports = unset(alloc, ports);
    let AllMade {
        first: ports,
        second: states,
        third: values,
    } = all_made(ports, unset(alloc, wires), unset(alloc, wires))?;
    Ok(DrivenNets {
        ports,
        states,
        values,
    })
}

/// The nets that the instances of a module drive. Where it has few nets there are no marks, which takes no memory.
pub fn driven_nets(alloc: Global, model: &VModule) -> Read<DrivenNets>
    ensures driven { IfOk result (λ driven. AreDriven driven model.now.udps model.now.instances) }
    ensures memory { IfErr result (λ stop. stop ≡ Stop.Memory) }
{
    if model.ports.len() <= FEW && model.wires.len() <= FEW {
        return Ok(no_marks(alloc));
    }
    let mut driven = undriven(alloc, model.ports.len(), model.wires.len())?;
    for instance in model.instances.as_slice() {
        driven.drive(
            has_state(model.udps.as_slice(), instance),
            instance.net_driven(),
        );
    }
    Ok(driven)
}
