//! A module that finds each of its nets, and what drives it, in the time of one look-up.

use crate::all_made::{AllMade, all_made};
use crate::driven_nets::{DrivenNets, driven_nets};
use crate::name_search::{many_names, place_of};
use crate::nets::{has_state, is_driven_already, is_wire_driven_by};
use first_names::FirstNames;
use grammar_reader::{Read, Stop, with_read};
use sqlite_items::{Boxed, Items};
use std::alloc::Global;
use std::marker::Model;
use udp_tables::TimingCheck;
use verilog_grammar::modules::{Instance, VModule, VNet, VPath};

/// A module. Contracts see it alone. Beside it stand the names of its ports, where there are more than a few, those of its wires
/// likewise, and which nets are driven. The names are boxed, since few modules have them and each is moved from part to part.
#[derive(Drop)]
pub struct Netlist {
    model: VModule,
    ports: Option<Boxed<FirstNames>>,
    wires: Option<Boxed<FirstNames>>,
    driven: DrivenNets,
}

impl Model for Netlist {
    ghost use Rattle.verilog_grammar.specs.specify_blocks.declared.model.VModule.{VModule};
    ghost use Rattle.verilog_reader.specs.Netlist.{AreKeptOf};

    ghost Value = { VModule };

    ghost view = { λ n. n.model };

    ghost invariant = { λ n. AreKeptOf n.model n.ports n.wires n.driven };
}

impl Netlist {
    ghost use Rattle.std.specs.Prelude.{◌≡◌, IfErr, IfOk, OnOk};
    ghost use Rattle.std.specs.List.{list_any, position};
    ghost use Rattle.std.specs.Str.{bytes_eq};
    ghost use Rattle.verilog_grammar.specs.specify_blocks.declared.model.VNet.TheVariants as net;
    ghost use Rattle.verilog_grammar.specs.specify_blocks.Nets as nets;
    ghost use Rattle.verilog_grammar.specs.VerilogModules.{is_driven_already, with_instance};
    ghost use Rattle.verilog_grammar.specs.VerilogBlocks.{port_of, with_block};
    ghost use Rattle.verilog_reader.specs.DrivenNets.{drives_wire};

    /// A module, with what finds its nets.
    pub fn new(alloc: Global, model: VModule) -> Read<Netlist>
        ensures same { IfOk result (λ made. made ≡ model) }
        ensures memory { IfErr result (λ stop. stop ≡ Stop.Memory) }
    {
        let ports = many_names(alloc, model.ports.as_slice());
        let wires = many_names(alloc, model.wires.as_slice());
        let driven = driven_nets(alloc, &model);
        let (model, kept) = with_read(model, all_made(ports, wires, driven))?;
        let AllMade {
            first: ports,
            second: wires,
            third: driven,
        } = kept;
        Ok(Netlist {
            model,
            ports,
            wires,
            driven,
        })
    }

    /// The module.
    pub fn module(&self) -> &VModule
        ensures { result.now ≡ self.now }
    {
        &self.model
    }

    /// The module, alone.
    pub fn into_module(self) -> VModule
        ensures { result ≡ self }
    {
        self.model
    }

    /// The number of the port with this name.
    pub fn port_of(&self, name: &[u8]) -> Option<usize>
        ensures { result ≡ port_of self.now name.now }
    {
        place_of(&self.ports, self.model.ports.as_slice(), name)
    }

    /// The number of the wire with this name.
    pub fn wire_of(&self, name: &[u8]) -> Option<usize>
        ensures { result ≡ position (bytes_eq name.now) self.now.wires }
    {
        place_of(&self.wires, self.model.wires.as_slice(), name)
    }

    /// Whether an instance with a state, or one without, drives this wire.
    #[tactic(auto, using(crate::proofs::FoundNets::wire_told_of))]
    fn is_wire_driven_by(&self, stateful: bool, wire: usize) -> bool
        ensures { result ≡ list_any (drives_wire stateful self.now.udps wire) self.now.instances }
    {
        match self.driven.mark_of(stateful, wire) {
            Some(told) => told,
            None => is_wire_driven_by(&self.model, stateful, wire),
        }
    }

    /// Whether an instance with a state drives this wire.
    pub fn is_state(&self, wire: usize) -> bool
        ensures { result ≡ nets.is_state self.now self.now.instances wire }
    {
        self.is_wire_driven_by(true, wire)
    }

    /// Whether an instance without a state drives this wire.
    pub fn is_value(&self, wire: usize) -> bool
        ensures { result ≡ nets.is_value self.now self.now.instances wire }
    {
        self.is_wire_driven_by(false, wire)
    }

    /// Whether an instance drives this port.
    #[tactic(auto, using(crate::proofs::FoundNets::port_told))]
    fn is_port_driven(&self, port: usize) -> bool
        ensures { result ≡ is_driven_already self.now (net.Port port) }
    {
        match self.driven.ports.get(port) {
            Some(told) => *told,
            None => is_driven_already(&self.model, VNet::Port(port)),
        }
    }

    /// Whether an instance drives this wire.
    #[tactic(auto, using(crate::proofs::FoundNets::wire_first, crate::proofs::FoundNets::wire_second))]
    fn is_wire_driven(&self, wire: usize) -> bool
        ensures { result ≡ is_driven_already self.now (net.Wire wire) }
    {
        match (self.driven.states.get(wire), self.driven.values.get(wire)) {
            (Some(state), Some(value)) => *state || *value,
            _ => is_driven_already(&self.model, VNet::Wire(wire)),
        }
    }

    /// Whether an instance drives the net.
    pub fn is_driven(&self, net: VNet) -> bool
        ensures { result ≡ is_driven_already self.now net }
    {
        match net {
            VNet::Port(port) => self.is_port_driven(port),
            VNet::Wire(wire) => self.is_wire_driven(wire),
            VNet::Notifier => is_driven_already(&self.model, net),
        }
    }

    /// Puts an instance behind the others.
    pub fn join(&mut self, instance: Instance) -> Read<()>
        ensures joined { OnOk result (self.new ≡ with_instance self.old instance) }
        ensures memory { IfErr result (λ stop. stop ≡ Stop.Memory) }
    {
        let net = instance.net_driven();
        let stateful = has_state(self.model.udps.as_slice(), &instance);
        self.model.instances.push(instance)?;
        self.driven.drive(stateful, net);
        Ok(())
    }

    /// The module gets these paths and checks, those of its specify block.
    pub fn set_block(&mut self, paths: Items<VPath>, checks: Items<TimingCheck>)
        ensures { self.new ≡ with_block self.old paths checks }
    {
        self.model.paths = paths;
        self.model.checks = checks;
    }
}
