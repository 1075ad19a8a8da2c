//! The nets that an instance is connected to, by recursive descent. (IEEE 1364-2005, 8.6.)

ghost use Rattle.std.specs.Prelude.{◌≡◌, ◌∷◌, [], Some, IfOk, IfErr};
ghost use Rattle.verilog_grammar.specs.VerilogModules as spec;
ghost use Rattle.grammar_reader.specs.Next.{next_bytes};
ghost use Rattle.grammar_reader.specs.Reading.{read, Reads};
ghost use Rattle.verilog_reader.specs.Terminals.{AreNamed};

use crate::netlist::Netlist;
use crate::terminals::{input_count, may_drive, may_feed, net_of};
use grammar_reader::{Read, Refusal, Stop, where_read};
use sqlite_items::Items;
use std::alloc::Global;
use verilog_grammar::modules::VNet;
use verilog_tokens::is_name;
use verilog_udp_reader::{Cursor, NamedItems, NamedPart, TextNames, add_listed};

/// The nets that feed an instance so far, and the names of the net that it drives and of these, as they stand in the text.
type Terminals<'a> = NamedItems<'a, VNet>;

/// The net that an instance drives.
#[tactic(auto, unfolding(verilog_grammar::specs::VerilogModules::driven_terminal), using(crate::proofs::NamedNets::other, crate::proofs::NamedNets::no_net, crate::proofs::NamedNets::barred, crate::proofs::NamedNets::taken, crate::proofs::NamedNets::fits))]
pub fn driven_terminal(cursor: &mut Cursor, model: &Netlist, sequential: bool) -> Read<VNet>
    ensures reads { Reads (read (spec.driven_terminal model.now sequential) cursor.old) result cursor.new }
    ensures named { IfOk result (λ net. spec.net_of model.now (next_bytes cursor.old) ≡ Some net) }
{
    if !is_name(cursor.bytes()) {
        return Err(Stop::Refused(Refusal::Syntax));
    }
    let Some(net) = net_of(model, cursor.bytes()) else {
        return Err(Stop::Refused(Refusal::Undefined));
    };
    if !may_drive(model, sequential, net) {
        return Err(Stop::Refused(Refusal::Undefined));
    }
    if model.is_driven(net) {
        return Err(Stop::Refused(Refusal::Twice));
    }
    cursor.skip();
    Ok(net)
}

/// No net that feeds an instance, where its output has this name.
#[inline(always)]
fn no_terminals<'a>(alloc: Global, output: &'a [u8]) -> Read<Terminals<'a>>
    ensures none { IfOk result (λ found. found.items ≡ []) }
    ensures named { IfOk result (λ found. found.names ≡ output.now ∷ []) }
    ensures memory { IfErr result (λ stop. stop ≡ Stop.Memory) }
{
    let mut names = TextNames::new(alloc);
    names.add(output)?;
    Ok(NamedItems {
        items: Items::new(alloc),
        names,
    })
}

/// The instance whose inputs are read: whether it has a state, and the net that it drives.
#[derive(Clone, Copy)]
pub struct FedInstance<'m> {
    pub model: &'m Netlist,
    pub sequential: bool,
    pub output: VNet,
}

impl FedInstance<'_> {
    ghost use Rattle.std.specs.Prelude.{◌≡◌, ◌∷◌, [], false, Some, IfOk};
    ghost use Rattle.udp_tables.specs.VerilogRules.{is_among};
    ghost use Rattle.verilog_grammar.specs.VerilogModules as spec;
    ghost use Rattle.grammar_reader.specs.Next.{next_bytes};
    ghost use Rattle.grammar_reader.specs.Reading.{read, Reads, ReadsAs};
    ghost use Rattle.verilog_grammar.specs.specify_blocks.declared.model.Instance.TheVariants as instance;
    ghost use Rattle.verilog_reader.specs.Calls.{call_inputs};
    ghost use Rattle.verilog_reader.specs.Terminals.{AreNamed};

    /// A net that feeds the instance, which has these inputs already.
    #[tactic(auto, unfolding(verilog_grammar::specs::VerilogModules::feeding_terminal), using(crate::proofs::NamedNets::other, crate::proofs::NamedNets::no_net, crate::proofs::NamedNets::barred))]
    fn feeding_terminal(&self, cursor: &mut Cursor, before: &Terminals<'_>) -> Read<VNet>
        requires { AreNamed self.now.model.now before.now.names (self.now.output ∷ before.now.items) }
        ensures reads { Reads (read (spec.feeding_terminal self.now.model.now self.now.sequential
            (self.now.output ∷ before.now.items)) cursor.old) result cursor.new }
        ensures named { IfOk result (λ net. spec.net_of self.now.model.now (next_bytes cursor.old) ≡ Some net) }
        ensures fresh { IfOk result (λ _. is_among before.now.names (next_bytes cursor.old) ≡ false) }
    {
        let token = cursor.bytes();
        if !is_name(token) {
            return Err(Stop::Refused(Refusal::Syntax));
        }
        let Some(net) = net_of(self.model, token) else {
            return Err(Stop::Refused(Refusal::Undefined));
        };
        if !may_feed(self.model, self.sequential, net) {
            return Err(Stop::Refused(Refusal::Undefined));
        }
        if before.names.has(token) {
            return Err(Stop::Refused(Refusal::Twice));
        }
        cursor.skip();
        Ok(net)
    }

    /// Adds all inputs of an instance of the primitive with this number to none, and reads its end.
    #[tactic(auto, unfolding(verilog_grammar::specs::VerilogModules::more_inputs, crate::specs::Calls::call_inputs))]
    fn add_inputs<'a>(
        &self,
        cursor: &mut Cursor<'a>,
        udp: usize,
        found: &mut Terminals<'a>,
    ) -> Read<()>
        requires none { found.old.items ≡ [] }
        requires named { AreNamed self.now.model.now found.old.names (self.now.output ∷ []) }
        ensures { ReadsAs (λ _. spec.with_instance self.now.model.now (instance.Primitive udp self.now.output found.new.items))
            (read (call_inputs self.now.model.now self.now.sequential udp self.now.output) cursor.old) result cursor.new }
    {
        self.add(cursor, found)?;
        add_listed(cursor, self, found)?;
        let whole = found.items.len() == input_count(self.model.module().udps.as_slice(), udp);
        cursor.expect_where(whole, Refusal::Width, b")")?;
        cursor.expect(b";")
    }

    /// All inputs of an instance of the primitive with this number, behind its output, which has this name, and its end. Their
    /// names are not moved while they are found.
    pub fn all_inputs<'a>(
        &self,
        cursor: &mut Cursor<'a>,
        alloc: Global,
        name: &'a [u8],
        udp: usize,
    ) -> Read<Items<VNet>>
        requires named { spec.net_of self.now.model.now name.now ≡ Some self.now.output }
        ensures { ReadsAs (λ nets. spec.with_instance self.now.model.now (instance.Primitive udp self.now.output nets))
            (read (call_inputs self.now.model.now self.now.sequential udp self.now.output) cursor.old) result cursor.new }
    {
        let mut found = no_terminals(alloc, name)?;
        let rest = self.add_inputs(cursor, udp, &mut found);
        let NamedItems { items: nets, .. } = found;
        let nets = where_read(nets, rest)?;
        Ok(nets)
    }
}

impl NamedPart for FedInstance<'_> {
    type Item = VNet;

    ghost are_named = { λ fed names nets. AreNamed fed.model.now names (fed.output ∷ nets) };

    ghost reading = { λ fed nets s. read (spec.next_input fed.model.now fed.sequential fed.output nets) s };

    #[tactic(auto, unfolding(verilog_grammar::specs::VerilogModules::next_input), using(crate::proofs::SameTerminals::named_more))]
    fn add<'a>(&self, cursor: &mut Cursor<'a>, found: &mut Terminals<'a>) -> Read<()> {
        let token = cursor.bytes();
        let net = self.feeding_terminal(cursor, found)?;
        found.add(net, token)
    }
}
