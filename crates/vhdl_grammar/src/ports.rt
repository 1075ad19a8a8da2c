//! The ports of an entity, with a list that finds a name at once.

ghost use Rattle.std.specs.Prelude.{◌≡◌, [], ◌∷◌, ◌++◌, if◌then◌else◌, true, false, drop, IfOk, IfErr, Ok};
ghost use Rattle.vhdl_tokens.specs.Tokens.{is_name};
ghost use Rattle.vhdl_grammar.specs.VhdlRules.{is_among};
ghost use Rattle.vhdl_grammar.specs.VhdlDeclarations.{port_names};
ghost use Rattle.vhdl_grammar.specs.VhdlNames as names;
ghost use Rattle.vhdl_grammar.specs.Lowered.{all_lowered};

use crate::language::Vhdl;
use crate::listed::{NEAR, near};
use crate::lowercase_names::LowercaseNames;
use grammar_reader::{Language, Read, Stop};
use sqlite_items::Items;
use std::alloc::{AllocError, Global};
use std::marker::Model;
use udp_tables::VPort;

/// Ports in the order of their text. Contracts see the list of them. The first of them are compared one by one, which takes no
/// memory; the names of those behind them stand in lower case in a list that finds each at once, since a name is the same whatever
/// the case of its letters (IEEE 1076-1993, 13.3.1). Beside them stand the numbers of the outputs.
#[derive(Drop)]
pub struct Ports {
    alloc: Global,
    ports: Items<VPort>,
    far: LowercaseNames,
    outputs: Items<usize>,
}

impl Model for Ports {
    ghost use Rattle.std.specs.Prelude.{List};
    ghost use Rattle.udp_tables.specs.declared.models.VPort.{VPort};
    ghost use Rattle.vhdl_grammar.specs.Lowered as lowered;

    ghost Value = { List VPort };

    ghost view = { λ p. p.ports };

    ghost invariant = { λ p. lowered.AreKeptOf p.ports p.far p.outputs };
}

/// The numbers of outputs, and the number of a port behind them where it is an output. An `Err` comes only where memory is
/// wanting.
fn outputs_with(
    mut outputs: Items<usize>,
    number: usize,
    input: bool,
) -> Result<Items<usize>, AllocError>
    ensures { IfOk result (λ more. more ≡ (if input then outputs else outputs ++ number ∷ [])) }
{
    if !input {
        outputs.push(number)?;
    }
    Ok(outputs)
}

/// The names of the ports that are not compared one by one, where one more port comes behind these.
fn far_with(mut far: LowercaseNames, ports: &[VPort], port: &VPort) -> Read<LowercaseNames>
    requires kept { far ≡ all_lowered (port_names (drop 16 ports.now)) }
    requires named { is_name port.now.name ≡ true }
    requires fresh { is_among (port_names ports.now) port.now.name ≡ false }
    ensures added { IfOk result (λ more. more ≡ all_lowered (port_names (drop 16 (ports.now ++ port.now ∷ [])))) }
    ensures memory { IfErr result (λ stop. stop ≡ Stop.Memory) }
{
    if ports.len() < NEAR {
        return Ok(far);
    }
    far.add(port.name.as_slice())?;
    Ok(far)
}

/// These ports, and one more behind them. An `Err` comes only where memory is wanting.
fn ports_with(mut ports: Items<VPort>, port: VPort) -> Result<Items<VPort>, AllocError>
    ensures { IfOk result (λ more. more ≡ ports ++ port ∷ []) }
{
    ports.push(port)?;
    Ok(ports)
}

/// What is kept of ports.
struct Kept<P, F, O> {
    ports: P,
    far: F,
    outputs: O,
}

/// What is kept of ports, where all of it was made.
fn all_kept<P: Drop, F: Drop, O: Drop>(
    ports: Result<P, AllocError>,
    far: Read<F>,
    outputs: Result<O, AllocError>,
) -> Read<Kept<P, F, O>>
    ensures made { IfOk result (λ kept. (ports ≡ Ok kept.ports) × ((far ≡ Ok kept.far) × (outputs ≡ Ok kept.outputs))) }
    ensures memory { IfErr far (λ stop. stop ≡ Stop.Memory) → IfErr result (λ stop. stop ≡ Stop.Memory) }
{
    Ok(Kept {
        ports: ports?,
        far: far?,
        outputs: outputs?,
    })
}

/// The number of the port with this name, looked for one after another.
fn number_among(ports: &[VPort], name: &[u8]) -> Option<usize>
    ensures { result ≡ names.port_of ports.now name.now }
{
    ports
        .iter()
        .position(|port| Vhdl::is_same(name, port.name.as_slice()))
}

impl Ports {
    ghost use Rattle.std.specs.Prelude.{◌≡◌, [], ◌∷◌, ◌++◌, true, false, take, None, IfOk, IfErr};
    ghost use Rattle.udp_tables.specs.declared.models.VPort.{VPort};
    ghost use Rattle.vital_tables.specs.Sound.{output_ports_from};
    ghost use Rattle.vhdl_tokens.specs.Tokens.{is_name};
    ghost use Rattle.vhdl_grammar.specs.VhdlRules.{is_among};
    ghost use Rattle.vhdl_grammar.specs.VhdlDeclarations.{port_names};
    ghost use Rattle.vhdl_grammar.specs.VhdlNames.{port_of};

    /// No ports. Takes no memory.
    pub fn new(alloc: Global) -> Ports
        ensures { result ≡ [] }
    {
        Ports {
            alloc,
            ports: Items::new(alloc),
            far: LowercaseNames::new(alloc),
            outputs: Items::new(alloc),
        }
    }

    /// Where these ports are kept.
    pub fn alloc(&self) -> Global {
        self.alloc
    }

    /// The list of these ports.
    pub fn as_slice(&self) -> &[VPort]
        ensures { result.now ≡ self.now }
    {
        self.ports.as_slice()
    }

    /// The numbers of the outputs, in order.
    pub fn outputs(&self) -> &[usize]
        ensures { result.now ≡ output_ports_from 0 self.now }
    {
        self.outputs.as_slice()
    }

    /// The number of the port with this name, in the time of one look-up. What is found of a token that is no name means nothing.
    /// An `Err` comes only where memory is wanting.
    pub fn number(&self, name: &[u8]) -> Result<Option<usize>, AllocError>
        ensures { is_name name.now ≡ true → IfOk result (λ found. found ≡ port_of self.now name.now) }
    {
        match number_among(near(self.ports.as_slice()), name) {
            Some(number) => Ok(Some(number)),
            None => self.far_number(name),
        }
    }

    /// The same, where the first ports do not have the name.
    fn far_number(&self, name: &[u8]) -> Result<Option<usize>, AllocError>
        requires { port_of (take 16 self.now) name.now ≡ None }
        ensures { is_name name.now ≡ true → IfOk result (λ found. found ≡ port_of self.now name.now) }
    {
        if self.ports.len() <= NEAR {
            return Ok(None);
        }
        let found = self.far.number(name)?;
        match found {
            Some(number) => Ok(Some(NEAR + number)),
            None => Ok(None),
        }
    }

    /// Whether a name is that of one of these ports. An `Err` comes only where memory is wanting.
    pub fn has(&self, name: &[u8]) -> Result<bool, AllocError>
        requires { is_name name.now ≡ true }
        ensures { IfOk result (λ taken. taken ≡ is_among (port_names self.now) name.now) }
    {
        let found = self.number(name)?;
        Ok(found.is_some())
    }

    /// These ports, and one more behind them, whose name is none of theirs.
    #[tactic(auto, using(crate::proofs::LoweredNames::outputs_added))]
    pub fn with(self, port: VPort) -> Result<Ports, Stop>
        requires named { is_name port.name ≡ true }
        requires fresh { is_among (port_names self) port.name ≡ false }
        ensures added { IfOk result (λ more. more ≡ self ++ port ∷ []) }
        ensures memory { IfErr result (λ stop. stop ≡ Stop.Memory) }
    {
        let Ports {
            alloc,
            ports,
            far,
            outputs,
        } = self;
        let far = far_with(far, ports.as_slice(), &port);
        let outputs = outputs_with(outputs, ports.len(), port.input);
        let Kept {
            ports,
            far,
            outputs,
        } = all_kept(ports_with(ports, port), far, outputs)?;
        Ok(Ports {
            alloc,
            ports,
            far,
            outputs,
        })
    }

    /// The list of these ports, alone.
    pub fn into_items(self) -> Items<VPort>
        ensures { result ≡ self }
    {
        let Ports { ports, .. } = self;
        ports
    }
}
