//! The entities of a text that were read so far, with a list that finds a name at once.

ghost use Rattle.std.specs.Prelude.{◌≡◌, [], ◌∷◌, ◌++◌, IfOk, IfErr};
ghost use Rattle.vhdl_declarations_reader.specs.vhdl_grammar.VhdlText.{entity_names};
ghost use Rattle.vhdl_declarations_reader.specs.vhdl_grammar.Lowered.{HaveSame};

use grammar_reader::{Read, Stop, where_read};
use std::alloc::{AllocError, Global};
use std::marker::Model;
use vhdl_declarations_reader::entities::VEntity;
use vhdl_declarations_reader::grammar::LowercaseNames;

/// Entities in the order of their text. Contracts see the list of them. Beside them stand their names in lower case.
#[derive(Drop)]
pub struct Entities {
    entities: Vec<VEntity>,
    lowered: LowercaseNames,
}

impl Model for Entities {
    ghost use Rattle.std.specs.Prelude.{List};
    ghost use Rattle.vhdl_declarations_reader.specs.vital_tables.declared.model.VEntity.{VEntity};
    ghost use Rattle.vhdl_declarations_reader.specs.vhdl_grammar.VhdlText.{entity_names};
    ghost use Rattle.vhdl_declarations_reader.specs.vhdl_grammar.Lowered.{HaveSame};

    ghost Value = { List VEntity };

    ghost view = { λ e. e.entities.items };

    ghost invariant = { λ e. HaveSame e.lowered (entity_names e.entities.items) };
}

/// Puts an entity behind these, and its name in lower case behind these names.
fn add_entity(
    entities: &mut Vec<VEntity>,
    lowered: &mut LowercaseNames,
    entity: VEntity,
) -> Read<()>
    requires { HaveSame lowered.old (entity_names entities.old.items) }
    ensures added { IfOk result (λ _. entities.new.items ≡ entities.old.items ++ entity ∷ []) }
    ensures lowered { IfOk result (λ _. HaveSame lowered.new (entity_names entities.new.items)) }
    ensures memory { IfErr result (λ stop. stop ≡ Stop.Memory) }
{
    lowered.add(entity.name.as_slice())?;
    entities.push(entity)?;
    Ok(())
}

impl Entities {
    ghost use Rattle.std.specs.Prelude.{◌≡◌, [], ◌∷◌, ◌++◌, true, IfOk, IfErr};
    ghost use Rattle.vhdl_tokens.specs.Tokens.{is_name};
    ghost use Rattle.vhdl_declarations_reader.specs.vhdl_grammar.VhdlRules.{is_among};
    ghost use Rattle.vhdl_declarations_reader.specs.vhdl_grammar.VhdlText.{entity_names};

    /// No entities. Takes no memory.
    pub fn new(alloc: Global) -> Entities
        ensures { result ≡ [] }
    {
        Entities {
            entities: Vec::new(alloc),
            lowered: LowercaseNames::new(alloc),
        }
    }

    /// Whether a name is that of one of these entities, in the time of one look-up. An `Err` comes only where memory is wanting.
    pub fn has(&self, name: &[u8]) -> Result<bool, AllocError>
        requires { is_name name.now ≡ true }
        ensures { IfOk result (λ taken. taken ≡ is_among (entity_names self.now) name.now) }
    {
        let found = self.lowered.number(name)?;
        Ok(found.is_some())
    }

    /// These entities, and one more behind them.
    pub fn with(self, entity: VEntity) -> Read<Entities>
        ensures added { IfOk result (λ more. more ≡ self ++ entity ∷ []) }
        ensures memory { IfErr result (λ stop. stop ≡ Stop.Memory) }
    {
        let Entities {
            mut entities,
            mut lowered,
        } = self;
        let rest = add_entity(&mut entities, &mut lowered, entity);
        let (entities, lowered) = where_read((entities, lowered), rest)?;
        Ok(Entities { entities, lowered })
    }

    /// The list of these entities.
    pub fn into_vec(self) -> Vec<VEntity>
        ensures { result.items ≡ self }
    {
        self.entities
    }
}
