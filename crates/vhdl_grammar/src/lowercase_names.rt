//! Names in lower case, each of which is found at once.

use bool_functions::Names;
use grammar_reader::{Read, Stop};
use std::alloc::{AllocError, Global};
use std::marker::Model;

/// Names in lower case, since a name is the same whatever the case of its letters (IEEE 1076-1993, 13.3.1). Contracts see the
/// list of them.
#[derive(Drop)]
pub struct LowercaseNames {
    names: Names,
    alloc: Global,
}

impl Model for LowercaseNames {
    ghost use Rattle.std.specs.Prelude.{ℕ, List};

    ghost Value = { List (List ℕ) };

    ghost view = { λ n. n.names };
}

impl LowercaseNames {
    ghost use Rattle.std.specs.Prelude.{◌≡◌, [], IfOk, IfErr};
    ghost use Rattle.vhdl_tokens.specs.Kept.{lowered};
    ghost use Rattle.bool_functions.specs.NameList.{number_of, Adds};

    /// No names. Takes no memory.
    pub fn new(alloc: Global) -> LowercaseNames
        ensures { result ≡ [] }
    {
        LowercaseNames {
            names: Names::new(alloc),
            alloc,
        }
    }

    /// The number of a name, from 0, if it is one of these, in the time of one look-up. An `Err` comes only where memory is
    /// wanting.
    pub fn number(&self, name: &[u8]) -> Result<Option<usize>, AllocError>
        ensures { IfOk result (λ found. found ≡ number_of self.now (lowered name.now)) }
    {
        let name = name.to_ascii_lowercase(self.alloc)?;
        Ok(self.names.number(&name))
    }

    /// Puts a name behind these, unless it is one of them: its number, where it is new.
    pub fn add(&mut self, name: &[u8]) -> Read<Option<usize>>
        ensures added { IfOk result (λ number. Adds self.old (lowered name.now) number self.new) }
        ensures memory { IfErr result (λ stop. stop ≡ Stop.Memory) }
    {
        let name = name.to_ascii_lowercase(self.alloc)?;
        let number = self.names.add(&name)?;
        Ok(number)
    }
}
