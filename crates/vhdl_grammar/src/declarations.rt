//! The declarations of an entity and of its architecture, with ports that are found by their names.

use crate::ports::Ports;
use crate::scope::{Scope, Tables, Variables};
use sqlite_items::Items;
use std::alloc::Global;
use std::marker::Model;

/// The declarations of an entity and of its architecture. Contracts see them as a `Scope`.
#[derive(Drop)]
pub struct Declarations {
    name: Items<u8>,
    ports: Ports,
    tables: Tables,
    variables: Variables,
}

impl Model for Declarations {
    ghost use Rattle.vhdl_grammar.specs.declared.scope.Scope.{Scope};

    ghost Value = { Scope };

    ghost view = { λ d. record { name = d.name; ports = d.ports; tables = d.tables; variables = d.variables } };
}

impl Declarations {
    ghost use Rattle.std.specs.Prelude.{◌≡◌};

    /// The declarations of these parts.
    pub fn new(name: Items<u8>, ports: Ports, tables: Tables, variables: Variables) -> Declarations
        ensures { result ≡ record { name = name; ports = ports; tables = tables; variables = variables } }
    {
        Declarations {
            name,
            ports,
            tables,
            variables,
        }
    }

    /// Where what is read over these declarations is kept.
    pub fn alloc(&self) -> Global {
        self.ports.alloc()
    }

    /// The ports.
    pub fn ports(&self) -> &Ports
        ensures { result.now ≡ self.now.ports }
    {
        &self.ports
    }

    /// The tables.
    pub fn tables(&self) -> &Tables
        ensures { result.now ≡ self.now.tables }
    {
        &self.tables
    }

    /// The variables.
    pub fn variables(&self) -> &Variables
        ensures { result.now ≡ self.now.variables }
    {
        &self.variables
    }

    /// These declarations without what finds ports.
    pub fn into_scope(self) -> Scope
        ensures { result ≡ self }
    {
        let Declarations {
            name,
            ports,
            tables,
            variables,
        } = self;
        Scope {
            name,
            ports: ports.into_items(),
            tables,
            variables,
        }
    }
}
