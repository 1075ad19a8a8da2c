//! What drives a net without a state, with what is known of it before any values.
ghost use Rattle.std.specs.Prelude.{◌≡◌, ◌≤◌, false, List, length, IsTrue};
ghost use Rattle.trit_cubes.specs.declared.trits.Trit.{Trit as TritOf};
ghost use Rattle.udp_tables.specs.Primitive.{IsCombinational, level_output};
ghost use Rattle.specify_blocks.specs.{Nets.has_state, Sound.IsSound};
ghost use Rattle.module_terminals.specs.Terminals.{StandsIn, nets_feeding, drives_value};
ghost use Rattle.module_tables.specs.{Tables.arranged, Tables.value_by, Tables.driven_value, LookUps.level_at};

use crate::keyed_rows::KeyedRows;
use crate::model_tables::{order_of, values_numbered};
use crate::net_levels::NetLevels;
use cell_machine::Few;
use module_terminals::terminals::driving;
use specify_blocks::{Instance, VModule, VNet};
use trit_cubes::Trit;
use udp_tables::Udp;

impl<'a> NetLevels<'a> {
    /// A net that always has this value.
    fn alone(value: Trit) -> NetLevels<'a>
        ensures { (values : List TritOf) → level_at result values ≡ value }
    {
        NetLevels {
            order: Few::new(0),
            rows: None,
            alone: value,
        }
    }

    /// What a primitive without a state drives that these inputs feed, where the values of these nets are given.
    fn of_primitive(udp: &'a Udp, nets: &[VNet], inputs: &[VNet]) -> NetLevels<'a>
        requires table { IsCombinational udp.now }
        requires each { length inputs.now ≡ length udp.now.inputs }
        requires few { length inputs.now ≤ 10 }
        ensures { (values : List TritOf) → length values ≤ 10
            → level_at result values ≡ level_output udp.now.rows (arranged nets.now values inputs.now) }
    {
        NetLevels {
            order: order_of(nets, inputs),
            rows: Some(KeyedRows::of(udp)),
            alone: Trit::Unknown,
        }
    }

    /// What an instance without a state drives, where the values of these nets are given.
    fn of_instance(model: &'a VModule, nets: &[VNet], instance: &'a Instance) -> NetLevels<'a>
        requires sound { IsSound model.now }
        requires stands { StandsIn model.now instance.now }
        requires few { length (nets_feeding instance.now) ≤ 10 }
        requires stateless { has_state model.now.udps instance.now ≡ false }
        ensures { (values : List TritOf) → length values ≤ 10
            → level_at result values ≡ value_by model.now nets.now values instance.now }
    {
        match instance {
            Instance::Primitive { udp, inputs, .. } => match model.udps.as_slice().get(*udp) {
                Some(udp) => NetLevels::of_primitive(udp, nets, inputs.as_slice()),
                None => NetLevels::alone(Trit::Unknown),
            },
            Instance::Constant { one, .. } => NetLevels::alone(Trit::from(*one)),
        }
    }

    /// A net that an instance without a state drives, where the values of these nets are given.
    pub(crate) fn of(model: &'a VModule, nets: &[VNet], net: VNet) -> NetLevels<'a>
        requires sound { IsSound model.now }
        requires few { length nets.now ≤ 10 }
        requires driven { IsTrue (drives_value model.now nets.now net) }
        ensures { (values : List TritOf) → length values ≤ 10
            → level_at result values ≡ driven_value model.now nets.now values net }
    {
        match driving(model, net) {
            Some(instance) => NetLevels::of_instance(model, nets, instance),
            None => NetLevels::alone(Trit::Unknown),
        }
    }

    /// Its value where the nets have these values.
    pub(crate) fn value(&self, values: &[Trit]) -> Trit
        ensures { result ≡ level_at self.now values.now }
    {
        let Some(rows) = &self.rows else {
            return self.alone;
        };
        let inputs = values_numbered(values, self.order.as_slice());
        rows.level(inputs.as_slice())
    }
}
