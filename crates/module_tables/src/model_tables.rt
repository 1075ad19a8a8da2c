//! What the tables of a module with a state give.
ghost use Rattle.std.specs.Prelude.{◌≡◌, ◌+◌, ◌≤◌, ◌++◌, true, false, List, map, length, position};
ghost use Rattle.trit_cubes.specs.declared.trits.Trit.{Trit};
ghost use Rattle.cell_machine.specs.Inputs.{numbered_value};
ghost use Rattle.specify_blocks.specs.{Nets.same_net, Sound.IsSound};
ghost use Rattle.row_selection.specs.NextStates.{next_states};
ghost use Rattle.module_terminals.specs.Terminals.{StandsIn, nets_feeding};
ghost use Rattle.module_tables.specs.ChangeInputs.{input_count};
ghost use Rattle.module_tables.specs.Tables.{next_by};
ghost use Rattle.module_tables.specs.LookUps.{place_among, order_of, GivesNext, looked_up, IgnoresNet};

use crate::net_rows::NetRows;
use cell_machine::{Few, numbered_value};
use module_terminals::terminals::nets_feeding;
use row_selection::{ChangeRows, NextStates};
use specify_blocks::{Instance, VModule, VNet};
use trit_cubes::Trit;

/// The place of a net among others, where it is one of them.
fn place_of(nets: &[VNet], net: VNet) -> Option<usize>
    ensures { result ≡ position (same_net net) nets.now }
{
    nets.iter().position(|other| net.is_same(*other))
}

/// The place of a net among others, 10 where it is none of them.
fn place_among(nets: &[VNet], net: VNet) -> usize
    ensures { result ≡ place_among nets.now net }
{
    place_of(nets, net).unwrap_or(10)
}

/// Adds where the inputs of an instance stand among these nets.
fn add_places(order: &mut Few<usize, 10>, nets: &[VNet], inputs: &[VNet])
    requires { length order.old + length inputs.now ≤ 10 }
    ensures { order.new ≡ order.old ++ order_of nets.now inputs.now }
{
    let Some((first, rest)) = inputs.split_first() else {
        return;
    };
    order.push(place_among(nets, *first));
    add_places(order, nets, rest);
}

/// Where the inputs of an instance stand among these nets; 10 where one is none of them.
pub(crate) fn order_of(nets: &[VNet], inputs: &[VNet]) -> Few<usize, 10>
    requires { length inputs.now ≤ 10 }
    ensures { result ≡ order_of nets.now inputs.now }
{
    let mut order = Few::new(0);
    add_places(&mut order, nets, inputs);
    order
}

/// The values with these numbers, unknown where there is none.
pub(crate) fn values_numbered(values: &[Trit], order: &[usize]) -> Few<Trit, 10>
    requires { length order.now ≤ 10 }
    ensures { result ≡ map (numbered_value values.now) order.now }
{
    let mut all = Few::new(Trit::Unknown);
    for number in order {
        all.push(numbered_value(values, *number));
    }
    all
}

/// The rows of an instance's primitive that may match at a change of one net from one value. None where the instance has no
/// primitive or the net is none of its inputs, so that the state stays.
fn rows_at<'a>(
    model: &'a VModule,
    instance: &'a Instance,
    changed: VNet,
    old: Trit,
) -> Option<ChangeRows<'a>>
    requires sound { IsSound model.now }
    requires stands { StandsIn model.now instance.now }
    requires few { length (nets_feeding instance.now) ≤ 10 }
    ensures gives { GivesNext model.now changed old instance.now result }
    ensures counted { input_count (length (nets_feeding instance.now)) result ≡ length (nets_feeding instance.now) }
{
    let Instance::Primitive { udp, inputs, .. } = instance else {
        return None;
    };
    let Some(udp) = model.udps.as_slice().get(*udp) else {
        return None;
    };
    let Some(place) = place_of(inputs.as_slice(), changed) else {
        return None;
    };
    Some(ChangeRows::of(udp, place, old))
}

impl<'a> NetRows<'a> {
    /// Where there is no instance.
    pub(crate) fn none() -> NetRows<'a>
        ensures { (values : List Trit) (s : Trit) → looked_up result values s ≡ s }
    {
        NetRows {
            order: Few::new(0),
            rows: None,
        }
    }

    /// The instance at changes of one net from one value, where the values of these nets are given.
    #[tactic(auto, using(crate::proofs::NetOrder::in_order))]
    pub(crate) fn of(
        model: &'a VModule,
        instance: &'a Instance,
        nets: &[VNet],
        changed: VNet,
        old: Trit,
    ) -> NetRows<'a>
        requires sound { IsSound model.now }
        requires stands { StandsIn model.now instance.now }
        requires few { length (nets_feeding instance.now) ≤ 10 }
        ensures { (values : List Trit) (s : Trit) → length values ≤ 10
            → looked_up result values s ≡ next_by model.now nets.now values changed old s instance.now }
    {
        NetRows {
            order: order_of(nets, nets_feeding(instance)),
            rows: rows_at(model, instance, changed, old),
        }
    }

    /// The next state, where the nets have these values after the change.
    pub(crate) fn next(&self, values: &[Trit], state: Trit) -> Trit
        ensures { result ≡ looked_up self.now values.now state }
    {
        let Some(rows) = &self.rows else {
            return state;
        };
        let inputs = values_numbered(values, self.order.as_slice());
        rows.next(state, inputs.as_slice())
    }

    /// The same from each state.
    pub(crate) fn next_states(&self, values: &[Trit]) -> NextStates
        ensures { result ≡ next_states (looked_up self.now values.now) }
    {
        let Some(rows) = &self.rows else {
            return NextStates {
                zero: Trit::Zero,
                one: Trit::One,
                unknown: Trit::Unknown,
            };
        };
        let inputs = values_numbered(values, self.order.as_slice());
        rows.next_states(inputs.as_slice())
    }

    /// Whether the rows ask nothing of the net with this number.
    pub(crate) fn ignores(&self, number: usize) -> bool
        ensures { result ≡ true → IgnoresNet number self.now }
    {
        match &self.rows {
            Some(rows) => rows.ignores(self.order.as_slice(), number),
            None => true,
        }
    }
}
