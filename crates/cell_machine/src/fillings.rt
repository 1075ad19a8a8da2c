//! The values to which inputs force a group's state: its step is tried on each filling of them.
ghost use Rattle.std.specs.Prelude.{◌≡◌, ◌<◌, Bool, true, false, List, length, slice_set};
ghost use Rattle.trit_cubes.specs.Resolution.{agreed, res};
ghost use Rattle.cell_machine.specs.Machine.{around};
ghost use Rattle.cell_machine.specs.Values.{no_values, written, picked};
ghost use Rattle.cell_machine.specs.Step.{KindIsBounded};
ghost use Rattle.cell_machine.specs.Fillings.{both_states, forced_after};

use crate::groups::GroupKind;
use crate::over::filled;
use crate::values::Values;
use trit_cubes::Trit;

/// The step for both states.
fn both_states(kind: &GroupKind, name: usize, before: &Values, after: &Values) -> Trit
    requires name { name < 96 }
    requires bounded { KindIsBounded kind.now }
    ensures { result ≡ both_states kind.now name before.now after.now }
{
    let zero = kind.step(name, before, after, false);
    if zero.is_unknown() {
        return zero;
    }
    zero.agreed(kind.step(name, before, after, true))
}

/// The values with those of `from` for these names.
fn copied(values: Values, names: &[usize], from: &Values) -> Values
    ensures { result ≡ written values names.now (picked from.now names.now) }
{
    let mut values = values;
    for name in names {
        values.set(*name, from.get(*name));
    }
    values
}

/// The common step for both states, from the inputs after a change and each that differ from them in one of the names.
fn forced_around(
    kind: &GroupKind,
    name: usize,
    rest: &[usize],
    before: Values,
    after: &Values,
) -> Trit
    requires name { name < 96 }
    requires bounded { KindIsBounded kind.now }
    ensures { result ≡ around (λ q. both_states kind.now name (written before rest.now q) after.now) (picked after.now rest.now) }
{
    let Some((first, rest)) = rest.split_first() else {
        return both_states(kind, name, &before, after);
    };
    let value = after.get(*first);
    let same = forced_around(kind, name, rest, before.with(*first, value), after);
    if same.is_unknown() {
        return same;
    }
    let other = copied(before.with(*first, !value), rest, after);
    same.agreed(both_states(kind, name, &other, after))
}

/// The forced value for each filling of the inputs under `rest`.
fn forced_from(
    kind: &GroupKind,
    name: usize,
    support: &[usize],
    rest: &[usize],
    trits: &[Trit],
    after: &mut Values,
) -> Trit
    requires name { name < 96 }
    requires bounded { KindIsBounded kind.now }
    requires one_each { length rest.now ≡ length trits.now }
    ensures { result ≡ res (λ p. forced_after kind.now name support.now (written after.old rest.now p)) trits.now }
{
    let (Some((first, rest)), Some((trit, trits))) = (rest.split_first(), trits.split_first())
    else {
        return forced_around(kind, name, support, Values::new(), after);
    };
    let first = *first;
    filled!(*trit, after, first => forced_from(kind, name, support, rest, trits, after))
}

/// The value to which the inputs under `support` force the state.
pub fn forced_filled(kind: &GroupKind, name: usize, support: &[usize], trits: &[Trit]) -> Trit
    requires name { name < 96 }
    requires bounded { KindIsBounded kind.now }
    requires one_each { length support.now ≡ length trits.now }
    ensures { result ≡ res (λ p. forced_after kind.now name support.now (written no_values support.now p)) trits.now }
{
    let mut values = Values::new();
    forced_from(kind, name, support, support, trits, &mut values)
}
