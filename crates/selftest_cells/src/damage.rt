//! Damage of models.
ghost use Rattle.std.specs.Prelude.{◌≡◌, ◌∷◌, IfOk};
ghost use Rattle.selftest_cells.specs.Damage.{alter_first, alter_second, other_next, damaged_row, damaged_udp, damaged_module};
ghost use Rattle.selftest_cells.specs.Damage.{other_state, damaged_state_row, damaged_state, other_value, damaged_truth_row};
ghost use Rattle.selftest_cells.specs.Damage.{damaged_value, damaged_output, damaged_entity, DamagedModulesAreSound};
ghost use Rattle.selftest_cells.specs.Damage.{DamagedEntitiesAreSound};

use specify_blocks::VModule;
use sqlite_items::Items;
use std::alloc::{AllocError, Global};
use trit_cubes::Trit;
use udp_tables::{Next, Udp, UdpRow};
use vital_models::{
    OutValue, TruthRow, TruthTable, VEntity, VNext, VOutput, VState, VStateRow, VStateTable,
};

/// A part of a model that can be damaged: one row of it gives 0 in place of 1, or 1 in place of 0. Where that row gives another
/// thing, or there is none, the part stays as it is.
trait Damage: Drop + Sized {
    ghost damaged: { Self → Self };

    /// The part, damaged. An `Err` comes only where memory is wanting.
    fn damaged(self, alloc: Global) -> Result<Self, AllocError>
        ensures { IfOk result (λ part. part ≡ damaged self) };
}

/// A list with an item before the others.
fn with_first<T: Drop>(alloc: Global, first: T, others: Items<T>) -> Result<Items<T>, AllocError>
    ensures { IfOk result (λ list. list ≡ first ∷ others) }
{
    let mut list = Items::new(alloc);
    list.push(first)?;
    list.append(others)?;
    Ok(list)
}

/// A list, its first part damaged where there is one.
fn first_damaged<T: Damage>(alloc: Global, mut parts: Items<T>) -> Result<Items<T>, AllocError>
    ensures { IfOk result (λ list. list ≡ alter_first T.damaged parts) }
{
    if parts.is_empty() {
        return Ok(parts);
    }
    let first = parts.remove(0).damaged(alloc)?;
    with_first(alloc, first, parts)
}

/// A list, its second part damaged where there is one.
fn second_damaged<T: Damage>(alloc: Global, mut parts: Items<T>) -> Result<Items<T>, AllocError>
    ensures { IfOk result (λ list. list ≡ alter_second T.damaged parts) }
{
    if parts.is_empty() {
        return Ok(parts);
    }
    let first = parts.remove(0);
    let others = first_damaged(alloc, parts)?;
    with_first(alloc, first, others)
}

/// What a row of a primitive gives, with 0 and 1 exchanged.
fn other_next(next: Next) -> Next
    ensures { result ≡ other_next next }
{
    match next {
        Next::Zero => Next::One,
        Next::One => Next::Zero,
        other => other,
    }
}

impl Damage for UdpRow {
    ghost damaged = { damaged_row };

    fn damaged(mut self, _alloc: Global) -> Result<UdpRow, AllocError> {
        self.next = other_next(self.next);
        Ok(self)
    }
}

impl Damage for Udp {
    ghost damaged = { damaged_udp };

    fn damaged(mut self, alloc: Global) -> Result<Udp, AllocError> {
        self.rows = first_damaged(alloc, self.rows)?;
        Ok(self)
    }
}

/// The module in which the first row of the first primitive gives 0 in place of 1, or 1 in place of 0. A row that gives another
/// thing, and a module without such a row, stay as they are. An `Err` comes only where memory is wanting.
pub fn damaged_module(alloc: Global, mut model: VModule) -> Result<VModule, AllocError>
    ensures { IfOk result (λ m. m ≡ damaged_module model) }
{
    model.udps = first_damaged(alloc, model.udps)?;
    Ok(model)
}

/// What a row of a state table gives, with 0 and 1 exchanged.
fn other_state(next: VNext) -> VNext
    ensures { result ≡ other_state next }
{
    match next {
        VNext::Zero => VNext::One,
        VNext::One => VNext::Zero,
        other => other,
    }
}

impl Damage for VStateRow {
    ghost damaged = { damaged_state_row };

    fn damaged(mut self, _alloc: Global) -> Result<VStateRow, AllocError> {
        self.result = other_state(self.result);
        Ok(self)
    }
}

/// The second row of the state's table: the first one keeps the state.
impl Damage for VState {
    ghost damaged = { damaged_state };

    fn damaged(mut self, alloc: Global) -> Result<VState, AllocError> {
        self.table = VStateTable {
            rows: second_damaged(alloc, self.table.rows)?,
        };
        Ok(self)
    }
}

/// What a row of a truth table gives, with 0 and 1 exchanged.
fn other_value(value: Trit) -> Trit
    ensures { result ≡ other_value value }
{
    match value {
        Trit::Zero => Trit::One,
        Trit::One => Trit::Zero,
        other => other,
    }
}

impl Damage for TruthRow {
    ghost damaged = { damaged_truth_row };

    fn damaged(mut self, _alloc: Global) -> Result<TruthRow, AllocError> {
        self.result = other_value(self.result);
        Ok(self)
    }
}

impl Damage for OutValue {
    ghost damaged = { damaged_value };

    fn damaged(self, alloc: Global) -> Result<OutValue, AllocError> {
        match self {
            OutValue::Constant(one) => Ok(OutValue::Constant(one)),
            OutValue::Table { table, inputs } => Ok(OutValue::Table {
                table: TruthTable {
                    rows: first_damaged(alloc, table.rows)?,
                },
                inputs,
            }),
        }
    }
}

impl Damage for VOutput {
    ghost damaged = { damaged_output };

    fn damaged(mut self, alloc: Global) -> Result<VOutput, AllocError> {
        self.value = self.value.damaged(alloc)?;
        Ok(self)
    }
}

/// The entity in which the second row of the first state table, and without states the first row of the first output's table,
/// gives 0 in place of 1, or 1 in place of 0. A row that gives another thing, and an entity without such a row, stay as they are.
/// An `Err` comes only where memory is wanting.
pub fn damaged_entity(alloc: Global, mut model: VEntity) -> Result<VEntity, AllocError>
    ensures { IfOk result (λ e. e ≡ damaged_entity model) }
{
    if model.states.is_empty() {
        model.outputs = first_damaged(alloc, model.outputs)?;
    } else {
        model.states = first_damaged(alloc, model.states)?;
    }
    Ok(model)
}

/// A law: the damaged module of a sound one is sound.
pub fn damaged_modules_are_sound()
    ensures { DamagedModulesAreSound }
{}

/// A law: the damaged entity of a sound one is sound.
pub fn damaged_entities_are_sound()
    ensures { DamagedEntitiesAreSound }
{}
