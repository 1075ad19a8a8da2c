//! The paths of outputs. (IEEE 1076.4-2000, VitalPathDelay01.)

ghost use Rattle.std.specs.Prelude.{length};
ghost use Rattle.grammar_reader.specs.Reading.{read, Reads, ReadsAs};
ghost use Rattle.vhdl_grammar.specs.VhdlRules as rules;
ghost use Rattle.vhdl_grammar.specs.VhdlOutputs as spec;

use grammar_reader::{Read, RepeatedPart, one_or_more, where_read, while_next};
use sqlite_items::Items;
use std::marker::PhantomData;
use std::mem::replace;
use vhdl_grammar::entities::{HGate, HPath};
use vhdl_grammar::{
    Cursor, Declarations, Uses, Vhdl, an_input, condition, expect_all, this_number, time,
};

/// Parts so far, and the lists of the conditions that were looked up.
type Found<T> = (Items<T>, Uses);

/// A part that stands behind others of its kind, and looks up conditions.
trait LookingUp: Drop {
    ghost use Rattle.std.specs.Prelude.{ℕ, List};
    ghost use Rattle.grammar_rules.specs.Reading.{Outcome};
    ghost use Rattle.grammar_reader.specs.declared.refusal.Refusal.{Refusal};
    ghost use Rattle.grammar_reader.specs.Reading.{ReadsAs};
    ghost use Rattle.vhdl_grammar.specs.declared.scope.Scope.{Scope};
    ghost use Rattle.vhdl_grammar.specs.VhdlNames as names;

    ghost reading: { Scope → List Self × names.Uses → List (List ℕ) → Outcome (List ℕ) Refusal (List Self × names.Uses) };

    /// Puts one more part behind these; the lists of the conditions have its own, too, then.
    fn push_next(cursor: &mut Cursor, scope: &Declarations, found: &mut Found<Self>) -> Read<()>
        ensures { ReadsAs (λ _. found.new) (reading scope.now found.old cursor.old) result cursor.new };
}

/// A part of these declarations.
#[derive(Drop)]
struct Next<'a, P> {
    scope: &'a Declarations,
    part: PhantomData<P>,
}

impl<P: LookingUp> RepeatedPart<Vhdl> for Next<'_, P> {
    type Found = Found<P>;

    ghost reading = { λ next found s. P.reading next.scope.now found s };

    #[tactic(auto, using(grammar_reader::proofs::WithRest::reads_before))]
    fn next(&self, cursor: &mut Cursor<'_>, mut found: Found<P>) -> Read<Found<P>> {
        let rest = P::push_next(cursor, self.scope, &mut found);
        where_read(found, rest)
    }
}

/// A condition that has to be 0, by its number.
impl LookingUp for usize {
    ghost reading = { λ scope found s. read (spec.next_zero scope found) s };

    #[tactic(auto, unfolding(vhdl_grammar::specs::VhdlOutputs::next_zero))]
    fn push_next(cursor: &mut Cursor, scope: &Declarations, zeros: &mut Found<usize>) -> Read<()> {
        cursor.expect(b"VitalTruthTable")?;
        let number = condition(cursor, scope.alloc(), scope, &mut zeros.1)?;
        expect_all(cursor, &[b"=", b"'0'"])?;
        zeros.0.push(number)?;
        Ok(())
    }
}

/// The conditions that have to be 0, behind the first of them and its `=`; the lists have theirs, too, then.
#[tactic(auto, unfolding(vhdl_grammar::specs::VhdlOutputs::all_zero))]
fn all_zero(cursor: &mut Cursor, scope: &Declarations, first: usize, uses: &mut Uses) -> Read<HGate>
    ensures { ReadsAs (λ gate. (gate, uses.new)) (read (spec.all_zero scope.now (first, uses.old)) cursor.old) result cursor.new }
{
    cursor.expect(b"'0'")?;
    let mut conditions = Items::new(scope.alloc());
    conditions.push(first)?;
    let before = replace(uses, Items::new(scope.alloc()));
    let next = Next::<usize> {
        scope,
        part: PhantomData,
    };
    let (all, more) = while_next(cursor, b"and", &next, (conditions, before))?;
    *uses = more;
    Ok(HGate::AllZero(all))
}

/// A gate, behind the first word of a look-up; the lists have those of its conditions, too, then.
#[tactic(auto, unfolding(vhdl_grammar::specs::VhdlOutputs::gate_of_conditions, vhdl_grammar::specs::VhdlOutputs::not_zero, vhdl_grammar::specs::VhdlOutputs::equals_zero), using(grammar_reader::proofs::Repeats::choose_begun, grammar_reader::proofs::Repeats::choose_other))]
fn gate_of_conditions(cursor: &mut Cursor, scope: &Declarations, uses: &mut Uses) -> Read<HGate>
    ensures { ReadsAs (λ gate. (gate, uses.new)) (read (spec.gate_of_conditions scope.now uses.old) cursor.old) result
        cursor.new }
{
    let number = condition(cursor, scope.alloc(), scope, uses)?;
    if cursor.is_next(b"/=") {
        cursor.skip();
        cursor.expect(b"'0'")?;
        return Ok(HGate::NotZero(number));
    }
    cursor.expect(b"=")?;
    all_zero(cursor, scope, number, uses)
}

/// When a path counts; the lists have those of its conditions, too, then.
#[tactic(auto, unfolding(vhdl_grammar::specs::VhdlOutputs::always), using(crate::proofs::NextGate::gated, crate::proofs::NextGate::ungated))]
fn gate_of(cursor: &mut Cursor, scope: &Declarations, uses: &mut Uses) -> Read<HGate>
    ensures { ReadsAs (λ gate. (gate, uses.new)) (read (spec.gate_of scope.now uses.old) cursor.old) result cursor.new }
{
    if cursor.is_next(b"VitalTruthTable") {
        cursor.skip();
        return gate_of_conditions(cursor, scope, uses);
    }
    cursor.expect(b"true")?;
    Ok(HGate::Always)
}

/// The delays of a rise and of a fall.
#[tactic(auto, unfolding(vhdl_grammar::specs::VhdlOutputs::delays))]
pub fn delays(cursor: &mut Cursor) -> Read<(u64, u64)>
    ensures { Reads (read spec.delays cursor.old) result cursor.new }
{
    cursor.expect(b"(")?;
    let rise = time(cursor)?;
    cursor.expect(b",")?;
    let fall = time(cursor)?;
    expect_all(cursor, &[b")", b","])?;
    Ok((rise, fall))
}

/// The number of the path behind these.
fn path_number(cursor: &mut Cursor, paths: &[HPath]) -> Read<()>
    ensures { Reads (read (rules.this_number (length paths.now)) cursor.old) result cursor.new }
{
    this_number(cursor, paths.len())
}

/// A path of an output.
impl LookingUp for HPath {
    ghost reading = { λ scope found s. read (spec.next_path scope found) s };

    #[tactic(auto, unfolding(vhdl_grammar::specs::VhdlOutputs::next_path))]
    fn push_next(cursor: &mut Cursor, scope: &Declarations, paths: &mut Found<HPath>) -> Read<()> {
        path_number(cursor, paths.0.as_slice())?;
        expect_all(cursor, &[b"=>", b"("])?;
        let from = an_input(cursor, scope.ports())?;
        expect_all(cursor, &[b"'", b"last_event", b","])?;
        let (rise, fall) = delays(cursor)?;
        let gate = gate_of(cursor, scope, &mut paths.1)?;
        cursor.expect(b")")?;
        paths.0.push(HPath {
            from,
            rise,
            fall,
            gate,
        })?;
        Ok(())
    }
}

/// All paths of an output; the lists have those of their conditions, too, then.
#[tactic(auto, unfolding(vhdl_grammar::specs::VhdlOutputs::paths))]
pub fn paths(cursor: &mut Cursor, scope: &Declarations, uses: &mut Uses) -> Read<Items<HPath>>
    ensures { ReadsAs (λ paths. (paths, uses.new)) (read (spec.paths scope.now uses.old) cursor.old) result cursor.new }
{
    cursor.expect(b"(")?;
    let before = replace(uses, Items::new(scope.alloc()));
    let none = (Items::new(scope.alloc()), before);
    let next = Next::<HPath> {
        scope,
        part: PhantomData,
    };
    let (all, more) = one_or_more(cursor, b",", &next, none)?;
    *uses = more;
    cursor.expect(b")")?;
    Ok(all)
}
