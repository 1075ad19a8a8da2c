//! The variables of a driver's process, by recursive descent. (IEEE 1076-1993, 4.3.1.3.)

ghost use Rattle.std.specs.Prelude.{◌≡◌};
ghost use Rattle.grammar_reader.specs.Reading.{read, Reads, ReadsAs};
ghost use Rattle.vhdl_grammar.specs.VhdlRules.{known};
ghost use Rattle.vhdl_drivers.specs.DriverSections as spec;

use grammar_reader::{Read, RepeatedPart, where_read, while_next};
use sqlite_items::Items;
use std::alloc::Global;
use vhdl_declarations_reader::{is_last_false, set_last};
use vhdl_grammar::{Cursor, Vhdl, expect_all};
use vhdl_tokens::is_numbered_name;

/// Whether a name is that of the value of the next of so many driven outputs, behind these.
fn is_next_value(driven: usize, glitches: &[bool], token: &[u8]) -> bool
    ensures { result ≡ spec.is_next_value driven glitches.now token.now }
{
    let declared = glitches.len();
    declared < driven && is_numbered_name(token, b"z_", declared + 1)
}

/// Whether a name is that of the delays of the last of these outputs.
fn is_last_delays(glitches: &[bool], token: &[u8]) -> bool
    ensures { result ≡ spec.is_last_delays glitches.now token.now }
{
    is_last_false(glitches) && is_numbered_name(token, b"g_", glitches.len())
}

/// Whether the variable of this name is that of an output's delays, where it may stand behind these of so many driven outputs.
fn variable_of(driven: usize, glitches: &[bool], token: &[u8]) -> Option<bool>
    ensures { result ≡ spec.variable_of driven glitches.now token.now }
{
    if is_next_value(driven, glitches, token) {
        return Some(false);
    }
    is_last_delays(glitches, token).then_some(true)
}

/// The name of the next variable.
fn variable_name(cursor: &mut Cursor, driven: usize, glitches: &[bool]) -> Read<bool>
    ensures { Reads (read (known (spec.variable_of driven glitches.now)) cursor.old) result cursor.new }
{
    let found = variable_of(driven, glitches, cursor.bytes());
    cursor.known(found)
}

/// A variable, behind its word, which stands behind these then.
#[tactic(auto, unfolding(crate::specs::DriverSections::driven_variable, crate::specs::DriverSections::value_variable, crate::specs::DriverSections::delays_variable))]
fn driven_variable(cursor: &mut Cursor, driven: usize, glitches: &mut Items<bool>) -> Read<()>
    ensures { ReadsAs (λ _. glitches.new) (read (spec.driven_variable driven glitches.old) cursor.old) result cursor.new }
{
    if variable_name(cursor, driven, glitches.as_slice())? {
        expect_all(cursor, &[b":", b"VitalGlitchDataType", b";"])?;
        set_last(glitches)?;
    } else {
        expect_all(cursor, &[b":", b"std_logic", b":=", b"'X'", b";"])?;
        glitches.push(false)?;
    }
    Ok(())
}

/// A variable of a driver with so many driven outputs, behind its word.
#[derive(Drop)]
struct DrivenVariable {
    driven: usize,
}

impl RepeatedPart<Vhdl> for DrivenVariable {
    type Found = Items<bool>;

    ghost reading = { λ variable glitches s. read (spec.driven_variable variable.driven glitches) s };

    #[tactic(auto, using(grammar_reader::proofs::WithRest::reads_before))]
    fn next(&self, cursor: &mut Cursor<'_>, mut glitches: Items<bool>) -> Read<Items<bool>> {
        let rest = driven_variable(cursor, self.driven, &mut glitches);
        where_read(glitches, rest)
    }
}

/// The variables of so many driven outputs: for each whether it has one of its delays.
#[tactic(auto, unfolding(crate::specs::DriverSections::driven_variables))]
pub(crate) fn driven_variables(
    cursor: &mut Cursor,
    alloc: Global,
    driven: usize,
) -> Read<Items<bool>>
    ensures { Reads (read (spec.driven_variables driven) cursor.old) result cursor.new }
{
    let none = Items::new(alloc);
    let glitches = while_next(cursor, b"variable", &DrivenVariable { driven }, none)?;
    cursor.go_on_where(glitches.len() == driven)?;
    Ok(glitches)
}
