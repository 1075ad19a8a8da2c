//! The declarations of the wires of a driver.
ghost use Rattle.std.specs.Prelude.{◌≡◌, ◌+◌, map, IfOk};
ghost use Rattle.grammar_reader.specs.Words.{known};
ghost use Rattle.grammar_reader.specs.Reading.{read, Reads};
ghost use Rattle.driver_models.specs.Wires as spec;

use crate::language::DriverLanguage;
use grammar_reader::{Cursor, Language, Read, RepeatedPart, while_next, with_end};
use std::alloc::{AllocError, Global};
use std::marker::PhantomData;
use vhdl_tokens::numbered_name;

/// How many wires are declared: to the inputs of buffers, and to their enables.
#[derive(Clone, Copy)]
pub struct Wires {
    pub values: usize,
    pub enables: usize,
}

/// Whether a name is this word with this number.
pub(crate) fn is_numbered<L: Language>(
    alloc: Global,
    token: &[u8],
    word: &[u8],
    number: usize,
) -> Result<bool, AllocError>
    ensures { IfOk result (λ same. same ≡ L.is_same token.now (spec.numbered word.now number)) }
{
    let name = numbered_name(alloc, word, number)?;
    Ok(L::is_same(token, name.as_slice()))
}

/// The number behind this one. There is no memory for a text with so many wires that there is none.
pub(crate) fn number_behind(number: usize) -> Result<usize, AllocError>
    ensures { IfOk result (λ next. next ≡ number + 1) }
{
    match number.checked_add(1) {
        Some(next) => Ok(next),
        None => Err(AllocError),
    }
}

/// What is declared with the wire of this name, where it may be declared next.
fn next_wire<L: DriverLanguage>(
    alloc: Global,
    found: Wires,
    name: &[u8],
) -> Result<Option<Wires>, AllocError>
    ensures { IfOk result (λ more. more ≡ spec.next_wire L.Spelling.is_name L.Spelling.is_same L.value L.enable found name.now) }
{
    let Wires { values, enables } = found;
    let next = number_behind(values)?;
    if enables == 0 && is_numbered::<L::Spelling>(alloc, name, L::value_word(), next)? {
        return Ok(Some(Wires {
            values: next,
            enables: 0,
        }));
    }
    if enables < values && is_numbered::<L::Spelling>(alloc, name, L::enable_word(), enables + 1)? {
        return Ok(Some(Wires {
            values,
            enables: enables + 1,
        }));
    }
    Ok(None)
}

/// The name of a wire that is declared next.
fn wire_name<L: DriverLanguage>(
    cursor: &mut Cursor<'_, L::Spelling>,
    alloc: Global,
    found: Wires,
) -> Read<Wires>
    ensures { Reads (read (known L.Spelling.is_name (spec.next_wire L.Spelling.is_name L.Spelling.is_same L.value L.enable found))
        cursor.old) result cursor.new }
{
    let more = next_wire::<L>(alloc, found, cursor.bytes())?;
    cursor.known(more)
}

/// A declared wire, behind its word: its name, and the words behind it.
#[derive(Drop)]
struct DeclaredWire<'a, L> {
    alloc: Global,
    tail: &'a [&'a [u8]],
    language: PhantomData<L>,
}

impl<L: DriverLanguage> RepeatedPart<L::Spelling> for DeclaredWire<'_, L> {
    type Found = Wires;

    ghost use Rattle.std.specs.Prelude.{map};
    ghost use Rattle.grammar_reader.specs.Reading.{read};
    ghost use Rattle.driver_models.specs.Wires as spec;

    ghost reading = { λ wire found s. read (spec.declared_wire L.Spelling.is_name L.Spelling.is_same L.value L.enable (map (λ
        word. word.now) wire.tail.now) found) s };

    #[tactic(auto, unfolding(crate::specs::Wires::declared_wire))]
    fn next(&self, cursor: &mut Cursor<'_, L::Spelling>, found: Wires) -> Read<Wires> {
        let wires = wire_name::<L>(cursor, self.alloc, found)?;
        with_end(cursor, self.tail, wires)
    }
}

/// The declarations of the wires of a driver, each behind this word and with these words behind its name: how many lead to inputs
/// of buffers. As many lead to enables.
#[tactic(auto, unfolding(crate::specs::Wires::declared_wires))]
pub fn declared_wires<L: DriverLanguage>(
    cursor: &mut Cursor<'_, L::Spelling>,
    alloc: Global,
    word: &[u8],
    tail: &[&[u8]],
) -> Read<usize>
    ensures { Reads (read (spec.declared_wires L.Spelling.is_name L.Spelling.is_same L.value L.enable word.now (map (λ word.
        word.now) tail.now)) cursor.old) result cursor.new }
{
    let wire = DeclaredWire::<L> {
        alloc,
        tail,
        language: PhantomData,
    };
    let none = Wires {
        values: 0,
        enables: 0,
    };
    cursor.expect(word)?;
    let first = wire.next(cursor, none)?;
    let all = while_next(cursor, word, &wire, first)?;
    cursor.go_on_where(all.values == all.enables)?;
    Ok(all.values)
}
