//! The elements of aggregates. (IEEE 1076-1993, 7.3.2.)

ghost use Rattle.grammar_reader.specs.Reading.{Reads};
ghost use Rattle.vhdl_grammar.specs.Aggregates as spec;

use crate::language::{Cursor, Vhdl};
use crate::words::is_number_token;
use grammar_reader::{Read, RepeatedPart, while_next};

/// Two elements or more.
fn several_elements<P: RepeatedPart<Vhdl>>(
    cursor: &mut Cursor<'_>,
    element: &P,
    none: P::Found,
) -> Read<P::Found>
    ensures { Reads (spec.several_elements (P.reading element.now) none cursor.old) result cursor.new }
{
    let first = element.next(cursor, none)?;
    cursor.expect(b",")?;
    let second = element.next(cursor, first)?;
    while_next(cursor, b",", element, second)
}

/// The elements of an aggregate, behind its bracket. One that stands alone has its index before it, which is 0.
#[tactic(auto, using(grammar_reader::proofs::Choices::choose_by, grammar_reader::proofs::Choices::choose_not_by))]
pub fn elements<P: RepeatedPart<Vhdl>>(
    cursor: &mut Cursor<'_>,
    element: &P,
    none: P::Found,
) -> Read<P::Found>
    ensures { Reads (spec.elements (P.reading element.now) none cursor.old) result cursor.new }
{
    if !is_number_token(0, cursor.bytes()) {
        return several_elements(cursor, element, none);
    }
    cursor.skip();
    cursor.expect(b"=>")?;
    element.next(cursor, none)
}
