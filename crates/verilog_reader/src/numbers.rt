//! Numbers of Verilog text. (IEEE 1364-2005, 3.5.1.)

ghost use Rattle.verilog_grammar.specs.VerilogBlocks as spec;
ghost use Rattle.grammar_reader.specs.Reading.{read, Reads};

use grammar_reader::Read;
use verilog_tokens::number_of;
use verilog_udp_reader::Cursor;

/// The number that stands next.
#[tactic(auto, using(grammar_reader::proofs::Values::valued_found), unfolding(verilog_grammar::specs::VerilogBlocks::a_number))]
pub fn number(cursor: &mut Cursor) -> Read<u64>
    ensures { Reads (read spec.a_number cursor.old) result cursor.new }
{
    let found = number_of(cursor.bytes());
    cursor.value(found)
}
