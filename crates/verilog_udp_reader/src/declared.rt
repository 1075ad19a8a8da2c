//! The places of names that are declared, with all names before them in a list that finds a name at once.

ghost use Rattle.std.specs.Prelude.{◌≡◌, [], ◌∷◌, ◌++◌, IfOk};
ghost use Rattle.udp_tables.specs.VerilogRules.{new_name};
ghost use Rattle.grammar_reader.specs.Reading.{read, ReadsAs};

use crate::language::Cursor;
use bool_functions::Names;
use grammar_reader::{Read, Refusal, Stop};
use verilog_tokens::is_name;

/// A name that is declared here, and was none of these before, as it stands in the text; it then is the last of them. Where the
/// reading stops they may have one name more. It takes the time of one look-up, however many there are.
#[inline(always)]
#[tactic(auto, using(crate::proofs::NewNames::new_other, crate::proofs::NewNames::declared_taken))]
pub fn declare<'a>(cursor: &mut Cursor<'a>, names: &mut Names) -> Read<&'a [u8]>
    ensures reads { ReadsAs (λ name. name.now) (read (new_name names.old) cursor.old) result cursor.new }
    ensures added { IfOk result (λ name. names.new ≡ names.old ++ name.now ∷ []) }
{
    let name = cursor.bytes();
    if !is_name(name) {
        return Err(Stop::Refused(Refusal::Syntax));
    }
    match names.add(name) {
        Ok(Some(_)) => {
            cursor.skip();
            Ok(name)
        }
        Ok(None) => Err(Stop::Refused(Refusal::Twice)),
        Err(_) => Err(Stop::Memory),
    }
}
