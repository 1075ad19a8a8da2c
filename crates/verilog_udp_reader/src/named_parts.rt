//! Lists of named things, of which each is read from those before it.

ghost use Rattle.std.specs.Prelude.{◌≡◌, codes};
ghost use Rattle.std.specs.Str.{bytes_eq};
ghost use Rattle.grammar_reader.specs.Reading.{ReadsAs};
ghost use Rattle.grammar_reader.specs.Repeated.{repeated};

use crate::language::Cursor;
use crate::named_items::NamedItems;
use grammar_reader::Read;

/// A part of a list of named things.
pub trait NamedPart {
    ghost use Rattle.std.specs.Prelude.{ℕ, List, OnOk};
    ghost use Rattle.grammar_rules.specs.Reading.{Outcome};
    ghost use Rattle.grammar_reader.specs.declared.refusal.Refusal.{Refusal};
    ghost use Rattle.grammar_reader.specs.Reading.{ReadsAs};

    /// What such parts give.
    type Item: Drop;

    /// What holds of the names so far and of the things that have them.
    ghost are_named: { Self → List (List ℕ) → List Self.Item → Type 0 };

    ghost reading: { Self → List Self.Item → List (List ℕ) → Outcome (List ℕ) Refusal (List Self.Item) };

    /// Adds one more part, which stands next.
    fn add<'a>(&self, cursor: &mut Cursor<'a>, found: &mut NamedItems<'a, Self::Item>) -> Read<()>
        requires { are_named self.now found.old.names found.old.items }
        ensures reads { ReadsAs (λ _. found.new.items) (reading self.now found.old.items cursor.old) result cursor.new }
        ensures named { OnOk result (are_named self.now found.new.names found.new.items) };
}

/// Adds the parts that stand next, each behind a comma.
#[tactic(auto, using(grammar_reader::proofs::Repeats::turns))]
pub fn add_listed<'a, P: NamedPart>(
    cursor: &mut Cursor<'a>,
    part: &P,
    found: &mut NamedItems<'a, P::Item>,
) -> Read<()>
    requires { P.are_named part.now found.old.names found.old.items }
    ensures { ReadsAs (λ _. found.new.items) (repeated bytes_eq (codes ",") (P.reading part.now) found.old.items cursor.old) result
        cursor.new }
{
    for _turn in 0..cursor.left() {
        if !cursor.is_next(b",") {
            break;
        }
        cursor.skip();
        part.add(cursor, found)?;
    }
    Ok(())
}
