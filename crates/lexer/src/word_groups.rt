//! Words in groups by their first letters.

ghost use Rattle.std.specs.Prelude.{◌≡◌, ◌∷◌, List, ℕ, true};
ghost use Rattle.std.specs.List.{list_any};
ghost use Rattle.std.specs.Str.{bytes_eq};
ghost use Rattle.lexer.specs.WordGroups.{begin_from, joined};

/// The words with this first letter, of groups with one letter after another, from `a` on; none where no group has it. Bytes that
/// begin with the letter are one of them exactly where they are one of the words of all groups, also where words are folded, as to
/// lower case. It takes no memory.
pub fn group_of<'a>(groups: &[&'a [&'a [u8]]], first: u8) -> &'a [&'a [u8]]
    ensures { (fold : List ℕ → List ℕ) (rest : List ℕ)
        → begin_from groups.now (λ group. group.now) (λ word. fold word.now) 97 ≡ true
        → list_any (λ word. bytes_eq (first ∷ rest) (fold word.now)) result.now ≡ list_any (bytes_eq (first ∷ rest))
        (joined groups.now (λ group. group.now) (λ word. fold word.now)) }
{
    if first < b'a' {
        return &[];
    }
    let place = usize::from(first - b'a');
    if place >= groups.len() {
        return &[];
    }
    groups[place]
}
