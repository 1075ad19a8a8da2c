//! Grammar rules as data: one base for the readers of every text format of the workspace.
//!
//! A format writes its grammar as a `Rule` (in `specs/Rule.antt`): which phrases it takes with which
//! value, and at which token and with which kind of fault it refuses. `read` (in `specs/Reading.antt`) is
//! the function that a recursive descent computes. The function here takes nothing and does nothing: its
//! contract are the laws that hold of every rule, which the crates above cite for theirs.
#![tactic(auto)]

ghost use Rattle.grammar_rules.specs.Rule.{Rule};
ghost use Rattle.grammar_rules.specs.Loose.{loose};
ghost use Rattle.grammar_rules.specs.Laws.{ReadsExactly, HasOneReading, RefusesAtFirst, LooksOneAhead, FrontsAreUsedUp};
ghost use Rattle.grammar_rules.specs.Laws.{IsStricterThanLoose, FoulsInFronts};

/// A grammar over tokens, with kinds of faults, whose phrases stand for values.
pub trait Grammar {
    type Token;

    type Kind;

    type Value;

    /// The rule of a whole text, which may depend on a value of the grammar.
    ghost rule: { Self → Rule Self.Token Self.Kind Self.Value };
}

/// What holds of every rule, and of its loose subset, where tokens that break a strict rule are taken:
///
/// - `exact`: reading from left to right answers exactly the phrase that a rule takes, and exactly the refusal that it makes;
/// - `one_reading`: from any tokens a rule takes one phrase, with one value, or makes one refusal, and not both;
/// - `first_place`: the place of a refusal is the first token with which the tokens so far are no front of the rule;
/// - `one_ahead`: what stands behind the token after a phrase, or behind the place of a refusal, changes nothing;
/// - `used_up`: tokens are a front exactly where the rule takes them all, or refuses the end of the text after them;
/// - `stricter`: a phrase of the rule is one of the loose subset with no token that breaks a strict rule, and a refusal is at the
/// first such token, or, where there is none, where the loose subset refuses;
/// - `fouls`: a token that breaks a strict rule ends a front of the loose subset, and breaks one strict rule;
/// - `first_loose_place`: the place of a refusal of the loose subset is the first token with which the tokens so far are no front
/// of it.
pub fn laws_hold<G: Grammar>()
    ensures exact { (g : G) → ReadsExactly (G.rule g) }
    ensures one_reading { (g : G) → HasOneReading (G.rule g) }
    ensures first_place { (g : G) → RefusesAtFirst (G.rule g) }
    ensures one_ahead { (g : G) → LooksOneAhead (G.rule g) }
    ensures used_up { (g : G) → FrontsAreUsedUp (G.rule g) }
    ensures stricter { (g : G) → IsStricterThanLoose (G.rule g) }
    ensures fouls { (g : G) → FoulsInFronts (G.rule g) }
    ensures first_loose_place { (g : G) → RefusesAtFirst (loose (G.rule g)) }
{}
