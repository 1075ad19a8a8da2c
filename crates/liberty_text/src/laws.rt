//! Laws of tokens: functions that do nothing, whose `ensures` holds of every list of bytes.

ghost use Rattle.liberty_text.specs.Cover.{IsCovered};
ghost use Rattle.liberty_text.specs.TokenLaws.{HaveOneReading};

/// Each list of bytes has exactly one reading by the lexical grammar, the one that `scan` finds.
#[tactic(auto, using(crate::proofs::Complete::one_reading))]
pub fn one_reading(bytes: &[u8])
    ensures { HaveOneReading bytes.now }
{}

/// The tokens, with nothing but separators between them, are the bytes before the place where the
/// reading stops. Each flag says whether a line ends among the separators before its token, and no
/// Word can be extended by the bytes behind it.
#[tactic(auto, using(crate::proofs::Covered::covered))]
pub fn tokens_cover(bytes: &[u8])
    ensures { IsCovered bytes.now }
{}
