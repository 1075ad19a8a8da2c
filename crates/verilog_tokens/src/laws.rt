//! Laws of Verilog text.
ghost use Rattle.lexer.specs.Laws.{Lawful};
ghost use Rattle.verilog_tokens.specs.Cover.{spelling};

/// A law: the tokens of a text, with nothing but separators between them, are its bytes up to its lexical fault, and no token can
/// be longer; they stand in it one behind the other, and the fault behind them; and blanks, line ends and comments that are added
/// between them change none.
pub fn tokens_are_lawful()
    ensures { Lawful spelling }
{}
