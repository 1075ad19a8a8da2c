//! Names that a list does not have twice.

/// Reads the name of a thing that a list does not have yet: `$thing` becomes what is found of the name, which is `$token`. It
/// stands in a function that answers by `Stop`.
#[macro_export]
macro_rules! unlisted {
    ($cursor:ident, $token:ident, $thing:ident = $found:expr, $listed:expr) => {
        let $token = $cursor.bytes();
        if !vhdl_tokens::is_name($token) {
            return Err(grammar_reader::Stop::Refused(grammar_reader::Refusal::Syntax));
        }
        let Some($thing) = $found else {
            return Err(grammar_reader::Stop::Refused(grammar_reader::Refusal::Undefined));
        };
        if $listed {
            return Err(grammar_reader::Stop::Refused(grammar_reader::Refusal::Twice));
        }
        $cursor.skip();
    };
}
