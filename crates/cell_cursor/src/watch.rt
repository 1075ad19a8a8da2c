//! What a token tells as soon as it has ended, before any statement is read.

use liberty_groups::{Place, Standing, goes_on, next_standing};
use liberty_text::{Kept, Token};

/// What the tokens of a part tell that ended last.
#[derive(Clone, Copy)]
pub(crate) enum Sight {
    /// Nothing of use.
    Nothing,
    /// No library text goes on with one of them.
    Misfit,
    /// One of them is the name of a statement of the library, and what stands before it ended without a semicolon or a brace.
    Name,
}

/// A watch over the tokens of a part.
#[derive(Clone, Copy)]
pub(crate) struct Watch {
    /// Where the next token stands, as long as each token before it could stand in a library.
    standing: Option<Standing>,
}

impl Watch {
    /// A watch before the first token of a part.
    pub(crate) fn from(standing: Standing) -> Watch {
        Watch {
            standing: Some(standing),
        }
    }

    /// Sees tokens of these bytes that have ended. A misfit is told once.
    pub(crate) fn see(&mut self, bytes: &[u8], tokens: &[Kept]) -> Sight {
        let mut sight = Sight::Nothing;
        let Some(mut here) = self.standing else {
            return sight;
        };
        for kept in tokens {
            let token = kept.token();
            // most tokens of a library are arguments, behind which the next one stands where they do
            if matches!(here, Standing::Arguments(_)) && goes_on(Place::Arguments, token) {
                continue;
            }
            let is_library = matches!(here, Standing::Start) && is_library(bytes, token);
            let Some(next) = next_standing(here, token, is_library) else {
                self.standing = None;
                return Sight::Misfit;
            };
            if is_behind_statement(here) && matches!(next, Standing::AfterName(0)) {
                sight = Sight::Name;
            }
            here = next;
        }
        self.standing = Some(here);
        sight
    }
}

/// Whether the bytes of a token are the name of a library.
fn is_library(bytes: &[u8], token: Token) -> bool {
    bytes.get(token.at..token.end) == Some(b"library".as_slice())
}

/// Whether a statement of the library may end here before any token.
fn is_behind_statement(here: Standing) -> bool {
    matches!(here, Standing::Value(0) | Standing::AfterArguments(0))
}
