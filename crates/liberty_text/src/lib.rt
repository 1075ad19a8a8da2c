//! Liberty text: its tokens with their places, the values of quoted texts, and the numbers and
//! times that they spell.
#![tactic(auto)]

mod bytes_after;
mod class;
mod decimal;
mod gaps;
mod idle;
mod kept;
mod laws;
mod number;
mod passing;
mod scanner;
mod text;
mod time;
mod token;
mod unread;
mod whole_texts;

pub use decimal::{Fixed, NumberFault};
pub use kept::{Kept, KeptScan, copy_kept};
pub use laws::{one_reading, tokens_cover};
pub use number::fixed;
pub use scanner::{Mode, Scanner};
pub use text::{one_value, plain_value, quotes_read_back, text_value};
pub use time::{Unit, is_shown_within, picoseconds};
pub use token::{Scan, Stop, TextFault, Token, TokenKind};
pub use unread::Unread;
pub use whole_texts::{scan, scan_kept, tokens};
