//! The words of the program as words of a desk.
ghost use Rattle.std.specs.Prelude.{◌≡◌, map, string_bytes, IfOk};
ghost use Rattle.wave_reports.specs.Words.{desk_words as desk_words_of};

use std::alloc::{AllocError, Global};

/// The words of a desk for these behind the program's name. A desk binds the files of a command of lib2sim alone, so it is asked
/// for a translation: `REPORT` is the text that is read and `VCD` the Verilog text that is written. The third file of a
/// translation is never bound; its word, `report_waves`, is none that a file of the two can have.
pub fn desk_words(alloc: Global, given: Vec<String>) -> Result<Vec<String>, AllocError>
    ensures { IfOk result (λ words. map string_bytes words.items ≡ desk_words_of (map string_bytes given.items)) }
{
    let mut words = given;
    words.insert(0, String::from_str(alloc, "translate")?)?;
    words.push(String::from_str(alloc, "report_waves")?)?;
    Ok(words)
}
