//! Reading a stimulus.
ghost use Rattle.std.specs.Prelude.{◌≡◌, ◌<◌, [], ◌∷◌, length, MatchOption, IfSome};
ghost use Rattle.stimulus.specs.Text.{lines_of};
ghost use Rattle.stimulus.specs.NextLine.{first_line_of};
ghost use Rattle.stimulus.specs.LineMeanings.{line_meaning as line_meaning_of};
ghost use Rattle.stimulus.specs.Stimulus.{stimulus_of, at_line as at_line_of, Gives};

use crate::catalog::Catalog;
use crate::context::{Context, Said};
use crate::faults::{Cause, StimulusFault};
use crate::line_meanings::line_meaning;
use crate::next_line::next_line;
use crate::plain_changes::plain_change;
use crate::sections::{Section, Sections};
use std::alloc::Global;

/// Reads a stimulus: for each line `cell NAME` a section with the number of the cell in the catalog, and in each section
/// the changes that its further lines give, `TIME PIN VALUE`, with times in picoseconds that rise strictly.
///
/// The first bad line decides: `Line` has its number, from 1 among all lines, and the first of its causes. Of a cell's
/// name and a port's name the first entry in the catalog counts.
pub fn read_stimulus<C: Catalog>(
    alloc: Global,
    bytes: &[u8],
    catalog: &C,
) -> Result<Vec<Section>, StimulusFault>
    ensures { Gives result (stimulus_of (C.listing catalog.now) bytes.now) }
{
    let mut sections = Sections::new(alloc);
    let mut context = Context::new();
    let mut before = 0;
    let mut rest = Some(bytes);
    while let Some(text) = rest {
        let (answer, more) = first_said(catalog, context, text);
        let said = at_line(before + 1, answer)?;
        let Ok(()) = sections.take(alloc, said) else {
            return Err(StimulusFault::Memory);
        };
        context = context.after(said);
        before += 1;
        rest = more;
    }
    match sections.finish() {
        Ok(sections) => Ok(sections),
        Err(_) => Err(StimulusFault::Memory),
    }
}

/// What the first line of a text says after the lines before it, or the first of the causes for which it is bad, and what stands
/// behind its line feed: nothing where the text has none.
fn first_said<'a, C: Catalog>(
    catalog: &C,
    context: Context,
    text: &'a [u8],
) -> (Result<Said, Cause>, Option<&'a [u8]>)
    ensures line { MatchOption result.1 (lines_of text.now ≡ first_line_of text.now ∷ [])
        (λ rest. lines_of text.now ≡ first_line_of text.now ∷ lines_of rest.now) }
    ensures shorter { IfSome result.1 (λ rest. length rest.now < length text.now) }
    ensures said { result.0 ≡ line_meaning_of (C.listing catalog.now) context (first_line_of text.now) }
{
    if let Some((change, rest)) = plain_change(catalog, context, text) {
        return (Ok(Said::Changes(change)), Some(rest));
    }
    let (written, more) = next_line(text);
    (line_meaning(catalog, context, written), more)
}

/// What was answered of the line with this number, with the number where the line is bad.
fn at_line<T>(line: usize, answer: Result<T, Cause>) -> Result<T, StimulusFault>
    ensures { result ≡ at_line_of line answer }
{
    match answer {
        Ok(value) => Ok(value),
        Err(cause) => Err(StimulusFault::Line { line, cause }),
    }
}
