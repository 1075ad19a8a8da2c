//! A text with spaces in the place of its sections.
ghost use Rattle.std.specs.Prelude.{◌≡◌, ◌++◌, length, replicate, IfOk};
ghost use Rattle.driver_sections.specs.Sections.{blanked, StandApart};

use lexer::Span;
use std::alloc::{AllocError, Global};

/// Appends so many spaces.
#[tactic(auto, using(crate::proofs::Spaces::one_less))]
fn push_spaces(rest: &mut Vec<u8>, count: usize) -> Result<(), AllocError>
    ensures { IfOk result (λ _. rest.new.items ≡ rest.old.items ++ replicate count 32) }
{
    for _i in 0..count {
        rest.push(b' ')?;
    }
    Ok(())
}

/// A copy of a text with spaces in the place of these sections, which stand one behind the other. It fails only for want of
/// memory.
pub fn blanked(alloc: Global, text: &[u8], sections: &[Span]) -> Result<Vec<u8>, AllocError>
    requires { StandApart 0 (length text.now) sections.now }
    ensures { IfOk result (λ rest. rest.items ≡ blanked text.now sections.now) }
{
    let mut rest = Vec::new(alloc);
    let mut next = 0;
    for section in sections {
        rest.extend_from_slice(&text[next..section.at])?;
        push_spaces(&mut rest, section.end - section.at)?;
        next = section.end;
    }
    rest.extend_from_slice(&text[next..])?;
    Ok(rest)
}
