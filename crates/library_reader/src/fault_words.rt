//! The words of a library's faults.
ghost use Rattle.std.specs.Prelude.{◌≡◌};
ghost use Rattle.liberty_groups.specs.Fault.{fault_text as fault_text_of, expected_text as expected_text_of};

use liberty_groups::{Expected, LibraryFault};

/// What is wrong with a text that is no library text.
pub(crate) fn fault_text(fault: &LibraryFault) -> &'static [u8]
    ensures { result.now ≡ fault_text_of fault.now }
{
    match fault {
        LibraryFault::BadByte(_) => b"byte",
        LibraryFault::OpenText(_) => b"text not closed",
        LibraryFault::OpenComment(_) => b"comment not closed",
        LibraryFault::Syntax { expected, .. } => expected_text(*expected),
        LibraryFault::TooDeep(_) => b"too deep",
        LibraryFault::NotLibrary(_) => b"not a library",
    }
}

/// What stood to be read.
fn expected_text(expected: Expected) -> &'static [u8]
    ensures { result.now ≡ expected_text_of expected }
{
    match expected {
        Expected::Statement => b"expected statement",
        Expected::AfterName => b"expected colon or bracket",
        Expected::Opening => b"expected opening",
        Expected::Argument => b"expected argument",
        Expected::Value => b"expected value",
        Expected::FileEnd => b"expected end of file",
    }
}
