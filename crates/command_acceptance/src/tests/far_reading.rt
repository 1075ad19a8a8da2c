//! A library with much behind its cells: their models are written before all of it is read.
use crate::tests::runs::{
    Left, Status, THREE_CELLS, THREE_ENTITIES, THREE_LINES, THREE_MODULES, TRANSLATE,
    library_alone, ran,
};
use std::alloc::{AllocError, Global};
use std::test::Fail;
use text_io::{Memory, OutSlot};

/// The library of three cells, with 300,000 spaces behind it.
fn spaced(alloc: Global) -> Result<String, AllocError> {
    let mut library = String::from_str(alloc, THREE_CELLS)?;
    for _ in 0..300000 {
        library.push(' ')?;
    }
    Ok(library)
}

/// What translating this library leaves, where these calls fail and a call moves at most `piece` bytes.
fn far_translated(alloc: Global, failing: &[u64], piece: usize) -> Result<Left, Memory> {
    let library = spaced(alloc)?;
    ran(
        alloc,
        &TRANSLATE,
        library_alone(library.as_bytes()),
        failing,
        piece,
    )
}

/// Whether the models of all three cells were written.
fn has_all_models(left: &Left) -> bool {
    left.wrote(OutSlot::VerilogText, &THREE_MODULES)
        && left.wrote(OutSlot::VitalText, &THREE_ENTITIES)
}

/// Whether the spaces change nothing.
fn is_as_without_spaces(alloc: Global) -> Result<bool, Memory> {
    let left = far_translated(alloc, &[], usize::MAX)?;
    Ok(has_all_models(&left) && left.is(Status::Done, THREE_LINES, ""))
}

/// Whether a run at which this call fails, where a call moves at most 50 bytes, wrote all models.
fn wrote_models_before(alloc: Global, call: u64) -> Result<bool, Memory> {
    let left = far_translated(alloc, &[call], 50)?;
    Ok(has_all_models(&left) && left.status == Status::Outside)
}

#[test]
fn spaces_behind_a_library_change_nothing(rt: HostRuntime) -> Result<(), Fail> {
    assert!(rt; is_as_without_spaces(rt.alloc())?);
    Ok(())
}

/// The last cell ends at offset 314. Three files are bound, a write moves a byte at least, and 2,969 bytes are written, so before
/// this call 314 + 65,536 bytes were read, 50 at once: 3 + 2,969 + 1,318 calls. The library is not read to its end by then.
#[test]
fn models_are_written_before_a_later_read(rt: HostRuntime) -> Result<(), Fail> {
    assert!(rt; wrote_models_before(rt.alloc(), 4291)?);
    Ok(())
}
