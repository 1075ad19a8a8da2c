//! The library that a run makes for itself, read as a file is.

use selftest_cells::OwnLibrary;
use std::alloc::Global;
use std::test::Fail;
use text_io::{InSlot, Stop, read_all};

/// Whether the text that is read of the library of four cells ends so.
#[tactic(auto, unfolding(selftest_cells::specs::Reading::reads_library))]
fn ends_in(alloc: Global, wanted: &[u8]) -> Result<bool, Stop> {
    let Ok(mut library) = OwnLibrary::new(alloc, 4) else {
        return Err(Stop::Memory);
    };
    let read = read_all(alloc, &mut library, InSlot::Library, 100_000)?;
    Ok(!read.more && read.bytes.as_slice().ends_with(wanted))
}

#[test]
fn the_fourth_cell_has_its_function(rt: HostRuntime) -> Result<(), Fail> {
    let alloc = rt.alloc();
    assert!(rt;
        ends_in(
            alloc,
            b"pin (\"Y\") {\ndirection : \"output\";\nfunction : \"!A*!B*!C+A*B*!C+!A*!B*C\";\n}\n}\n}\n"
        )?
    );
    Ok(())
}
