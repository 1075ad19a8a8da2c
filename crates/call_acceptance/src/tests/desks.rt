//! The desk of real files, called once.

ghost use Rattle.std.specs.Prelude.{◌≡◌, [], ◌∷◌, map, codes, string_bytes, IfOk, OnOk, IsTrue};
ghost use Rattle.text_io.specs.declared.slots.InSlot.TheVariants.{Library};
ghost use Rattle.text_io.specs.declared.slots.OutSlot.TheVariants.{VerilogText, VitalText};
ghost use Rattle.text_io.specs.declared.slots.Slot.TheVariants.{Input, Output};
ghost use Rattle.text_io.specs.Plan.{plan};
ghost use Rattle.text_io.specs.Desk.{is_bound};

use std::alloc::{AllocError, Global};
use std::fs;
use std::test::Fail;
use text_io::{Desk, Failed, FileDesk, InSlot, OutSlot, Stop, read_all, write_whole};

/// The words of a translation of this library to this Verilog text, and of VHDL text to nowhere.
fn words(alloc: Global, library: &str, verilog: &str) -> Result<Vec<String>, AllocError>
    ensures { IfOk result (λ words. map string_bytes words.items ≡ codes "translate" ∷ library.now ∷ verilog.now ∷ codes
        "/dev/null" ∷ []) }
{
    let mut words = Vec::new(alloc);
    words.push(String::from_str(alloc, "translate")?)?;
    words.push(String::from_str(alloc, library)?)?;
    words.push(String::from_str(alloc, verilog)?)?;
    words.push(String::from_str(alloc, "/dev/null")?)?;
    Ok(words)
}

/// Binds the library and the first output.
#[tactic(auto, unfolding(text_io::specs::Desk::opened, text_io::specs::Desk::created))]
fn bind<D: Desk>(desk: &mut D) -> Result<(), Failed>
    requires { plan (D.state desk.old).words ≡ (Input Library, 1) ∷ (Output VerilogText, 2) ∷ (Output VitalText, 3) ∷ [] }
    ensures library { OnOk result (IsTrue (is_bound (D.state desk.new) (Input Library))) }
    ensures text { OnOk result (IsTrue (is_bound (D.state desk.new) (Output VerilogText))) }
{
    desk.bind_in(InSlot::Library, 1)?;
    desk.bind_out(OutSlot::VerilogText, 2)
}

/// Reads the first four bytes of the library, and writes them to an output that has no room. Answers whether they are these, more
/// came, and the writing failed.
#[tactic(auto, unfolding(text_io::specs::Desk::took))]
fn copies<D: Desk>(alloc: Global, desk: &mut D, wanted: &[u8]) -> Result<bool, Stop>
    requires library { IsTrue (is_bound (D.state desk.old) (Input Library)) }
    requires text { IsTrue (is_bound (D.state desk.old) (Output VerilogText)) }
{
    let taken = read_all(alloc, desk, InSlot::Library, 4)?;
    let written = write_whole(desk, OutSlot::VerilogText, taken.bytes.as_slice());
    Ok(taken.bytes.as_slice() == wanted && taken.more && written.is_err())
}

/// Whether real files are read and written, without end and without room.
fn copies_without_end(rt: &HostRuntime) -> Result<bool, Fail> {
    let mut desk = FileDesk::new(rt.clone()?, words(rt.alloc(), "/dev/zero", "/dev/full")?);
    bind(&mut desk)?;
    Ok(copies(rt.alloc(), &mut desk, &[0, 0, 0, 0])?)
}

/// Whether a desk refuses to empty the file that it reads.
fn refuses_own_file(rt: &HostRuntime) -> Result<bool, Fail> {
    let mut desk = FileDesk::new(rt.clone()?, words(rt.alloc(), "one.lib", "./one.lib")?);
    Ok(bind(&mut desk).is_err())
}

/// Whether a file that is read is kept.
fn keeps_own_file(rt: &HostRuntime) -> Result<bool, Fail> {
    fs::write(rt, "one.lib", "library")?;
    let refused = refuses_own_file(rt)?;
    let kept = fs::read_to_string(rt, "one.lib")?;
    fs::remove_file(rt, "one.lib")?;
    Ok(refused && kept.as_str() == "library")
}

#[test]
fn real_files_are_read_and_written(rt: HostRuntime) -> Result<(), Fail> {
    assert!(rt; copies_without_end(&rt)?);
    assert!(rt; keeps_own_file(&rt)?);
    Ok(())
}
