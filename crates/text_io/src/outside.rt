//! The desk as a trait: what each call does to its state, and where it may fail.

ghost use Rattle.std.specs.Prelude.{◌≡◌, ◌<◌, ◌≤◌, ℕ, [], List, length, take, slice_get, IsTrue, IsOk, IfOk, IfSome, OnOk, OnErr};
ghost use Rattle.std.specs.Prelude.{Contains};
ghost use Rattle.std.specs.Option.{option_copied};
ghost use Rattle.text_io.specs.declared.slots.Slot.TheVariants.{Input, Output};
ghost use Rattle.text_io.specs.Plan.{plan};
ghost use Rattle.text_io.specs.Desk.{DeskState, is_bound, opened, created, took, wrote, IsFileAt, HasCause};

use crate::slots::{InSlot, OutSlot};
use thiserror::Error;

/// A call on the world outside that was not carried out.
#[derive(Clone, Copy, Debug, PartialEq, Eq, Error)]
#[error("a call outside the program failed")]
pub struct Failed;

/// All that a command may ask of the world outside it.
///
/// What is known of a desk at any moment is its `state`: the words of the command, the folder of named files, which
/// slots are bound, the bytes that are left to read and the bytes that were written. A desk tells the folder, the
/// bytes left and the bytes written, or does not, and never changes its mind. `faults` counts the calls that failed, up to
/// 2^64 - 1; it stays where a call goes well.
pub trait Desk {
    ghost state: { Self → DeskState };

    ghost faults: { Self → ℕ };

    /// The word at this place, from 0; `None` exactly where there is none. It never fails.
    fn word(&self, place: usize) -> Option<&str>
        ensures { option_copied result ≡ slice_get (state self.now).words place };

    /// Binds the file that this word names for reading, from its first byte on.
    fn bind_in(&mut self, slot: InSlot, place: usize) -> Result<(), Failed>
        requires { Contains (plan (state self.old).words) (Input slot, place) }
        ensures ok { OnOk result ((bytes : List ℕ) × IsFileAt (state self.old) place bytes
            × (state self.new ≡ opened (state self.old) slot bytes)) }
        ensures err { OnErr result (state self.new ≡ state self.old) }
        ensures cause { HasCause (faults self.old) (faults self.new) result };

    /// Reads the next bytes into the front of `into`, and answers how many: 0, at an `into` that is not empty,
    /// exactly at the end.
    fn read(&mut self, slot: InSlot, into: &mut [u8]) -> Result<usize, Failed>
        requires { IsTrue (is_bound (state self.old) (Input slot)) }
        ensures at_most { IfOk result (λ count. count ≤ length into.new) }
        ensures front { IfOk result (λ count. IfSome ((state self.old).left slot) (λ left. (take count into.new ≡ take count left)
            × (count ≤ length left))) }
        ensures end { IfOk result (λ count. count ≡ 0 → 0 < length into.new
            → IfSome ((state self.old).left slot) (λ left. left ≡ [])) }
        ensures ok { IfOk result (λ count. state self.new ≡ took (state self.old) slot count) }
        ensures err { OnErr result (state self.new ≡ state self.old) }
        ensures cause { HasCause (faults self.old) (faults self.new) result };

    /// Binds the file that this word names for writing, and makes it empty.
    fn bind_out(&mut self, slot: OutSlot, place: usize) -> Result<(), Failed>
        requires { Contains (plan (state self.old).words) (Output slot, place) }
        ensures ok { OnOk result (state self.new ≡ created (state self.old) slot) }
        ensures err { OnErr result (state self.new ≡ state self.old) }
        ensures cause { HasCause (faults self.old) (faults self.new) result };

    /// Appends a prefix of `bytes`, and answers its length: at least 1 at bytes that are not empty. At empty bytes
    /// it never fails.
    fn write(&mut self, slot: OutSlot, bytes: &[u8]) -> Result<usize, Failed>
        requires { IsTrue (is_bound (state self.old) (Output slot)) }
        ensures at_most { IfOk result (λ count. count ≤ length bytes.now) }
        ensures some { IfOk result (λ count. 0 < length bytes.now → 0 < count) }
        ensures never { length bytes.now ≡ 0 → IsOk result }
        ensures ok { IfOk result (λ count. state self.new ≡ wrote (state self.old) slot (take count bytes.now)) }
        ensures err { OnErr result (state self.new ≡ state self.old) }
        ensures cause { HasCause (faults self.old) (faults self.new) result };
}
