//! A whole file, up to a limit, from a desk.

ghost use Rattle.std.specs.Prelude.{◌≡◌, ◌+◌, IsTrue, IfOk, OnErr};
ghost use Rattle.text_io.specs.declared.slots.Slot.TheVariants.{Input};
ghost use Rattle.text_io.specs.Desk.{is_bound, HasCause, StopsWithCause};
ghost use Rattle.text_io.specs.Read.{IsRead, ReadsAtMost, ReadsByte};

use crate::outside::{Desk, Failed};
use crate::slots::InSlot;
use crate::stop::Stop;
use std::alloc::Global;

/// The first bytes of a file.
#[derive(Drop)]
pub struct Taken {
    pub bytes: Vec<u8>,
    /// Whether at least one more byte came after them.
    pub more: bool,
}

/// How many bytes are asked for at once.
const PIECE: usize = 4096;

/// Reads the first `limit` bytes of a slot that is bound, and sees whether a further byte comes. It reads at most
/// `limit` bytes and that one, so it ends on an endless file too. After a fault the bytes read so far are gone.
/// `Failed` comes only where a read failed, and the other two answers only where none did.
pub fn read_all<D: Desk>(
    alloc: Global,
    desk: &mut D,
    slot: InSlot,
    limit: usize,
) -> Result<Taken, Stop>
    requires { IsTrue (is_bound (D.state desk.old) (Input slot)) }
    ensures ok { IfOk result (IsRead (D.state desk.old) (D.state desk.new) slot limit) }
    ensures err { OnErr result (ReadsAtMost (D.state desk.old) (D.state desk.new) slot (limit + 1)) }
    ensures cause { StopsWithCause (D.faults desk.old) (D.faults desk.new) result }
{
    let mut bytes = Vec::new(alloc);
    let mut piece = [0; PIECE];
    while bytes.len() < limit {
        let want = PIECE.min(limit - bytes.len());
        let count = desk.read(slot, &mut piece[..want])?;
        if count == 0 {
            return Ok(Taken { bytes, more: false });
        }
        bytes.extend_from_slice(&piece[..count])?;
    }
    let more = has_more(desk, slot)?;
    Ok(Taken { bytes, more })
}

/// Whether one more byte comes; it is read.
fn has_more<D: Desk>(desk: &mut D, slot: InSlot) -> Result<bool, Failed>
    requires { IsTrue (is_bound (D.state desk.old) (Input slot)) }
    ensures ok { IfOk result (ReadsByte (D.state desk.old) (D.state desk.new) slot) }
    ensures err { OnErr result (D.state desk.new ≡ D.state desk.old) }
    ensures cause { HasCause (D.faults desk.old) (D.faults desk.new) result }
{
    let mut byte = [0];
    let count = desk.read(slot, &mut byte)?;
    Ok(count > 0)
}
