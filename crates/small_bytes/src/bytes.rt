//! Bytes, of which few stand in place.

ghost use Rattle.std.specs.Prelude.{◌≡◌, ◌≤◌, [], length, take, drop, slice_range, false, IfOk, IsTrue};
ghost use Rattle.small_bytes.specs.Bytes.{held_bytes, is_marked};

use crate::room::Room;
use crate::shared::SharedBytes;
use sqlite_items::{Boxed, Items};
use std::alloc::{AllocError, Global};
use std::marker::Model;
use std::mem::size_of;

/// What stands in the place of some bytes and a mark. A block has room for all that an allocator gives beside its own eight bytes
/// in a multiple of sixteen.
#[derive(Drop)]
enum HeldBytes {
    InPlace(Room<14>),
    /// Exactly 15.
    Full([u8; 15]),
    MarkedInPlace(Room<14>),
    MarkedFull([u8; 15]),
    /// A name, or a few numbers.
    Name(bool, Boxed<Room<39>>),
    /// A row of a table.
    Row(bool, Boxed<Room<71>>),
    WideRow(bool, Boxed<Room<103>>),
    Long(bool, Boxed<Items<u8>>),
    /// So many of bytes that others share, behind so many others.
    Part(bool, u16, u32, SharedBytes),
}

/// Some bytes, in 16: at most 15 stand in place, at most 103 in one block, and more in a list behind a box, or they are a part of
/// bytes that others share. Contracts see the list of the bytes.
#[derive(Drop)]
pub struct SmallBytes {
    held: HeldBytes,
}

const _: () = prove!(size_of::<SmallBytes>() == 16);

impl Model for SmallBytes {
    ghost use Rattle.std.specs.Prelude.{List, ℕ};

    ghost Value = { List ℕ };

    ghost use Rattle.small_bytes.specs.Bytes.{held_bytes};

    ghost view = { λ b. held_bytes b.held };
}

/// So many bytes fit beside their number where a box would stand.
const IN_PLACE: usize = 14;

/// So many bytes fit where a box would stand.
const FULL: usize = 15;

/// So many bytes fit in a block of each kind, beside their number.
const NAME: usize = 39;

const ROW: usize = 71;

const WIDE_ROW: usize = 103;

/// The longest part of shared bytes.
const LONGEST: usize = 65_535;

/// So many bytes may stand before a part of shared bytes.
const FARTHEST: usize = 4_294_967_295;

/// As many bytes as fit where a box would stand.
fn full(bytes: &[u8]) -> HeldBytes
    requires { length bytes.now ≡ 15 }
    ensures { held_bytes result ≡ bytes.now }
{
    let mut room = [0; FULL];
    room.copy_from_slice(bytes);
    HeldBytes::Full(room)
}

/// A few bytes, in place or in one block.
#[inline(always)]
fn few(alloc: Global, bytes: &[u8]) -> Result<HeldBytes, AllocError>
    requires { length bytes.now ≤ 103 }
    ensures { IfOk result (λ held. held_bytes held ≡ bytes.now) }
{
    if bytes.len() <= IN_PLACE {
        return Ok(HeldBytes::InPlace(Room::filled(bytes)));
    }
    if bytes.len() == FULL {
        return Ok(full(bytes));
    }
    if bytes.len() <= NAME {
        return Ok(HeldBytes::Name(false, Boxed::new(alloc, Room::filled(bytes))?));
    }
    if bytes.len() <= ROW {
        return Ok(HeldBytes::Row(false, Boxed::new(alloc, Room::filled(bytes))?));
    }
    Ok(HeldBytes::WideRow(false, Boxed::new(alloc, Room::filled(bytes))?))
}

/// So many bytes behind so many others, as far as there are so many.
#[inline(always)]
fn part_of(bytes: &[u8], before: usize, count: usize) -> &[u8]
    ensures { result.now ≡ take count (drop before bytes.now) }
{
    let (_, behind) = bytes.split_at(before.min(bytes.len()));
    let (part, _) = behind.split_at(count.min(behind.len()));
    part
}

/// The bytes that are held.
#[inline(always)]
fn bytes_of(held: &HeldBytes) -> &[u8]
    ensures { result.now ≡ held_bytes held.now }
{
    match held {
        HeldBytes::InPlace(room) => room.as_slice(),
        HeldBytes::Full(bytes) => bytes,
        HeldBytes::MarkedInPlace(room) => room.as_slice(),
        HeldBytes::MarkedFull(bytes) => bytes,
        HeldBytes::Name(_, block) => block.get().as_slice(),
        HeldBytes::Row(_, block) => block.get().as_slice(),
        HeldBytes::WideRow(_, block) => block.get().as_slice(),
        HeldBytes::Long(_, bytes) => bytes.get().as_slice(),
        HeldBytes::Part(_, count, before, shared) => {
            part_of(shared.as_slice(), *before as usize, usize::from(*count))
        }
    }
}

/// The same bytes with a mark.
fn marked(held: HeldBytes) -> HeldBytes
    ensures bytes { held_bytes result ≡ held_bytes held }
    ensures mark { IsTrue (is_marked result) }
{
    match held {
        HeldBytes::InPlace(room) => HeldBytes::MarkedInPlace(room),
        HeldBytes::Full(bytes) => HeldBytes::MarkedFull(bytes),
        HeldBytes::Name(_, block) => HeldBytes::Name(true, block),
        HeldBytes::Row(_, block) => HeldBytes::Row(true, block),
        HeldBytes::WideRow(_, block) => HeldBytes::WideRow(true, block),
        HeldBytes::Long(_, bytes) => HeldBytes::Long(true, bytes),
        HeldBytes::Part(_, count, before, shared) => HeldBytes::Part(true, count, before, shared),
        held => held,
    }
}

/// The same bytes without a mark.
fn unmarked(held: HeldBytes) -> HeldBytes
    ensures bytes { held_bytes result ≡ held_bytes held }
    ensures mark { is_marked result ≡ false }
{
    match held {
        HeldBytes::MarkedInPlace(room) => HeldBytes::InPlace(room),
        HeldBytes::MarkedFull(bytes) => HeldBytes::Full(bytes),
        HeldBytes::Name(_, block) => HeldBytes::Name(false, block),
        HeldBytes::Row(_, block) => HeldBytes::Row(false, block),
        HeldBytes::WideRow(_, block) => HeldBytes::WideRow(false, block),
        HeldBytes::Long(_, bytes) => HeldBytes::Long(false, bytes),
        HeldBytes::Part(_, count, before, shared) => HeldBytes::Part(false, count, before, shared),
        held => held,
    }
}

impl SmallBytes {
    /// No bytes.
    pub fn new() -> SmallBytes
        ensures { result ≡ [] }
    {
        SmallBytes {
            held: HeldBytes::InPlace(Room::filled(&[])),
        }
    }

    /// A copy of some bytes. An `Err` comes only where memory is wanting.
    #[inline(always)]
    pub fn from_slice(alloc: Global, bytes: &[u8]) -> Result<SmallBytes, AllocError>
        ensures { IfOk result (λ copy. copy ≡ bytes.now) }
    {
        let held = if bytes.len() <= WIDE_ROW {
            few(alloc, bytes)?
        } else {
            HeldBytes::Long(false, Boxed::new(alloc, Items::from_slice(alloc, bytes)?)?)
        };
        Ok(SmallBytes { held })
    }

    /// The same bytes. An `Err` comes only where memory is wanting.
    pub fn from_items(alloc: Global, bytes: Items<u8>) -> Result<SmallBytes, AllocError>
        ensures { IfOk result (λ same. same ≡ bytes) }
    {
        let held = if bytes.len() <= WIDE_ROW {
            few(alloc, bytes.as_slice())?
        } else {
            HeldBytes::Long(false, Boxed::new(alloc, bytes)?)
        };
        Ok(SmallBytes { held })
    }

    /// Those of some shared bytes from one place up to another. So few as stand in place are copied, and so are more than 65,535
    /// and those behind more than 4,294,967,295 others. An `Err` comes only where memory is wanting, or no more texts can be
    /// counted that are parts of the bytes.
    pub fn part(
        alloc: Global,
        shared: &SharedBytes,
        from: usize,
        to: usize,
    ) -> Result<SmallBytes, AllocError>
        requires ordered { from ≤ to }
        requires within { to ≤ length shared.now }
        ensures { IfOk result (λ part. part ≡ slice_range shared.now from to) }
    {
        let count = to - from;
        if count <= FULL || count > LONGEST || from > FARTHEST {
            return SmallBytes::from_slice(alloc, &shared.as_slice()[from..to]);
        }
        let held = HeldBytes::Part(false, count as u16, from as u32, shared.again()?);
        Ok(SmallBytes { held })
    }

    /// The bytes.
    #[inline(always)]
    pub fn as_slice(&self) -> &[u8]
        ensures { result.now ≡ self.now }
    {
        bytes_of(&self.held)
    }
}

/// Some bytes and a mark, in 16. Contracts see both.
#[derive(Drop)]
pub struct MarkedBytes {
    held: HeldBytes,
}

const _: () = prove!(size_of::<MarkedBytes>() == 16);

impl Model for MarkedBytes {
    ghost use Rattle.small_bytes.specs.Marked.{Marked};

    ghost Value = { Marked };

    ghost use Rattle.small_bytes.specs.Bytes.{held_bytes, is_marked};

    ghost view = { λ b. record { bytes = held_bytes b.held; is_marked = is_marked b.held } };
}

impl MarkedBytes {
    /// These bytes with a mark or without one.
    pub fn new(bytes: SmallBytes, is_marked: bool) -> MarkedBytes
        ensures { result ≡ record { bytes = bytes; is_marked = is_marked } }
    {
        let SmallBytes { held } = bytes;
        let held = if is_marked {
            marked(held)
        } else {
            unmarked(held)
        };
        MarkedBytes { held }
    }

    /// The bytes.
    #[inline(always)]
    pub fn as_slice(&self) -> &[u8]
        ensures { result.now ≡ self.now.bytes }
    {
        bytes_of(&self.held)
    }

    /// Whether they have a mark.
    pub fn is_marked(&self) -> bool
        ensures { result ≡ self.now.is_marked }
    {
        match &self.held {
            HeldBytes::InPlace(_) | HeldBytes::Full(_) => false,
            HeldBytes::MarkedInPlace(_) | HeldBytes::MarkedFull(_) => true,
            HeldBytes::Name(mark, _)
            | HeldBytes::Row(mark, _)
            | HeldBytes::WideRow(mark, _)
            | HeldBytes::Long(mark, _) => *mark,
            HeldBytes::Part(mark, _, _, _) => *mark,
        }
    }

    /// The bytes, without the mark.
    pub fn into_bytes(self) -> SmallBytes
        ensures { result ≡ self.bytes }
    {
        let MarkedBytes { held } = self;
        SmallBytes { held }
    }
}
