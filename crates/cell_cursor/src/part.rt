//! The part of a library that is scanned and whose statements have not all ended.

ghost use Rattle.std.specs.Prelude.{◌≡◌, ℕ, true, false, ◌<◌, ◌≤◌, ◌+◌, ◌^◌, [], ◌++◌, take, length, IfOk, IfSome, OnErr};
ghost use Rattle.liberty_text.specs.declared.scanner.Mode.TheVariants.{Between};
ghost use Rattle.liberty_groups.specs.Lexeme.{LieInside};
ghost use Rattle.liberty_text.specs.Runs.{mode_behind, tokens_ended, has_mark};
ghost use Rattle.cell_cursor.specs.Braces.{depth_behind, depth_after, is_outer, has_outer, ShowsOuter, kinds_of};
ghost use Rattle.cell_cursor.specs.Part.{all_scanned};
ghost use Rattle.cell_cursor.specs.Scanned.{AreScanned, NoneOuter, NoneOuterEnds, mark_of, last_mark};

use crate::watch::{Sight, Watch};
use liberty_groups::Standing;
use liberty_text::{Kept, Scanner, TokenKind};
use std::alloc::{AllocError, Global};
use std::marker::Model;

/// How far the library has come at the beginning of a part.
#[derive(Clone, Copy)]
pub(crate) enum Place {
    /// Before the name of the library.
    Start,
    /// Among the statements of the library.
    Inside,
    /// Behind the library.
    Behind,
}

/// How many bytes were scanned at once, up to one with which a token ended behind which no group of the part is open, or all.
#[derive(Clone, Copy)]
pub(crate) struct Run {
    pub(crate) count: usize,
    /// Whether a statement may have ended with the last of them.
    pub(crate) may_end: bool,
    /// What the tokens tell that ended with the last of them.
    pub(crate) sight: Sight,
}

/// The bytes from the end of the last statement that was taken on, as far as they are scanned.
#[derive(Drop)]
pub(crate) struct Part {
    /// How many bytes of the library stand before the part.
    before: usize,
    bytes: Vec<u8>,
    /// The tokens of the part, with offsets from its beginning.
    scanner: Scanner,
    /// How many groups of the part are open.
    depth: usize,
    watch: Watch,
}

impl Model for Part {
    ghost use Rattle.cell_cursor.specs.Scanned.{Scanned};
    ghost use Rattle.cell_cursor.specs.Part.{scanned, IsInside};

    ghost Value = { Scanned };

    ghost view = { scanned };

    ghost invariant = { IsInside };
}

impl Part {
    /// A part of no bytes, which begins at this place.
    pub(crate) fn new(alloc: Global, before: usize, place: Place) -> Part
        ensures before { result.before ≡ before }
        ensures bytes { result.bytes ≡ [] }
        ensures tokens { result.tokens ≡ [] }
        ensures all { result ≡ all_scanned before [] }
    {
        Part {
            before,
            bytes: Vec::new(alloc),
            scanner: Scanner::new(alloc),
            depth: 0,
            watch: Watch::from(standing_at(place)),
        }
    }

    /// A part of no bytes, which begins at this place, with the memory of these bytes and tokens.
    pub(crate) fn with_room(
        before: usize,
        place: Place,
        mut bytes: Vec<u8>,
        tokens: Vec<Kept>,
    ) -> Part
        ensures before { result.before ≡ before }
        ensures bytes { result.bytes ≡ [] }
        ensures tokens { result.tokens ≡ [] }
    {
        bytes.clear();
        Part {
            before,
            bytes,
            scanner: Scanner::with_room(tokens),
            depth: 0,
            watch: Watch::from(standing_at(place)),
        }
    }

    /// The bytes of the library before this part.
    pub(crate) fn before(&self) -> usize
        ensures { result ≡ self.now.before }
    {
        self.before
    }

    /// The bytes of the part.
    pub(crate) fn bytes(&self) -> &[u8]
        ensures { result.now ≡ self.now.bytes }
    {
        self.bytes.as_slice()
    }

    /// How many bytes of the library stand before the part, and the bytes of the part.
    pub(crate) fn into_bytes(self) -> (usize, Vec<u8>)
        ensures before { result.0 ≡ self.before }
        ensures bytes { result.1.items ≡ self.bytes }
    {
        let Part { before, bytes, .. } = self;
        (before, bytes)
    }

    /// The bytes of the part, and the tokens that have ended in it.
    pub(crate) fn into_tokens(self) -> (Vec<u8>, Vec<Kept>)
        ensures bytes { result.0.items ≡ self.bytes }
        ensures tokens { result.1.items ≡ self.tokens }
        ensures inside { LieInside self.bytes self.tokens }
        ensures scanned { AreScanned self.bytes self.tokens self.mode }
        ensures all { self ≡ all_scanned self.before self.bytes }
    {
        let Part { bytes, scanner, .. } = self;
        (bytes, scanner.into_tokens())
    }

    /// The tokens that have ended in the part.
    pub(crate) fn tokens(&self) -> &[Kept]
        ensures tokens { result.now ≡ self.now.tokens }
        ensures inside { LieInside self.now.bytes result.now }
        ensures scanned { AreScanned self.now.bytes self.now.tokens self.now.mode }
    {
        self.scanner.tokens()
    }

    /// Scans the next bytes, up to the first one with which a token ends that is outside all groups of the part, and that one
    /// too. A group of the library does not end where no statement may have ended. Without memory the part is lost.
    pub(crate) fn scan(
        &mut self,
        alloc: Global,
        place: Place,
        bytes: &[u8],
    ) -> Result<Run, AllocError>
        requires { length self.old.bytes + length bytes.now < 2 ^ 64 }
        ensures before { self.new.before ≡ self.old.before }
        ensures count { IfOk result (λ run. run.count ≤ length bytes.now) }
        ensures some { IfOk result (λ run. 0 < length bytes.now → 0 < run.count) }
        ensures bytes { IfOk result (λ run. self.new.bytes ≡ self.old.bytes ++ take run.count bytes.now) }
        ensures lost { OnErr result (self.new.bytes ≡ []) }
        ensures mode { IfOk result (λ run. run.may_end ≡ true → self.new.mode ≡ Between false) }
        ensures scanned { AreScanned self.new.bytes self.new.tokens self.new.mode }
        ensures all { self.new ≡ all_scanned self.new.before self.new.bytes }
        ensures none_before { IfOk result (λ run. has_outer place (kinds_of self.old.tokens) ≡ false
            → NoneOuter place self.old.bytes bytes.now run.count) }
        ensures outer { IfOk result (λ run. has_outer place (kinds_of self.old.tokens) ≡ false
            → ShowsOuter run.may_end place (kinds_of self.new.tokens)) }
    {
        let ended = self.scanner.tokens().len();
        match scan_run(&mut self.bytes, &mut self.scanner, place, self.depth, bytes) {
            Ok(stretch) => {
                self.depth = stretch.depth;
                let tokens = self.scanner.tokens().get(ended..).unwrap_or(&[]);
                let sight = self.watch.see(&self.bytes, tokens);
                Ok(Run {
                    count: stretch.count,
                    may_end: stretch.may_end,
                    sight,
                })
            }
            Err(fault) => {
                self.bytes.clear();
                self.scanner = Scanner::new(alloc);
                self.depth = 0;
                Err(fault)
            }
        }
    }
}

/// A part of these bytes, before which so many others stand, with all of them scanned.
pub(crate) fn part_of(
    alloc: Global,
    before: usize,
    place: Place,
    bytes: &[u8],
) -> Result<Part, AllocError>
    ensures { IfOk result (λ part. part ≡ all_scanned before bytes.now) }
{
    let mut part = Part::new(alloc, before, place);
    let mut left = bytes;
    while !left.is_empty() {
        let run = part.scan(alloc, place, left)?;
        left = &left[run.count..];
    }
    Ok(part)
}

/// The same, or none where a statement may end in it.
pub(crate) fn scanned_part(
    alloc: Global,
    before: usize,
    place: Place,
    bytes: &[u8],
) -> Result<Option<Part>, AllocError>
    ensures before { IfOk result (λ found. IfSome found (λ part. part.before ≡ before)) }
    ensures bytes { IfOk result (λ found. IfSome found (λ part. part.bytes ≡ bytes.now)) }
    ensures inner { IfOk result (λ found. IfSome found (λ part. has_outer place (kinds_of part.tokens) ≡ false)) }
{
    let mut part = Part::new(alloc, before, place);
    let mut left = bytes;
    while !left.is_empty() {
        let run = part.scan(alloc, place, left)?;
        if run.may_end {
            return Ok(None);
        }
        left = &left[run.count..];
    }
    Ok(Some(part))
}

/// Where the next token stands at a place of a library.
fn standing_at(place: Place) -> Standing {
    match place {
        Place::Start => Standing::Start,
        Place::Inside => Standing::Statements(0),
        Place::Behind => Standing::Done,
    }
}

/// How many groups are open behind a token of this kind, where so many are open before it.
fn depth_behind(depth: usize, kind: TokenKind) -> usize
    requires { depth + 1 < 2 ^ 64 }
    ensures { result ≡ depth_behind depth kind }
{
    match kind {
        TokenKind::Brace(b'{') => depth + 1,
        TokenKind::Brace(b'}') => depth.saturating_sub(1),
        _ => depth,
    }
}

/// Whether a statement may have ended with a token of this kind, behind which so many groups of the part are open.
fn may_end(place: Place, kind: TokenKind, depth: usize) -> bool
    ensures outer { result ≡ false → (before : ℕ) → depth ≡ depth_behind before kind → is_outer place before kind ≡ false }
{
    match kind {
        TokenKind::Brace(b'{') => place != Place::Inside,
        TokenKind::Brace(b'}') | TokenKind::Semicolon => depth == 0 || place == Place::Behind,
        _ => false,
    }
}

/// Some bytes that were scanned: how many they are, how many groups of the part are open behind them, and whether a statement
/// may have ended with the last of them.
#[derive(Clone, Copy)]
struct Stretch {
    count: usize,
    depth: usize,
    may_end: bool,
}

/// The kind of the last of these tokens, where it is a brace of a group or a semicolon.
fn last_mark(tokens: &[Kept]) -> Option<TokenKind>
    ensures { result ≡ last_mark tokens.now }
{
    match tokens {
        [.., last] => mark_of(last.token().kind),
        [] => None,
    }
}

/// A kind, where it is that of a brace of a group or of a semicolon.
fn mark_of(kind: TokenKind) -> Option<TokenKind>
    ensures { result ≡ mark_of kind }
{
    match kind {
        TokenKind::Brace(b'{') | TokenKind::Brace(b'}') | TokenKind::Semicolon => Some(kind),
        _ => None,
    }
}

/// Scans more bytes, up to the first one with which a token ends or, inside a group, with which a brace of a group or a semicolon
/// ends, and that one too. How many they are.
#[tactic(auto, using(crate::proofs::RunTokens::none_unmarked))]
fn scan_some(
    scanner: &mut Scanner,
    is_inside: bool,
    at: usize,
    more: &[u8],
) -> Result<usize, AllocError>
    requires { at + length more.now < 2 ^ 64 }
    ensures count { IfOk result (λ count. count ≤ length more.now) }
    ensures some { IfOk result (λ count. 0 < length more.now → 0 < count) }
    ensures tokens { IfOk result (λ count. scanner.new.tokens.items ≡ scanner.old.tokens.items
        ++ tokens_ended scanner.old.mode at (take count more.now)) }
    ensures mode { IfOk result (λ count. scanner.new.mode ≡ mode_behind scanner.old.mode at (take count more.now)) }
    ensures none_before { IfOk result (λ count. (n : ℕ) → n < count
        → has_mark (tokens_ended scanner.old.mode at (take n more.now)) ≡ false) }
{
    if is_inside {
        return scanner.step_to_mark(at, more);
    }
    let count = scanner.step_on(at, more)?;
    Ok(count)
}

/// Scans some bytes as `scan_some` does. How many they are, and the kind of the token that ended last, if it is a brace of a
/// group or a semicolon.
fn scan_token(
    scanner: &mut Scanner,
    is_inside: bool,
    at: usize,
    more: &[u8],
) -> Result<(usize, Option<TokenKind>), AllocError>
    requires { at + length more.now < 2 ^ 64 }
    ensures count { IfOk result (λ run. run.0 ≤ length more.now) }
    ensures some { IfOk result (λ run. 0 < length more.now → 0 < run.0) }
    ensures tokens { IfOk result (λ run. scanner.new.tokens.items ≡ scanner.old.tokens.items
        ++ tokens_ended scanner.old.mode at (take run.0 more.now)) }
    ensures mode { IfOk result (λ run. scanner.new.mode ≡ mode_behind scanner.old.mode at (take run.0 more.now)) }
    ensures none_before { IfOk result (λ run. (n : ℕ) → n < run.0
        → has_mark (tokens_ended scanner.old.mode at (take n more.now)) ≡ false) }
    ensures kind { IfOk result (λ run. run.1 ≡ last_mark (tokens_ended scanner.old.mode at (take run.0 more.now))) }
{
    let ended = scanner.tokens().len();
    let count = scan_some(scanner, is_inside, at, more)?;
    let mark = last_mark(&scanner.tokens()[ended..]);
    Ok((count, mark))
}

/// Scans more bytes, up to the first one with which a token ends behind which no group of the part is open, and that one too.
fn scan_tokens(
    scanner: &mut Scanner,
    place: Place,
    depth: usize,
    at: usize,
    more: &[u8],
) -> Result<Stretch, AllocError>
    requires fits { at + length more.now < 2 ^ 64 }
    requires few { depth ≤ at }
    requires counted { depth ≡ depth_after 0 (kinds_of scanner.old.tokens.items) }
    ensures count { IfOk result (λ run. run.count ≤ length more.now) }
    ensures some { IfOk result (λ run. 0 < length more.now → 0 < run.count) }
    ensures tokens { IfOk result (λ run. scanner.new.tokens.items ≡ scanner.old.tokens.items
        ++ tokens_ended scanner.old.mode at (take run.count more.now)) }
    ensures mode { IfOk result (λ run. scanner.new.mode ≡ mode_behind scanner.old.mode at (take run.count more.now)) }
    ensures few { IfOk result (λ run. run.depth ≤ at + run.count) }
    ensures counted { IfOk result (λ run. run.depth ≡ depth_after 0 (kinds_of scanner.new.tokens.items)) }
    ensures closes { IfOk result (λ run. run.may_end ≡ true → scanner.new.mode ≡ Between false) }
    ensures none_before { IfOk result (λ run. has_outer place (kinds_of scanner.old.tokens.items) ≡ false
        → NoneOuterEnds place scanner.old.tokens.items scanner.old.mode at more.now run.count) }
    ensures outer { IfOk result (λ run. has_outer place (kinds_of scanner.old.tokens.items) ≡ false
        → ShowsOuter run.may_end place (kinds_of scanner.new.tokens.items)) }
{
    let mut open = depth;
    let mut count = 0;
    while count < more.len() {
        let (_, left) = more.split_at(count);
        let (taken, kind) = scan_token(scanner, open > 0, at + count, left)?;
        count += taken;
        if let Some(kind) = kind {
            open = depth_behind(open, kind);
            let may_end = may_end(place, kind, open);
            if may_end || open == 0 {
                return Ok(Stretch {
                    count,
                    depth: open,
                    may_end,
                });
            }
        } else if open == 0 {
            return Ok(Stretch {
                count,
                depth: open,
                may_end: false,
            });
        }
    }
    Ok(Stretch {
        count,
        depth: open,
        may_end: false,
    })
}

/// Scans more bytes as `scan_tokens` does, behind these bytes, and adds them.
fn scan_run(
    bytes: &mut Vec<u8>,
    scanner: &mut Scanner,
    place: Place,
    depth: usize,
    more: &[u8],
) -> Result<Stretch, AllocError>
    requires fits { length bytes.old.items + length more.now < 2 ^ 64 }
    requires few { depth ≤ length bytes.old.items }
    requires counted { depth ≡ depth_after 0 (kinds_of scanner.old.tokens.items) }
    ensures count { IfOk result (λ run. run.count ≤ length more.now) }
    ensures some { IfOk result (λ run. 0 < length more.now → 0 < run.count) }
    ensures bytes { IfOk result (λ run. bytes.new.items ≡ bytes.old.items ++ take run.count more.now) }
    ensures tokens { IfOk result (λ run. scanner.new.tokens.items ≡ scanner.old.tokens.items
        ++ tokens_ended scanner.old.mode (length bytes.old.items) (take run.count more.now)) }
    ensures mode { IfOk result (λ run. scanner.new.mode ≡ mode_behind scanner.old.mode (length bytes.old.items)
        (take run.count more.now)) }
    ensures few { IfOk result (λ run. run.depth ≤ length bytes.old.items + run.count) }
    ensures counted { IfOk result (λ run. run.depth ≡ depth_after 0 (kinds_of scanner.new.tokens.items)) }
    ensures closes { IfOk result (λ run. run.may_end ≡ true → scanner.new.mode ≡ Between false) }
    ensures none_before { IfOk result (λ run. has_outer place (kinds_of scanner.old.tokens.items) ≡ false
        → NoneOuterEnds place scanner.old.tokens.items scanner.old.mode (length bytes.old.items) more.now run.count) }
    ensures outer { IfOk result (λ run. has_outer place (kinds_of scanner.old.tokens.items) ≡ false
        → ShowsOuter run.may_end place (kinds_of scanner.new.tokens.items)) }
{
    let run = scan_tokens(scanner, place, depth, bytes.len(), more)?;
    bytes.extend_from_slice(&more[..run.count])?;
    Ok(run)
}
