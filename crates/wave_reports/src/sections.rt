//! What a section of a report shows: its signals, and the changes of each at their times.
ghost use Rattle.std.specs.Prelude.{◌≡◌, ◌∷◌, [], IfOk, OnOk};
ghost use Rattle.std.specs.Option.{option_map, option_copied};
ghost use Rattle.wave_reports.specs.Pieces.{pieces_left};
ghost use Rattle.wave_reports.specs.Signs.{seen as sign_seen};
ghost use Rattle.wave_reports.specs.Traces.{seen as trace_seen, seen_input, trace_of as trace_of_line};
ghost use Rattle.wave_reports.specs.Sections as spec;

use crate::lines::ReportLine;
use crate::pieces::cut;
use crate::signs::{Sign, sign_of};
use crate::texts::push_pieces;
use crate::traces::{Input, Trace, trace_of};
use bool_functions::Names;
use std::alloc::{AllocError, Global};
use std::collections::BTreeMap;

/// The first byte of an input's key, and of the key of the event that two lines differ.
pub(crate) const INPUTS: u8 = b'.';

/// What is told of a signal at a time.
#[derive(Clone, Copy)]
pub(crate) struct ValueChange {
    /// The number of the line that tells it.
    pub line: usize,
    /// The byte of the level.
    pub value: u8,
}

/// What a section shows.
#[derive(Drop)]
pub(crate) struct Section {
    /// The keys of its signals: `L`, `V` or `H` of an output or a check and `.` of an input, then its mark and its name.
    pub keys: Names,
    /// What is told at a time of the signal with a number among the keys.
    pub changes: BTreeMap<(u64, usize), ValueChange>,
    /// The latest time at which something is told.
    pub end: u64,
}

impl Section {
    /// A section that begins at this time. It takes no memory.
    pub(crate) fn new(alloc: Global, start: u64) -> Section
        ensures { spec.drawn result ≡ spec.blank start }
    {
        Section {
            keys: Names::new(alloc),
            changes: BTreeMap::new(alloc),
            end: start,
        }
    }

    /// Adds what a line tells of a signal at a time, in the place of what an earlier line told of it.
    #[tactic(auto, unfolding(crate::specs::Sections::with_change))]
    fn add(&mut self, line: usize, at: u64, key: &[u8], value: u8) -> Result<(), AllocError>
        ensures { OnOk result (spec.drawn self.new ≡ spec.with_change (spec.drawn self.old) line at key.now value) }
    {
        let number = number_in(&mut self.keys, key)?;
        self.changes
            .insert((at, number), ValueChange { line, value })?;
        self.end = self.end.max(at);
        Ok(())
    }

    /// Adds what a line tells of a signal, where it tells when.
    fn add_delayed(
        &mut self,
        line: usize,
        at: u64,
        delay: Option<u64>,
        key: &[u8],
        value: u8,
    ) -> Result<(), AllocError>
        ensures { OnOk result (spec.drawn self.new ≡ spec.with_delayed (spec.drawn self.old) line at delay key.now value) }
    {
        match delay {
            Some(delay) => self.add(line, at.saturating_add(delay), key, value),
            None => Ok(()),
        }
    }

    /// Adds what a word tells of an output or of a check.
    fn add_sign(
        &mut self,
        alloc: Global,
        line: usize,
        at: u64,
        trace: &Trace<'_>,
        sign: Option<Sign<'_>>,
    ) -> Result<(), AllocError>
        ensures { OnOk result (spec.drawn self.new ≡ spec.with_sign (spec.drawn self.old) line at trace.now.tag
            (option_map seen_input trace.now.change) (option_map sign_seen sign.entry)) }
    {
        match sign {
            Some(sign) => {
                let key = key_of(alloc, trace.tag, sign.mark, sign.name)?;
                let delay = delay_shown(trace.change, sign.delay);
                self.add_delayed(line, at, delay, key.as_slice(), sign.value)
            }
            None => Ok(()),
        }
    }

    /// Adds what the words of a line tell.
    fn add_signs(
        &mut self,
        alloc: Global,
        line: usize,
        at: u64,
        trace: &Trace<'_>,
    ) -> Result<(), AllocError>
        ensures { OnOk result (spec.drawn self.new ≡ spec.with_signs (spec.drawn self.old) line at trace.now.tag
            (option_map seen_input trace.now.change) (pieces_left 32 (option_copied trace.now.words))) }
    {
        let mut rest = trace.words;
        while let Some(text) = rest {
            let (word, more) = cut(text, b' ');
            self.add_sign(alloc, line, at, trace, sign_of(word))?;
            rest = more;
        }
        Ok(())
    }

    /// Adds the change of an input.
    fn add_input(
        &mut self,
        alloc: Global,
        line: usize,
        at: u64,
        change: Option<Input<'_>>,
    ) -> Result<(), AllocError>
        ensures { OnOk result (spec.drawn self.new ≡ spec.with_input (spec.drawn self.old) line at
            (option_map seen_input change.entry)) }
    {
        match change {
            Some(input) => {
                let key = key_of(alloc, INPUTS, b'=', input.name)?;
                self.add(line, at, key.as_slice(), input.value)
            }
            None => Ok(()),
        }
    }

    /// Adds the event that two lines differ.
    fn add_difference(&mut self, line: usize, at: u64, differs: bool) -> Result<(), AllocError>
        ensures { OnOk result (spec.drawn self.new ≡ spec.with_difference (spec.drawn self.old) line at differs) }
    {
        if differs {
            self.add(line, at, b".!", b'1')?;
        }
        Ok(())
    }

    /// Adds what a line of a trace tells, behind the line before it, in a section that begins at this time.
    pub(crate) fn add_trace(
        &mut self,
        alloc: Global,
        start: u64,
        line: &ReportLine<'_>,
        trace: &Trace<'_>,
    ) -> Result<(), AllocError>
        ensures { OnOk result (spec.drawn self.new ≡ spec.with_trace (spec.drawn self.old) start line.now.number
            line.now.previous.now line.now.bytes.now (trace_seen trace.now)) }
    {
        let at = start.saturating_add(trace.at);
        self.add_difference(line.number, at, differs_from(trace, line))?;
        self.add_input(alloc, line.number, at, trace.change)?;
        self.add_signs(alloc, line.number, at, trace)
    }
}

/// The number of a key among these, to which it is added where it is new.
fn number_in(keys: &mut Names, key: &[u8]) -> Result<usize, AllocError>
    ensures number { IfOk result (λ number. number ≡ spec.key_number keys.old key.now) }
    ensures keys { OnOk result (keys.new ≡ spec.with_key keys.old key.now) }
{
    match keys.number(key) {
        Some(number) => Ok(number),
        None => {
            let number = keys.len();
            keys.add(key)?;
            Ok(number)
        }
    }
}

/// The key of a signal.
fn key_of(alloc: Global, scope: u8, mark: u8, name: &[u8]) -> Result<Vec<u8>, AllocError>
    ensures { IfOk result (λ key. key.items ≡ scope ∷ mark ∷ name.now) }
{
    let mut key = Vec::new(alloc);
    push_pieces(&mut key, &[&[scope, mark], name])?;
    Ok(key)
}

/// The delay of what is told at the start, where nothing is old, or at a change.
fn delay_shown(change: Option<Input<'_>>, delay: Option<u64>) -> Option<u64>
    ensures { result ≡ spec.delay_shown (option_map seen_input change.entry) delay }
{
    match change {
        Some(_) => delay,
        None => Some(delay.unwrap_or(0)),
    }
}

/// The place of a tag among those of one time.
fn rank(tag: u8) -> u8
    ensures { result ≡ spec.rank tag }
{
    match tag {
        b'L' => 0,
        b'V' => 1,
        _ => 2,
    }
}

/// What stands behind the first byte of a line.
fn behind_first(line: &[u8]) -> &[u8]
    ensures { result.now ≡ spec.behind_first line.now }
{
    match line.split_first() {
        Some((_, rest)) => rest,
        None => line,
    }
}

/// Whether the line before is one of another trace at the same time, and differs from this one behind the tag.
fn differs_from(trace: &Trace<'_>, line: &ReportLine<'_>) -> bool
    ensures { result ≡ spec.differs_from (trace_seen trace.now) line.now.bytes.now (trace_of_line line.now.previous.now)
        line.now.previous.now }
{
    match trace_of(line.previous) {
        Some(before) => {
            rank(before.tag) < rank(trace.tag)
                && before.at == trace.at
                && behind_first(line.previous) != behind_first(line.bytes)
        }
        None => false,
    }
}
