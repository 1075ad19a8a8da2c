//! The value changes of a dump, in the order of their times.
ghost use Rattle.std.specs.Prelude.{◌≡◌, ◌++◌, [], None, OnOk};
ghost use Rattle.wave_reports.specs.Changes as spec;

use crate::sections::{Section, ValueChange};
use crate::texts::push_pieces;
use bool_functions::Names;
use itoa::Buffer;
use std::alloc::{AllocError, Global};
use std::collections::BTreeMap;

/// Whether the time is that of the change before.
fn is_last(last: Option<u64>, at: u64) -> bool
    ensures { result ≡ spec.is_last last at }
{
    match last {
        Some(last) => last == at,
        None => false,
    }
}

/// Appends a time.
#[tactic(auto, unfolding(crate::specs::Changes::stamp))]
fn push_stamp(text: &mut Vec<u8>, at: u64) -> Result<(), AllocError>
    ensures { OnOk result (text.new.items ≡ text.old.items ++ spec.stamp at) }
{
    let mut digits = Buffer::new();
    push_pieces(text, &[b"#", digits.format(at).as_bytes(), b"\n"])
}

/// Appends a time, where it is not that of the change before.
fn push_time(text: &mut Vec<u8>, last: Option<u64>, at: u64) -> Result<(), AllocError>
    ensures { OnOk result (text.new.items ≡ text.old.items ++ spec.time_text last at) }
{
    if is_last(last, at) {
        return Ok(());
    }
    push_stamp(text, at)
}

/// The key with this number.
fn key_at(keys: &Names, number: usize) -> &[u8]
    ensures { result.now ≡ spec.key_at keys.now number }
{
    if number < keys.len() {
        keys.name(number)
    } else {
        b""
    }
}

/// Appends the level of a signal.
#[tactic(auto, unfolding(crate::specs::Changes::level_text))]
fn push_level(text: &mut Vec<u8>, section: usize, key: &[u8], value: u8) -> Result<(), AllocError>
    ensures { OnOk result (text.new.items ≡ text.old.items ++ spec.level_text section key.now value) }
{
    let mut digits = Buffer::new();
    let number = digits.format(section).as_bytes();
    push_pieces(text, &[&[value], number, key, b"\n"])
}

/// Appends a signal's level at a time.
#[tactic(auto, unfolding(crate::specs::Changes::change_text))]
fn push_change(
    text: &mut Vec<u8>,
    section: usize,
    keys: &Names,
    last: Option<u64>,
    moment: (u64, usize),
    change: ValueChange,
) -> Result<(), AllocError>
    ensures { OnOk result (text.new.items ≡ text.old.items ++ spec.change_text section keys.now last (moment, change)) }
{
    push_time(text, last, moment.0)?;
    push_level(text, section, key_at(keys, moment.1), change.value)
}

/// Whether no line behind the one that tells this told of the signal what showed before.
fn stands(latest: &BTreeMap<usize, usize>, moment: (u64, usize), change: ValueChange) -> bool
    ensures { result ≡ spec.stands latest.now.entries (moment, change) }
{
    match latest.get(&moment.1) {
        Some(line) => *line <= change.line,
        None => true,
    }
}

/// Appends what a section with this number tells of its signals.
pub(crate) fn push_changes(
    alloc: Global,
    text: &mut Vec<u8>,
    section: &Section,
    number: usize,
) -> Result<(), AllocError>
    ensures { OnOk result (text.new.items ≡ text.old.items
        ++ spec.changes_text number section.now.keys [] None section.now.changes.entries) }
{
    let mut latest = BTreeMap::new(alloc);
    push_standing(text, section, number, &mut latest)
}

/// The same, where these lines were the last to tell what has shown of each signal.
fn push_standing(
    text: &mut Vec<u8>,
    section: &Section,
    number: usize,
    latest: &mut BTreeMap<usize, usize>,
) -> Result<(), AllocError>
    ensures { OnOk result (text.new.items ≡ text.old.items
        ++ spec.changes_text number section.now.keys latest.old.entries None section.now.changes.entries) }
{
    let mut last = None;
    for (moment, change) in section.changes.iter() {
        if stands(latest, *moment, *change) {
            push_change(text, number, &section.keys, last, *moment, *change)?;
            latest.insert(moment.1, change.line)?;
            last = Some(moment.0);
        }
    }
    Ok(())
}
