//! The declarations of a value change dump.
ghost use Rattle.std.specs.Prelude.{◌≡◌, ◌++◌, OnOk};
ghost use Rattle.wave_reports.specs.Definitions as spec;

use crate::sections::INPUTS;
use crate::texts::push_pieces;
use bool_functions::Names;
use itoa::Buffer;
use std::alloc::{AllocError, Global};

/// What stands ahead of a name in its declaration: a backslash where a wire's begins as a keyword does, and a word where it is
/// that of an event, which is all of it where the name is empty.
fn front(mark: u8, name: &[u8]) -> &'static [u8]
    ensures { result.now ≡ spec.front mark name.now }
{
    match (mark == b'=', name.first()) {
        (true, Some(b'$')) => b"\\",
        (true, _) => b"",
        (false, Some(_)) => b"check",
        (false, None) => b"differs",
    }
}

/// What a signal is by its mark.
fn kind(mark: u8) -> &'static [u8]
    ensures { result.now ≡ spec.kind mark }
{
    if mark == b'=' { b"wire" } else { b"event" }
}

/// Appends a declaration of this kind, with a name in two parts.
#[tactic(auto, unfolding(crate::specs::Definitions::declaration))]
fn push_declaration<'a>(
    text: &mut Vec<u8>,
    section: usize,
    key: &'a [u8],
    kind: &'a [u8],
    front: &'a [u8],
    name: &'a [u8],
) -> Result<(), AllocError>
    ensures { OnOk result (text.new.items ≡ text.old.items ++ spec.declaration section key.now kind.now front.now name.now) }
{
    let mut digits = Buffer::new();
    let number = digits.format(section).as_bytes();
    push_pieces(
        text,
        &[
            b"$var ", kind, b" 1 ", number, key, b" ", front, name, b" $end\n",
        ],
    )
}

/// Appends the declaration of a signal by its key, where it is of this scope.
fn push_signal(text: &mut Vec<u8>, section: usize, scope: u8, key: &[u8]) -> Result<(), AllocError>
    ensures { OnOk result (text.new.items ≡ text.old.items ++ spec.signal_text section scope key.now) }
{
    let Some((first, rest)) = key.split_first() else {
        return Ok(());
    };
    match rest.split_first() {
        Some((mark, name)) if *first == scope => {
            push_declaration(text, section, key, kind(*mark), front(*mark, name), name)
        }
        _ => Ok(()),
    }
}

/// Appends the declarations of the signals of a scope.
fn push_signals(
    text: &mut Vec<u8>,
    section: usize,
    scope: u8,
    keys: &Names,
) -> Result<(), AllocError>
    ensures { OnOk result (text.new.items ≡ text.old.items ++ spec.signals_text section scope keys.now) }
{
    for place in 0..keys.len() {
        push_signal(text, section, scope, keys.name(place))?;
    }
    Ok(())
}

/// Appends a scope around the declarations of its signals, where there are any.
fn push_scope(
    alloc: Global,
    text: &mut Vec<u8>,
    section: usize,
    scope: u8,
    keys: &Names,
) -> Result<(), AllocError>
    ensures { OnOk result (text.new.items ≡ text.old.items ++ spec.within scope (spec.signals_text section scope keys.now)) }
{
    let mut signals = Vec::new(alloc);
    push_signals(&mut signals, section, scope, keys)?;
    push_within(text, scope, signals.as_slice())
}

/// Appends a scope around declarations, where there are any.
fn push_within(text: &mut Vec<u8>, scope: u8, signals: &[u8]) -> Result<(), AllocError>
    ensures { OnOk result (text.new.items ≡ text.old.items ++ spec.within scope signals.now) }
{
    if signals.is_empty() {
        return Ok(());
    }
    push_around(text, scope, signals)
}

/// Appends a scope around declarations.
#[tactic(auto, unfolding(crate::specs::Definitions::around))]
fn push_around(text: &mut Vec<u8>, scope: u8, signals: &[u8]) -> Result<(), AllocError>
    ensures { OnOk result (text.new.items ≡ text.old.items ++ spec.around scope signals.now) }
{
    push_pieces(
        text,
        &[
            b"$scope module ",
            &[scope],
            b" $end\n",
            signals,
            b"$upscope $end\n",
        ],
    )
}

/// Appends the begin of a section's scope.
#[tactic(auto, unfolding(crate::specs::Definitions::section_begin))]
pub(crate) fn push_section_begin(
    text: &mut Vec<u8>,
    section: usize,
    name: &[u8],
) -> Result<(), AllocError>
    ensures { OnOk result (text.new.items ≡ text.old.items ++ spec.section_begin section name.now) }
{
    let mut digits = Buffer::new();
    let number = digits.format(section).as_bytes();
    push_pieces(text, &[b"$scope module s", number, b"_", name, b" $end\n"])
}

/// Appends what is declared in a section's scope, and its end.
#[tactic(auto, unfolding(crate::specs::Definitions::section_end))]
pub(crate) fn push_section_end(
    alloc: Global,
    text: &mut Vec<u8>,
    section: usize,
    keys: &Names,
) -> Result<(), AllocError>
    ensures { OnOk result (text.new.items ≡ text.old.items ++ spec.section_end section keys.now) }
{
    push_signals(text, section, INPUTS, keys)?;
    push_scope(alloc, text, section, b'L', keys)?;
    push_scope(alloc, text, section, b'V', keys)?;
    push_scope(alloc, text, section, b'H', keys)?;
    text.extend_from_slice(b"$upscope $end\n")?;
    Ok(())
}
