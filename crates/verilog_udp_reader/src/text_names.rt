//! Names that are declared, as they stand in a text.

ghost use Rattle.std.specs.Prelude.{◌≡◌, [], ◌∷◌, ◌++◌, false, map, IfOk, IfErr, OnOk};
ghost use Rattle.std.specs.List.{list_any};
ghost use Rattle.std.specs.Str.{bytes_eq};
ghost use Rattle.grammar_reader.specs.Reading.{read, ReadsAs};
ghost use Rattle.udp_tables.specs.VerilogRules as spec;

use crate::language::Cursor;
use bool_functions::Names;
use cell_machine::Few;
use grammar_reader::{Read, Refusal, Stop};
use std::alloc::Global;
use std::marker::Model;
use verilog_tokens::is_name;

/// How many names of a list are compared one by one.
const NEAR: usize = 16;

/// Names that are declared, as they stand in a text, in order. Contracts see the list of them. The first of them are compared one
/// by one, which takes no memory; those behind them stand in a list that finds a name at once.
#[derive(Drop)]
pub struct TextNames<'a> {
    near: Few<&'a [u8], 16>,
    far: Names,
}

impl<'a> Model for TextNames<'a> {
    ghost use Rattle.std.specs.Prelude.{ℕ, List, map, ◌++◌};

    ghost Value = { List (List ℕ) };

    ghost view = { λ t. map (λ name. name.now) t.near ++ t.far };
}

/// Whether a name is one of these.
#[inline(always)]
fn is_one(names: &[&[u8]], name: &[u8]) -> bool
    ensures { result ≡ list_any (bytes_eq name.now) (map (λ other. other.now) names.now) }
{
    for other in names {
        if name == *other {
            return true;
        }
    }
    false
}

/// Whether a name is in a list that finds it at once.
#[inline(always)]
#[tactic(auto, using(crate::proofs::NearNames::numbered))]
fn is_found(names: &Names, name: &[u8]) -> bool
    ensures { result ≡ list_any (bytes_eq name.now) names.now }
{
    names.number(name).is_some()
}

/// Adds a name to a list that finds it at once, where it is none of them.
#[inline(always)]
#[tactic(auto, using(crate::proofs::NearNames::added))]
fn add_far(far: &mut Names, name: &[u8]) -> Result<(), Stop>
    requires { list_any (bytes_eq name.now) far.old ≡ false }
    ensures more { OnOk result (far.new ≡ far.old ++ name.now ∷ []) }
    ensures memory { IfErr result (λ stop. stop ≡ Stop.Memory) }
{
    match far.add(name) {
        Ok(_) => Ok(()),
        Err(_) => Err(Stop::Memory),
    }
}

impl<'a> TextNames<'a> {
    ghost use Rattle.std.specs.Prelude.{◌≡◌, [], ◌∷◌, ◌++◌, false, IfErr, OnOk};
    ghost use Rattle.udp_tables.specs.VerilogRules.{is_among};

    /// No names. Takes no memory.
    pub fn new(alloc: Global) -> TextNames<'a>
        ensures { result ≡ [] }
    {
        TextNames {
            near: Few::new(&[]),
            far: Names::new(alloc),
        }
    }

    /// Whether a name is one of these, in the time of one look-up.
    #[inline(always)]
    #[tactic(auto, using(crate::proofs::NearNames::any_parted, crate::proofs::NearNames::none_of_none))]
    pub fn has(&self, name: &[u8]) -> bool
        ensures { result ≡ is_among self.now name.now }
    {
        is_one(self.near.as_slice(), name) || self.far.len() > 0 && is_found(&self.far, name)
    }

    /// Puts one more name behind these, which is none of them.
    #[inline(always)]
    #[tactic(auto, using(crate::proofs::NearNames::near_kept, crate::proofs::NearNames::far_kept, crate::proofs::NearNames::none_far))]
    pub fn add(&mut self, name: &'a [u8]) -> Result<(), Stop>
        requires { is_among self.old name.now ≡ false }
        ensures added { OnOk result (self.new ≡ self.old ++ name.now ∷ []) }
        ensures memory { IfErr result (λ stop. stop ≡ Stop.Memory) }
    {
        if self.near.as_slice().len() < NEAR && self.far.len() == 0 {
            self.near.push(name);
            return Ok(());
        }
        add_far(&mut self.far, name)
    }
}

/// A name that is declared here, and is none of these, as it stands in the text.
#[inline(always)]
#[tactic(auto, using(crate::proofs::NewNames::new_fits, crate::proofs::NewNames::new_taken, crate::proofs::NewNames::new_other))]
pub fn new_name<'a>(cursor: &mut Cursor<'a>, names: &TextNames<'_>) -> Read<&'a [u8]>
    ensures reads { ReadsAs (λ name. name.now) (read (spec.new_name names.now) cursor.old) result cursor.new }
    ensures fresh { IfOk result (λ name. spec.is_among names.now name.now ≡ false) }
{
    let token = cursor.bytes();
    if !is_name(token) {
        return Err(Stop::Refused(Refusal::Syntax));
    }
    if names.has(token) {
        return Err(Stop::Refused(Refusal::Twice));
    }
    cursor.skip();
    Ok(token)
}
