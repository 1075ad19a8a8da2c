//! A desk in front of another one, which lets no call through behind the first that failed.

ghost use Rattle.std.specs.Prelude.{◌≡◌, ◌<◌, ◌≤◌, ℕ, [], List, length, take, IsTrue, IsOk, IfOk, IfSome, OnOk, OnErr, Contains};
ghost use Rattle.text_io.specs.declared.slots.Slot.TheVariants.{Input, Output};
ghost use Rattle.text_io.specs.Plan.{plan};
ghost use Rattle.text_io.specs.Desk.{is_bound, opened, created, took, wrote, IsFileAt, HasCause};
ghost use Rattle.text_io.specs.Gate.{behind, failures};

use crate::outside::{Desk, Failed};
use crate::slots::{InSlot, OutSlot};

/// A desk in front of another one. It hands calls on until one fails; from then on it refuses each call, a write of no bytes
/// aside, which does nothing. It counts the call that failed and those that it refused, up to 2^64 - 1: a count of 1 tells
/// that no call was made behind the one that failed.
#[derive(Drop)]
pub struct GatedDesk<D> {
    desk: D,
    failures: u64,
}

impl<D> GatedDesk<D> {
    /// A gate in front of this desk, through which no call has gone yet.
    pub fn new(desk: D) -> GatedDesk<D>
        ensures behind { behind result ≡ desk }
        ensures failures { failures result ≡ 0 }
    {
        GatedDesk { desk, failures: 0 }
    }

    /// How many calls failed or were refused, up to 2^64 - 1.
    pub fn failures(&self) -> u64
        ensures { result ≡ failures self.now }
    {
        self.failures
    }

    /// Refuses a call where one has failed before.
    fn pass(&mut self) -> Result<(), Failed>
        ensures open { OnOk result (failures self.old ≡ 0) }
        ensures closed { OnErr result (0 < failures self.old) }
        ensures behind { behind self.new ≡ behind self.old }
        ensures cause { HasCause (failures self.old) (failures self.new) result }
    {
        if self.failures > 0 {
            return counted(&mut self.failures, Err(Failed));
        }
        Ok(())
    }
}

/// What a call came to, which is counted where it failed or is refused.
fn counted<T>(failures: &mut u64, outcome: Result<T, Failed>) -> Result<T, Failed>
    ensures same { result ≡ outcome }
    ensures cause { HasCause failures.old failures.new result }
{
    match outcome {
        Ok(value) => Ok(value),
        Err(Failed) => {
            *failures = failures.saturating_add(1);
            Err(Failed)
        }
    }
}

impl<D: Desk> Desk for GatedDesk<D> {
    ghost state = { λ gate. D.state (behind gate) };

    ghost faults = { λ gate. failures gate };

    fn word(&self, place: usize) -> Option<&str> {
        self.desk.word(place)
    }

    fn bind_in(&mut self, slot: InSlot, place: usize) -> Result<(), Failed>
        requires { Contains (plan (D.state (behind self.old)).words) (Input slot, place) }
        ensures ok { OnOk result ((bytes : List ℕ) × IsFileAt (D.state (behind self.old)) place bytes
            × (D.state (behind self.new) ≡ opened (D.state (behind self.old)) slot bytes)) }
        ensures err { OnErr result (D.state (behind self.new) ≡ D.state (behind self.old)) }
        ensures cause { HasCause (failures self.old) (failures self.new) result }
        ensures closed { 0 < failures self.old → behind self.new ≡ behind self.old }
    {
        self.pass()?;
        counted(&mut self.failures, self.desk.bind_in(slot, place))
    }

    fn read(&mut self, slot: InSlot, into: &mut [u8]) -> Result<usize, Failed>
        requires { IsTrue (is_bound (D.state (behind self.old)) (Input slot)) }
        ensures at_most { IfOk result (λ count. count ≤ length into.new) }
        ensures front { IfOk result (λ count. IfSome ((D.state (behind self.old)).left slot)
            (λ left. (take count into.new ≡ take count left) × (count ≤ length left))) }
        ensures end { IfOk result (λ count. count ≡ 0 → 0 < length into.new
            → IfSome ((D.state (behind self.old)).left slot) (λ left. left ≡ [])) }
        ensures ok { IfOk result (λ count. D.state (behind self.new) ≡ took (D.state (behind self.old)) slot count) }
        ensures err { OnErr result (D.state (behind self.new) ≡ D.state (behind self.old)) }
        ensures cause { HasCause (failures self.old) (failures self.new) result }
        ensures closed { 0 < failures self.old → behind self.new ≡ behind self.old }
    {
        self.pass()?;
        counted(&mut self.failures, self.desk.read(slot, into))
    }

    fn bind_out(&mut self, slot: OutSlot, place: usize) -> Result<(), Failed>
        requires { Contains (plan (D.state (behind self.old)).words) (Output slot, place) }
        ensures ok { OnOk result (D.state (behind self.new) ≡ created (D.state (behind self.old)) slot) }
        ensures err { OnErr result (D.state (behind self.new) ≡ D.state (behind self.old)) }
        ensures cause { HasCause (failures self.old) (failures self.new) result }
        ensures closed { 0 < failures self.old → behind self.new ≡ behind self.old }
    {
        self.pass()?;
        counted(&mut self.failures, self.desk.bind_out(slot, place))
    }

    fn write(&mut self, slot: OutSlot, bytes: &[u8]) -> Result<usize, Failed>
        requires { IsTrue (is_bound (D.state (behind self.old)) (Output slot)) }
        ensures at_most { IfOk result (λ count. count ≤ length bytes.now) }
        ensures some { IfOk result (λ count. 0 < length bytes.now → 0 < count) }
        ensures never { length bytes.now ≡ 0 → IsOk result }
        ensures ok { IfOk result (λ count. D.state (behind self.new) ≡ wrote (D.state (behind self.old)) slot
            (take count bytes.now)) }
        ensures err { OnErr result (D.state (behind self.new) ≡ D.state (behind self.old)) }
        ensures cause { HasCause (failures self.old) (failures self.new) result }
        ensures closed { 0 < failures self.old → behind self.new ≡ behind self.old }
    {
        if bytes.is_empty() {
            return Ok(0);
        }
        self.pass()?;
        counted(&mut self.failures, self.desk.write(slot, bytes))
    }
}
