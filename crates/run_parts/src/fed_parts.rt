//! The parts of a model that its inputs feed, in both languages.
ghost use Rattle.std.specs.Prelude.{◌≡◌, ◌||◌, ℕ, List, [], ◌∷◌, ◌++◌, Option as OptionOf, length, cond, nat_eq, IfOk, OnOk};
ghost use Rattle.udp_tables.specs.declared.models.VPort.{VPort as PortOf};
ghost use Rattle.run_parts.specs.PortNumbers.{input_count};
ghost use Rattle.run_parts.specs.FedParts.{is_number, is_among, places_fed};
ghost use Rattle.run_parts.specs.NumberedLists.{AreLists, AddsPlace};

use crate::numbered_lists::{add, empty_lists};
use crate::ports::{Ports, input_count};
use sqlite_items::Items;
use std::alloc::{AllocError, Global};

/// A kind of parts of a model, each of which reads nets.
pub trait FedPart {
    /// A part.
    type Part: Drop;

    /// A net, which may be an input.
    type Net: Copy;

    /// The nets that a part reads.
    ghost nets: { Self.Part → List Self.Net };

    /// The number of the input that a net is, where it is one.
    ghost input: { List PortOf → Self.Net → OptionOf ℕ };

    /// The nets that a part reads.
    fn nets(part: &Self::Part) -> &[Self::Net]
        ensures { result.now ≡ nets part.now };

    /// The number of the input that a net is, where it is one.
    fn input(ports: &Ports, net: Self::Net) -> Option<usize>
        ensures { result ≡ input ports.now.list.now net };
}

/// For each input of a model the places of the parts that it feeds, in order. `AllocError` comes only where memory is wanted and
/// not there.
pub fn fed_by_inputs<F: FedPart>(
    alloc: Global,
    ports: &Ports,
    parts: &[F::Part],
) -> Result<Items<Items<usize>>, AllocError>
    ensures lists { IfOk result (λ all. AreLists (places_fed F.nets (F.input ports.now.list.now) parts.now) all) }
    ensures len { IfOk result (λ all. length all ≡ input_count ports.now.list.now) }
{
    let mut all = empty_lists(alloc, input_count(ports.list))?;
    for i in 0..parts.len() {
        add_nets::<F>(&mut all, ports, F::nets(&parts[i]), i)?;
    }
    Ok(Items::from_vec(all))
}

/// Adds the place of a part that reads these nets to the lists of the inputs among them, once to each.
fn add_nets<F: FedPart>(
    all: &mut Vec<Items<usize>>,
    ports: &Ports,
    nets: &[F::Net],
    place: usize,
) -> Result<(), AllocError>
    ensures lists { OnOk result ((lists : ℕ → List ℕ) → AreLists lists all.old.items
        → AreLists (λ n. lists n ++ cond (is_among (F.input ports.now.list.now) nets.now n) (place ∷ []) []) all.new.items) }
    ensures len { OnOk result (length all.new.items ≡ length all.old.items) }
{
    for j in 0..nets.len() {
        add_net::<F>(all, ports, &nets[..j], nets[j], place)?;
    }
    Ok(())
}

/// Adds the place of a part to the list of the input that this net of it is, where none of the earlier nets is that input. A part
/// reads few nets.
fn add_net<F: FedPart>(
    all: &mut Vec<Items<usize>>,
    ports: &Ports,
    earlier: &[F::Net],
    net: F::Net,
    place: usize,
) -> Result<(), AllocError>
    ensures lists { OnOk result (AddsPlace (is_among (F.input ports.now.list.now) earlier.now)
        (λ n. is_among (F.input ports.now.list.now) earlier.now n || is_number n (F.input ports.now.list.now net)) place
        all.old.items all.new.items) }
    ensures len { OnOk result (length all.new.items ≡ length all.old.items) }
{
    let Some(input) = F::input(ports, net) else {
        return Ok(());
    };
    if is_among::<F>(ports, earlier, input) {
        return Ok(());
    }
    add(all, input, place)
}

/// Whether the input with this number is one of these nets.
fn is_among<F: FedPart>(ports: &Ports, nets: &[F::Net], input: usize) -> bool
    ensures { result ≡ is_among (F.input ports.now.list.now) nets.now input }
{
    nets.iter()
        .any(|net| is_number(F::input(ports, *net), input))
}

/// Whether this is the input with this number.
fn is_number(found: Option<usize>, input: usize) -> bool
    ensures { result ≡ is_number input found }
{
    match found {
        Some(number) => number == input,
        None => false,
    }
}
