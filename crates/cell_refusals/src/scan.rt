//! What is sought in each of some things, and the least offset at which it is met.
ghost use Rattle.std.specs.Prelude.{◌≡◌, ℕ, List, map, flat_map};
ghost use Rattle.cell_machine.specs.Delay.{least};

use cell_machine::least::lesser;

/// Something that is sought in a thing of this type.
pub trait Scan<T> {
    ghost places: { Self → T → List ℕ };

    /// The least offset at which it is met in one thing.
    fn least_in(&self, item: &T) -> Option<usize>
        ensures { result ≡ least (places self.now item.now) };
}

/// The least offset at which it is met in some things.
pub fn least_among<T, S: Scan<T>>(scan: &S, items: &[T]) -> Option<usize>
    ensures { result ≡ least (flat_map (S.places scan.now) items.now) }
{
    let mut found = None;
    for item in items {
        found = lesser(found, scan.least_in(item));
    }
    found
}

/// The same in things that are held elsewhere.
pub fn least_among_held<T, S: Scan<T>>(scan: &S, items: &[&T]) -> Option<usize>
    ensures { result ≡ least (flat_map (S.places scan.now) (map (λ item. item.now) items.now)) }
{
    let mut found = None;
    for item in items {
        found = lesser(found, scan.least_in(item));
    }
    found
}
