//! Three things that take memory.

ghost use Rattle.std.specs.Prelude.{◌≡◌, IfOk, IfErr, Ok};

use grammar_reader::{Read, Stop};

/// Three things that were made.
#[derive(Drop)]
pub struct AllMade<A, B, C> {
    pub first: A,
    pub second: B,
    pub third: C,
}

/// Three things, where all of them were made.
pub fn all_made<A: Drop, B: Drop, C: Drop>(
    first: Read<A>,
    second: Read<B>,
    third: Read<C>,
) -> Read<AllMade<A, B, C>>
    ensures made { IfOk result (λ all. (first ≡ Ok all.first) × ((second ≡ Ok all.second) × (third ≡ Ok all.third))) }
    ensures memory { IfErr first (λ stop. stop ≡ Stop.Memory) → IfErr second (λ stop. stop ≡ Stop.Memory)
        → IfErr third (λ stop. stop ≡ Stop.Memory) → IfErr result (λ stop. stop ≡ Stop.Memory) }
{
    Ok(AllMade {
        first: first?,
        second: second?,
        third: third?,
    })
}
