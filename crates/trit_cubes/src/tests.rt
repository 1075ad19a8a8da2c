//! Primes that both ways find, and lists of primes that are known.

use crate::cubes::Cube;
use crate::merging::merge_primes;
use crate::splitting::primes;
use crate::trits::Trit;
use crate::trying::primes_by_trying;
use crate::valuation::{primes_where, values_of};
use std::alloc::Global;
use std::test::Fail;

/// The places of the cubes, a character for each, and a blank after each cube.
fn shown(alloc: Global, cubes: &[Cube]) -> Result<String, Fail> {
    let mut text = String::new(alloc);
    for cube in cubes {
        for i in 0..cube.len() {
            text.push(match cube.place(i) {
                Trit::Zero => '0',
                Trit::One => '1',
                Trit::Unknown => '-',
            })?;
        }
        text.push(' ')?;
    }
    Ok(text)
}

#[test]
fn splitting_and_trying_find_the_same_primes(rt: HostRuntime) -> Result<(), Fail> {
    let alloc = rt.alloc();
    let multiplexer = [false, true, false, false, false, true, true, true];
    let split = primes(alloc, 3, &multiplexer)?;
    let tried = primes_by_trying(alloc, 3, &multiplexer)?;
    let found = shown(alloc, &split)?;
    assert_eq!(rt; found.as_str(), "10- 1-1 -11 ");
    assert_eq!(rt; shown(alloc, &tried)?.as_str(), found.as_str());
    Ok(())
}

#[test]
fn primes_merge(rt: HostRuntime) -> Result<(), Fail> {
    let alloc = rt.alloc();
    let zero = primes(alloc, 1, &[true, false])?;
    let one = primes(alloc, 1, &[false, true])?;
    let neither = primes(alloc, 1, &[false, false])?;
    let equal = merge_primes(alloc, &one, &one, &one)?;
    let apart = merge_primes(alloc, &zero, &one, &neither)?;
    assert_eq!(rt; shown(alloc, &equal)?.as_str(), "-1 ");
    assert_eq!(rt; shown(alloc, &apart)?.as_str(), "00 11 ");
    Ok(())
}

#[test]
fn each_odd_point_of_ten_places_is_a_prime(rt: HostRuntime) -> Result<(), Fail> {
    let alloc = rt.alloc();
    let odd = values_of(
        alloc,
        10,
        &|point: &[bool]| Trit::from(point.iter().filter(|bit| **bit).count() % 2 == 1),
    )?;
    let found = primes_where(alloc, 10, &odd, Trit::One)?;
    assert_eq!(rt; found.len(), 512);
    Ok(())
}
