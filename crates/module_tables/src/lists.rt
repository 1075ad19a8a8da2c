//! Lists of trits by their numbers.
ghost use Rattle.std.specs.Prelude.{◌≡◌, ◌+◌, ◌-◌, ◌<◌, ◌≤◌, ◌^◌, ◌++◌, length};
ghost use Rattle.module_tables.specs.Lists.{trit_numbered, list_numbered};

use cell_machine::Few;
use trit_cubes::{Cube, Trit};

/// The value with this number, from 0: 0, 1, unknown.
pub(crate) fn trit_numbered(number: usize) -> Trit
    ensures { result ≡ trit_numbered number }
{
    match number {
        0 => Trit::Zero,
        1 => Trit::One,
        _ => Trit::Unknown,
    }
}

/// How many lists of `n` values there are.
pub(crate) fn list_count(n: usize) -> usize
    requires { n ≤ 10 }
    ensures count { result ≡ 3 ^ n }
    ensures some { 0 < result }
    ensures few { result ≤ 59049 }
{
    if n == 0 {
        return 1;
    }
    3 * list_count(n - 1)
}

/// How many lists of `n` - 1 values there are, where there are `count` of `n` values.
fn third(n: usize, count: usize) -> usize
    requires some { 0 < n }
    requires count { count ≡ 3 ^ n }
    ensures count { result ≡ 3 ^ (n - 1) }
    ensures some { 0 < result }
{
    count / 3
}

/// Adds the list of `n` values with this number; there are `count` of them.
fn add_list(values: &mut Few<Trit, 10>, n: usize, number: usize, count: usize)
    requires few { length values.old + n ≤ 10 }
    requires count { count ≡ 3 ^ n }
    ensures { values.new ≡ values.old ++ list_numbered n number }
{
    if n == 0 {
        return;
    }
    let weight = third(n, count);
    values.push(trit_numbered(number / weight));
    add_list(values, n - 1, number % weight, weight);
}

/// The list of `n` values with this number, from 0, in their order from the left; there are `count` of them.
#[tactic(auto, using(crate::proofs::ListNumbers::list_long))]
pub(crate) fn list_numbered(n: usize, number: usize, count: usize) -> Few<Trit, 10>
    requires few { n ≤ 10 }
    requires count { count ≡ 3 ^ n }
    ensures list { result ≡ list_numbered n number }
    ensures len { length result ≡ n }
{
    let mut values = Few::new(Trit::Unknown);
    add_list(&mut values, n, number, count);
    values
}

/// The list as a cube.
pub(crate) fn cube_of(values: &[Trit]) -> Cube
    requires { length values.now ≤ 10 }
    ensures { result ≡ values.now }
{
    match Cube::new(values) {
        Some(cube) => cube,
        None => Cube::empty(),
    }
}
