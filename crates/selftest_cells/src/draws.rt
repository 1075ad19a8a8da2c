//! Drawn numbers.
ghost use Rattle.std.specs.Prelude.{◌≡◌, ◌<◌};
ghost use Rattle.selftest_cells.specs.Draws.{next as next_of, pick as pick_of};

/// The number that is drawn after another one.
pub fn next(x: u64) -> u64
    ensures value { result ≡ next_of x }
    ensures below { result < 2147483648 }
{
    (1_103_515_245 * (x % 2_147_483_648) + 12_345) % 2_147_483_648
}

/// The number below `m` that a drawn one stands for.
pub fn pick(x: u64, m: u64) -> u64
    requires { 0 < m }
    ensures value { result ≡ pick_of x m }
    ensures below { result < m }
{
    (x / 65_536) % m
}
