// Whole square roots of fractions, from below and above, where the number under the root needs up to 87 bits.
#![tactic(auto)]

ghost use Rattle.std.specs.Prelude.{◌≡◌, ◌+◌, ◌*◌, ◌^◌, ◌≤◌, ◌<◌};
ghost use Rattle.fractions.specs.Fraction.{◌over◌};
ghost use Rattle.roots.specs.Root.{root_bounds};

use fractions::Bounds;

// The largest v with (a + v)² at most a² + gap; it is below limit. Newton's rule from above: as long as (a + v)² is too much, v falls by
// what is too much over 2 (a + v), rounded up.
#[tactic(auto, using(crate::proofs::Squares::newton_step))]
fn increment(a: u64, gap: u64, limit: u64) -> u64
    requires { (gap < limit * (2 * a + limit)) × (limit * (2 * a + limit) ≤ 2 ^ 64) × (a < 2 ^ 62) × (limit < 2 ^ 62) }
    ensures { (result * (2 * a + result) ≤ gap) × (gap < (result + 1) * (2 * a + (result + 1))) × (result < limit) }
{
    let mut v = limit - 1;
    while gap < v * (2 * a + v) {
        v -= 1 + (v * (2 * a + v) - gap - 1) / (2 * (a + v));
    }
    v
}

// A number above the root of x, at most four times as large where x is from 2²⁰ on and below 2⁴⁰, so that Newton's rule takes six turns or
// fewer from there.
fn root_limit(x: u64) -> u64
    ensures { (x < result * result) × (result * result ≤ 2 ^ 64) × (result ≤ 2 ^ 32) }
{
    match x {
        0..0x100_0000 => 0x1000,
        0x100_0000..0x1000_0000 => 0x4000,
        0x1000_0000..0x1_0000_0000 => 0x1_0000,
        0x1_0000_0000..0x10_0000_0000 => 0x4_0000,
        0x10_0000_0000..0x100_0000_0000 => 0x10_0000,
        _ => 0x1_0000_0000,
    }
}

// The root of x, rounded down. With the library's isqrt `root` would take half as long again.
fn whole_root(x: u64) -> u64
    requires { x < 2 ^ 63 }
    ensures { (result * result ≤ x) × (x < (result + 1) * (result + 1)) × (result < 2 ^ 32) }
{
    increment(0, x, root_limit(x))
}

// The root of k² n / d, rounded down and rounded up. With u the whole root of n / d, it is k u and v more: k² n itself, of up to 87
// bits, is never formed.
pub fn root(k: u64, n: u64, d: u64) -> Bounds
    requires { (0 < k) × (k < 4096) × (n < 2 ^ 63) × (0 < d) × (d < 2 ^ 30) }
    ensures { result ≡ root_bounds ((k * k * n) over d) }
{
    let square = k * k;
    let whole = n / d;
    let part = square * (n % d);
    let u = whole_root(whole);
    let a = k * u;
    let gap = square * (whole - u * u) + part / d;
    let v = increment(a, gap, k);
    let lower = a + v;
    let left = gap - v * (2 * a + v) + part % d;
    let exact = left == 0;
    Bounds::from_floor(lower, exact)
}
