// Numbers: the greatest common divisor and what rests on it, and primes. Nothing here knows of a shuffle. What is promised of a number
// up to 8,192 is promised of any `u32` in that range, and a type of its own would ask callers to make one.
#![tactic(auto)]

mod factoring;

ghost use Rattle.std.specs.Prelude.{◌≡◌, ◌*◌, ◌%◌, ◌≤◌, ◌<◌};
ghost use Rattle.numbers.specs.Divisors.{IsGcd, Coprime};
ghost use Rattle.numbers.specs.Reciprocals.{Reciprocal};
ghost use Rattle.numbers.specs.Decision.{Decides};
ghost use Rattle.numbers.specs.Absorption.{Absorbed};

pub use factoring::{Factor, first_factor};

// The greatest common divisor of a and b; of 0 and 0 it is 0.
pub fn gcd(a: u32, b: u32) -> u32
    ensures { IsGcd a b result }
{
    if b == 0 { a } else { gcd(b, a % b) }
}

// a·b mod k.
pub fn times(k: u32, a: u32, b: u32) -> u32
    requires { (0 < k) × (a ≤ 8192) × (b ≤ 8192) }
    ensures { (result ≡ a * b % k) × (result < k) }
{
    a * b % k
}

// Does every prime that divides k divide f? A prime stands at most thirteen times in k, so that f to the
// sixteenth, which takes four squares, decides.
pub fn absorbs(k: u32, f: u32) -> bool
    requires { (0 < k) × (k ≤ 8192) × (f < k) }
    ensures { Decides (Absorbed k f) result }
{
    let second = times(k, f, f);
    let fourth = times(k, second, second);
    let eighth = times(k, fourth, fourth);
    times(k, eighth, eighth) == 0
}

// The reciprocal of a modulo k. Each remainder of Euclid's algorithm is kept with its multiplier: the number
// that gives it, up to multiples of k, when a is multiplied by it. The last remainder before 0 is 1.
pub fn reciprocal(k: u32, a: u32) -> u32
    requires { (1 < k) × (k ≤ 8192) × (a < k) × Coprime a k }
    ensures { Reciprocal k a result }
{
    let mut upper = k;
    let mut upper_by = 0;
    let mut lower = a;
    let mut lower_by = 1;
    while lower != 0 {
        let quotient = upper / lower;
        let rest = upper % lower;
        let rest_by = (upper_by + quotient * (k - lower_by)) % k;
        upper = lower;
        upper_by = lower_by;
        lower = rest;
        lower_by = rest_by;
    }
    upper_by
}
