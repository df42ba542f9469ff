// The primes of a number with their full powers, from the least on, by trial division.
ghost use Rattle.std.specs.Prelude.{◌≤◌};
ghost use Rattle.numbers.specs.Factors.{LeastPrime, FirstFactor};

// A prime, its full power, and what is left of a number without it.
#[derive(Clone, Copy)]
pub struct Factor {
    pub prime: u32,
    pub power: u32,
    pub rest: u32,
}

// Most numbers have a small prime: to take the root first, by `isqrt`, costs more than the products it saves.
fn least_prime(n: u32) -> u32
    requires { (2 ≤ n) × (n ≤ 8192) }
    ensures { LeastPrime n result }
{
    for p in 2..n {
        if n < p * p {
            break;
        }
        if n % p == 0 {
            return p;
        }
    }
    n
}

// The least prime of n is divided out of n until it is gone.
pub fn first_factor(n: u32) -> Factor
    requires { (2 ≤ n) × (n ≤ 8192) }
    ensures { FirstFactor n result }
{
    let prime = least_prime(n);
    let mut power = prime;
    let mut rest = n / prime;
    while rest % prime == 0 {
        power *= prime;
        rest /= prime;
    }
    Factor { prime, power, rest }
}
