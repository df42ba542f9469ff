// Polynomials modulo K, brought inside the limits of their coefficients. Nothing here knows of a shuffle. A polynomial has fourteen
// places, whatever its degree, since memory is fixed and 13 is the highest degree of an inverse; top says which is the last in use.
#![tactic(auto)]

mod products;

ghost use Rattle.std.specs.Prelude.{◌≡◌, ◌+◌, ◌≤◌, ◌<◌, length};
ghost use Rattle.polynomials.specs.Polynomials.{wholes};
ghost use Rattle.polynomials.specs.Reductions.{Limits, Ends, Reducible, Reduced, Degree};
ghost use Rattle.polynomials.specs.RisingProducts.{Addable, Added};

// The limits at the places 0 to top. Each is the one before it, divided by what that has in common with the place, so that no
// factorial is formed.
pub fn limits(k: u32, top: usize) -> [u32; 14]
    requires { (1 < k) × (k ≤ 8192) × (top ≤ 13) }
    ensures { Limits k (top + 1) result }
{
    let mut m = [k; 14];
    for j in 1..=top {
        let before = m[j - 1];
        m[j] = before / numbers::gcd(before, j as u32);
    }
    m
}

// t times the n-th rising product is added to q below the place n. No sum is brought below k here: q comes with room for a product.
fn add_rising(k: u32, q: &mut [u32; 14], t: u32, n: usize)
    requires { Addable k t n q.old }
    ensures { Added k t n q.old q.new }
{
    for j in 1..n {
        q[j] += t * (products::rising(n, j) % k);
    }
}

// q brought inside the limits, from the top place down: the limit times the rising product is 0 modulo k everywhere, so that
// multiples of it may be taken away; to take c times it away is to add k - c times it. A place is brought below k when its turn comes
// and not before: what is added to it until then, twelve products of 26 bits at most, leaves room in 32 bits. The constant, whose
// limit is k, has no turn.
pub fn reduce(k: u32, top: usize, q: &mut [u32; 14])
    requires { Reducible k top q.old }
    ensures { Reduced k (wholes q.old) (wholes q.new) × Ends top q.new × (length q.new ≡ 14) }
{
    let m = limits(k, top);
    for n in (1..=top).rev() {
        let a = q[n] % k;
        let limit = m[n];
        q[n] = a;
        if limit <= a {
            let rest = a % limit;
            q[n] = rest;
            add_rising(k, q, k - (a - rest), n);
        }
    }
}

// The highest place that is not 0; 0 if there is none, as `Degree` asks, and so no `Option`. Nothing stands past top.
pub fn degree(top: usize, p: &[u32; 14]) -> usize
    requires { (top ≤ 13) × Ends top p.now }
    ensures { Degree (wholes p.now) result × (result ≤ 13) }
{
    p[..=top].iter().rposition(|a| *a != 0).unwrap_or(0)
}
