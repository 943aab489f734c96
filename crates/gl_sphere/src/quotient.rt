ghost use Rattle.std.specs.Prelude.{◌≡◌, ◌+◌, ◌*◌, ◌/◌, ◌^◌, ◌<◌, ◌≤◌};

/// The quotient of `n` over the product of the two divisors, rounded down.
///
/// Where the divisors are constants of the caller, it compiles to products alone.
#[inline(always)]
pub fn quotient(n: u128, first: u64, second: u64) -> u64
    requires first_positive { 0 < first }
    requires first_in_range { first ≤ 2 ^ 32 }
    requires second_positive { 0 < second }
    requires fits { n < first * 2 ^ 64 }
    ensures { result ≡ n / (first * second) }
{
    let high = (n >> 32) as u64;
    let low = (n % (1 << 32)) as u64;
    let whole = high / first;
    let rest = ((high % first) << 32) + low;
    ((whole << 32) + rest / first) / second
}

/// The quotient of `n` over `by`, rounded down, where `inverse` is 2^117 over `by`, rounded down.
///
/// The estimate by the inverse is at most one below the quotient, so that no branch is needed.
#[inline(always)]
pub fn quotient_by_inverse(n: u128, by: u64, inverse: u64) -> u64
    requires least { 9_700_000_000_000_000 ≤ by }
    requires most { by < 2 ^ 63 }
    requires below { inverse * by ≤ 2 ^ 117 }
    requires above { 2 ^ 117 < inverse * by + by }
    requires in_range { n < 2 ^ 113 }
    ensures { result ≡ n / by }
{
    let head = (n >> 53) as u64;
    let guess = ((head as u128 * inverse as u128) >> 64) as u64;
    let rest = (n - guess as u128 * by as u128) as u64;
    guess + u64::from(rest >= by)
}
