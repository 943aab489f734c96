ghost use Rattle.std.specs.Prelude.{◌≡◌, ◌+◌, ◌*◌, ◌^◌, ◌<◌, ◌≤◌, IfSome};
ghost use Rattle.gl_sphere.specs.Distance.{floor_root};

/// Entry k is 2^15 over the square root of (k + 64.5) / 256, to the nearest whole number.
static INVERSE_ROOTS: [u16; 192] = [
    65281, 64781, 64292, 63814, 63347, 62889, 62442, 62004, 61575, 61154, 60742, 60339, 59943,
    59555, 59175, 58801, 58435, 58075, 57722, 57376, 57035, 56700, 56372, 56049, 55731, 55419,
    55112, 54810, 54513, 54221, 53933, 53650, 53371, 53097, 52826, 52560, 52298, 52040, 51785,
    51535, 51288, 51044, 50804, 50567, 50333, 50103, 49876, 49652, 49430, 49212, 48997, 48784,
    48574, 48367, 48163, 47961, 47761, 47564, 47370, 47178, 46988, 46800, 46615, 46432, 46251,
    46072, 45895, 45720, 45547, 45376, 45207, 45040, 44875, 44711, 44550, 44390, 44232, 44075,
    43920, 43767, 43615, 43465, 43316, 43169, 43024, 42879, 42737, 42595, 42456, 42317, 42180,
    42044, 41910, 41776, 41644, 41514, 41384, 41256, 41129, 41003, 40878, 40754, 40631, 40510,
    40390, 40270, 40152, 40035, 39919, 39803, 39689, 39576, 39464, 39352, 39242, 39133, 39024,
    38916, 38810, 38704, 38599, 38494, 38391, 38289, 38187, 38086, 37986, 37887, 37788, 37690,
    37593, 37497, 37401, 37307, 37213, 37119, 37027, 36935, 36843, 36753, 36663, 36573, 36485,
    36397, 36309, 36222, 36136, 36051, 35966, 35882, 35798, 35715, 35632, 35550, 35469, 35388,
    35307, 35228, 35148, 35070, 34991, 34914, 34837, 34760, 34684, 34608, 34533, 34458, 34384,
    34310, 34237, 34164, 34092, 34020, 33949, 33878, 33807, 33737, 33668, 33599, 33530, 33461,
    33393, 33326, 33259, 33192, 33126, 33060, 32994, 32929, 32864, 32800,
];

/// The square root, rounded down.
pub fn root(n: u64) -> u64
    ensures value { result ≡ floor_root n }
    ensures square_at_most { result * result ≤ n }
    ensures next_square_above { n < (result + 1) * (result + 1) }
{
    match root_by_guess(n) {
        Some(root) => root,
        None => n.isqrt(),
    }
}

/// The square root, where the estimate is at most one away from it. Only speed rests on that it
/// mostly is.
#[inline]
pub(crate) fn root_by_guess(n: u64) -> Option<u64>
    ensures value { IfSome result (λ r. r ≡ floor_root n) }
    ensures square_at_most { IfSome result (λ r. r * r ≤ n) }
    ensures next_square_above { IfSome result (λ r. n < (r + 1) * (r + 1)) }
{
    let guess = estimate(n);
    let square = guess * guess;
    if square <= n && n - square <= 2 * guess {
        Some(guess)
    } else if square <= n && n - square <= 4 * guess + 3 {
        Some(guess + 1)
    } else if n < square && square - n < 2 * guess {
        Some(guess - 1)
    } else {
        None
    }
}

/// The square root or a number near it: from a table, with one step of Newton's method towards the
/// inverse root, and one towards the root. No product here reaches past 64 bits.
fn estimate(n: u64) -> u64
    ensures { result < 2 ^ 32 }
{
    let shift = n.leading_zeros() & 62;
    let normal = n << shift;
    let head = normal >> 32;
    let entry = INVERSE_ROOTS[(normal >> 56).saturating_sub(64) as usize] as u64;
    let ratio = (entry * entry).wrapping_mul(head) >> 32;
    let inverse = entry.wrapping_mul((3u64 << 30).wrapping_sub(ratio)) >> 15;
    let near = head.wrapping_mul(inverse) >> 31;
    let rest = normal.saturating_sub(near.wrapping_mul(near));
    let step = (rest >> 20).wrapping_mul(inverse) >> 44;
    ((near + step) >> (shift / 2)).min(u32::MAX as u64)
}
