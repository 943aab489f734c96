ghost use Rattle.std.specs.Prelude.{◌≡◌, ◌≤◌, length};
ghost use Rattle.std.specs.List.Sorted.{IsNonDecreasing, IsPermutation};
ghost use Rattle.gl_series.specs.Totals.{rank_of};

/// Puts totals in their order, the least first.
pub(crate) fn sort(totals: &mut [u32])
    ensures all { IsPermutation totals.old totals.new }
    ensures sorted { IsNonDecreasing totals.new }
{
    totals.sort_unstable();
}

/// The rank beside a total: one more than the number of greater ones.
pub(crate) fn rank(totals: &[u32], total: u32) -> u32
    requires few { length totals.now ≤ 6_000 }
    requires sorted { IsNonDecreasing totals.now }
    ensures { result ≡ rank_of totals.now total }
{
    let not_greater = totals.partition_point(|other| *other <= total);
    (totals.len() - not_greater) as u32 + 1
}
