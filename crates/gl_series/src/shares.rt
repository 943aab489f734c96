ghost use Rattle.std.specs.Prelude.{◌≡◌, IfOk};
ghost use Rattle.std.specs.List.Sorted.{IsPermutation, IsSorted};
ghost use Rattle.gl_series.specs.Code.Tallies.{AreShares, AreSharesOf, IsNumbered, share_cmp};

use crate::numbered::{Numbered, total_in};
use crate::series::Member;
use std::alloc::{AllocError, Global};

/// A member of a team, with the total that the member adds to the team's.
#[derive(Clone, Copy)]
pub(crate) struct Share<'a> {
    pub member: &'a Member,
    pub points: u32,
}

/// What members add, in their order.
fn shares_of<'a>(
    alloc: Global,
    members: &'a [Member],
    pilots: &Numbered,
) -> Result<Vec<Share<'a>>, AllocError>
    requires { IsNumbered pilots.now }
    ensures { IfOk result (λ shares.
        AreSharesOf members.now pilots.now.pilots.now shares.items) }
{
    let mut shares = Vec::new(alloc);
    for member in members {
        shares.push(Share {
            member,
            points: total_in(pilots, &member.number),
        })?;
    }
    Ok(shares)
}

/// Puts what members add in the order of the teams' names.
fn sort(shares: &mut [Share])
    ensures all { IsPermutation shares.old shares.new }
    ensures sorted { IsSorted share_cmp shares.new }
{
    shares.sort_unstable_by(|a, b| a.member.team.cmp(&b.member.team));
}

/// What members add, in the order of the teams' names.
pub(crate) fn shares<'a>(
    alloc: Global,
    members: &'a [Member],
    pilots: &Numbered,
) -> Result<Vec<Share<'a>>, AllocError>
    requires { IsNumbered pilots.now }
    ensures { IfOk result (λ shares.
        AreShares members.now pilots.now.pilots.now shares.items) }
{
    let mut shares = shares_of(alloc, members, pilots)?;
    sort(&mut shares);
    Ok(shares)
}
