ghost use Rattle.std.specs.Prelude.{◌≡◌, ◌≢◌, ◌≤◌, ◌++◌, ◌∷◌, [], All, AllPairs, IfOk, MatchBool, length, map};
ghost use Rattle.std.specs.List.Sorted.{IsNonDecreasing, IsPermutation, IsSorted};
ghost use Rattle.gl_series.specs.Code.Tallies.{AreRankedTeams, AreTeamSums, share_cmp, starts_with_team, team_of, total_of_sum};
ghost use Rattle.gl_series.specs.Totals.{AreTeams, team_cmp};

use crate::numbered::by_number;
use crate::ranks;
use crate::series::Member;
use crate::shares::{Share, shares};
use crate::standing::{TeamTotal, Total};
use gl_desk::Name;
use std::alloc::{AllocError, Global};
use std::cmp::Ordering;

/// The last member of a team, with the sum of the totals of its members.
#[derive(Clone, Copy)]
pub(crate) struct TeamSum<'a> {
    pub member: &'a Member,
    pub total: u32,
}

/// Whether the first of some members flies for a team.
fn starts_with_team(shares: &[Share], team: &Name) -> bool
    ensures { result ≡ starts_with_team team.now shares.now }
{
    match shares.first() {
        Some(share) => team.as_str() == share.member.team.as_str(),
        None => false,
    }
}

/// Adds the sum of a team with its last member, and gives the sum that the next member begins with.
fn push_sum<'a>(
    sums: &mut Vec<TeamSum<'a>>,
    share: &Share<'a>,
    later: &[Share],
    total: u32,
) -> Result<u32, AllocError>
    ensures { IfOk result (λ begun.
        MatchBool (starts_with_team share.now.member.now.team later.now)
        ((begun ≡ total) × (sums.new.items ≡ sums.old.items))
        ((begun ≡ 0) × (sums.new.items
        ≡ sums.old.items ++ record { member = share.now.member; total = total } ∷ []))) }
{
    if starts_with_team(later, &share.member.team) {
        return Ok(total);
    }
    sums.push(TeamSum {
        member: share.member,
        total,
    })?;
    Ok(0)
}

/// The sums of all teams. Members of one team stand beside one another.
fn team_sums<'a>(alloc: Global, shares: &[Share<'a>]) -> Result<Vec<TeamSum<'a>>, AllocError>
    requires few { length shares.now ≤ 1_000 }
    requires low { All (λ share. share.points ≤ 30_000) shares.now }
    requires sorted { IsSorted share_cmp shares.now }
    ensures { IfOk result (λ sums. AreTeamSums shares.now sums.items) }
{
    let mut sums = Vec::new(alloc);
    let mut total = 0;
    for (place, share) in shares.iter().enumerate() {
        let later = &shares[place + 1..];
        total = push_sum(&mut sums, share, later, total + share.points)?;
    }
    Ok(sums)
}

/// The totals of some teams.
fn totals_of(alloc: Global, sums: &[TeamSum]) -> Result<Vec<u32>, AllocError>
    ensures { IfOk result (λ totals. totals.items ≡ map total_of_sum sums.now) }
{
    let mut totals = Vec::new(alloc);
    for sum in sums {
        totals.push(sum.total)?;
    }
    Ok(totals)
}

/// The totals of some teams in their order, the least first.
fn totals_in_order(alloc: Global, sums: &[TeamSum]) -> Result<Vec<u32>, AllocError>
    ensures all { IfOk result (λ totals.
        IsPermutation (map total_of_sum sums.now) totals.items) }
    ensures sorted { IfOk result (λ totals. IsNonDecreasing totals.items) }
{
    let mut totals = totals_of(alloc, sums)?;
    ranks::sort(&mut totals);
    Ok(totals)
}

/// A team among all totals.
fn team(alloc: Global, totals: &[u32], sum: &TeamSum) -> Result<TeamTotal, AllocError>
    requires few { length totals.now ≤ 6_000 }
    requires sorted { IsNonDecreasing totals.now }
    ensures { IfOk result (λ team. team ≡ team_of totals.now sum.now) }
{
    Ok(TeamTotal {
        rank: ranks::rank(totals, sum.total),
        team: Name::from_text(alloc, sum.member.team.as_str())?,
        total: sum.total,
    })
}

/// The teams, in the order of the sums.
fn ranked(alloc: Global, totals: &[u32], sums: &[TeamSum]) -> Result<Vec<TeamTotal>, AllocError>
    requires few { length totals.now ≤ 6_000 }
    requires sorted { IsNonDecreasing totals.now }
    ensures { IfOk result (λ teams. teams.items ≡ map (team_of totals.now) sums.now) }
{
    let mut teams = Vec::new(alloc);
    for sum in sums {
        teams.push(team(alloc, totals, sum)?)?;
    }
    Ok(teams)
}

/// How two teams stand: by total, the greater first, and at equal totals by the bytes of the name.
fn compare(a: &TeamTotal, b: &TeamTotal) -> Ordering
    ensures { result ≡ team_cmp a.now b.now }
{
    let by_total = b.total.cmp(&a.total);
    by_total.then(a.team.cmp(&b.team))
}

/// Puts teams in their order.
fn sort(teams: &mut [TeamTotal])
    ensures all { IsPermutation teams.old teams.new }
    ensures sorted { IsSorted team_cmp teams.new }
{
    teams.sort_unstable_by(|a, b| compare(a, b));
}

/// The teams of some sums, in their order.
fn in_order(alloc: Global, sums: &[TeamSum]) -> Result<Vec<TeamTotal>, AllocError>
    requires { length sums.now ≤ 1_000 }
    ensures { IfOk result (λ teams. AreRankedTeams sums.now teams.items) }
{
    let totals = totals_in_order(alloc, sums)?;
    let mut teams = ranked(alloc, &totals, sums)?;
    sort(&mut teams);
    Ok(teams)
}

/// The teams of some members, in their order.
pub(crate) fn teams(
    alloc: Global,
    members: &[Member],
    pilots: &[Total],
) -> Result<Vec<TeamTotal>, AllocError>
    requires apart { AllPairs (λ one other. one.number ≢ other.number) pilots.now }
    requires low { All (λ pilot. pilot.total ≤ 30_000) pilots.now }
    requires few { length members.now ≤ 1_000 }
    ensures { IfOk result (λ teams. AreTeams members.now pilots.now teams.items) }
{
    let pilots = by_number(alloc, pilots)?;
    let shares = shares(alloc, members, &pilots)?;
    let sums = team_sums(alloc, &shares)?;
    in_order(alloc, &sums)
}
