ghost use Rattle.std.specs.Prelude.{◌≡◌, ◌≤◌, ◌<◌, ℕ, ◌==◌, not, ◌||◌, IsTrue, List, length, slice_get, Some, OnOk, option_map};
ghost use Rattle.gl_day.specs.Day.{performances_of};
ghost use Rattle.gl_judge.specs.Choices.{numbers_before};
ghost use Rattle.gl_points.specs.Limits.{performance_limit};
ghost use Rattle.gl_points.specs.Points.{IsPartOf, completion_factor, day_factor, most_for_distance, most_for_speed};
ghost use Rattle.gl_points.specs.Summary.{IsSummaryOf};
ghost use Rattle.gl_points.specs.Worth.{worth};
ghost use Rattle.gl_why.specs.Facts.{AddsFacts, AreFound};
ghost use Rattle.gl_why.specs.Results.{AreFiguresTold, ArePointsTold, AreResultsTold, IsEarning, IsEarningTold, IsMost, IsResultAt, IsResultTold};

use crate::fact::{Earning, Fact, Most};
use crate::lines::Lines;
use crate::result_words::{words_of_day, words_of_earning, words_of_most};
use crate::rows::{tell_earned, tell_row};
use crate::wanted::is_wanted;
use gl_day::{Flight, performances, row_of};
use gl_desk::Name;
use gl_points::{Frac, Performance, Summary, day, exact, share};
use gl_task::Entrant;
use std::alloc::{AllocError, Global};

/// How much a day counts, by how many of the launched flew far.
#[tactic(auto, unfolding(gl_points::specs::Points::day_factor))]
fn far_factor(day: &Summary) -> Frac
    requires { 1 ≤ day.now.launched }
    ensures { worth result ≡ day_factor day.now }
{
    Frac::whole(1).lesser(Frac {
        num: u128::from(5 * day.far),
        den: u128::from(4 * day.launched),
    })
}

/// How much a day counts, by how many of those were fast.
#[tactic(auto, unfolding(gl_points::specs::Points::completion_factor))]
fn fast_factor(day: &Summary) -> Frac
    requires { 1 ≤ day.now.far }
    ensures { worth result ≡ completion_factor day.now }
{
    Frac::whole(1).lesser(Frac {
        num: u128::from(6 * day.fast * 5 + 3 * (5 * day.far)),
        den: u128::from(5 * day.far * 5),
    })
}

/// The most points of a day for speed.
#[tactic(auto, unfolding(gl_points::specs::Points::most_for_speed))]
fn most_speed(day: &Summary) -> Frac
    requires { 1 ≤ day.now.launched }
    ensures { worth result ≡ most_for_speed day.now }
{
    Frac {
        num: u128::from(2 * day.fast) * day.most.num,
        den: u128::from(3 * day.launched) * day.most.den,
    }
}

/// The most points of a day for distance.
#[tactic(auto, unfolding(gl_points::specs::Points::most_for_distance, gl_points::specs::Points::most_for_speed))]
fn most_distance(day: &Summary) -> Frac
    requires { 1 ≤ day.now.launched }
    ensures { worth result ≡ most_for_distance day.now }
{
    let num = u128::from(2 * day.fast) * day.most.num;
    let den = u128::from(3 * day.launched) * day.most.den;
    Frac {
        num: (day.most.num * den).saturating_sub(num * day.most.den),
        den: day.most.den * den,
    }
}

/// How much a day counts on which somebody flew far, and its most points.
fn most_of(day: &Summary) -> Most
    requires { 1 ≤ day.now.far }
    ensures { IsMost day.now result }
{
    Most {
        by_far: far_factor(day),
        by_fast: fast_factor(day),
        for_speed: most_speed(day),
        for_distance: most_distance(day),
    }
}

/// Tells the figures of a day.
fn tell_figures(alloc: Global, lines: &mut Lines, day: &Summary) -> Result<(), AllocError>
    ensures { OnOk result (AddsFacts (AreFiguresTold day.now) lines.old lines.new) }
{
    let words = words_of_day(alloc, day)?;
    lines.push(Fact::Day(*day), String::new(alloc), words)?;
    if day.far == 0 {
        return Ok(());
    }
    let most = most_of(day);
    let words = words_of_most(alloc, &most)?;
    lines.push(Fact::Most(most), String::new(alloc), words)
}

/// What a flight has of the points of a day on which somebody flew far.
fn earning_of(day: &Summary, performance: &Performance) -> Earning
    requires part { IsPartOf day.now performance.now }
    requires launched { IsTrue performance.now.launched }
    requires far { 1 ≤ day.now.far }
    ensures { IsEarning day.now performance.now result }
{
    Earning {
        share: share(day, performance),
        exact: exact(day, performance),
    }
}

/// Tells what a flight has of the points of a day, if somebody flew far.
fn tell_earning(
    alloc: Global,
    lines: &mut Lines,
    day: &Summary,
    number: &Name,
    performance: &Performance,
) -> Result<(), AllocError>
    requires { IsPartOf day.now performance.now }
    ensures { OnOk result (AddsFacts (IsEarningTold day.now number.now performance.now)
        lines.old lines.new) }
{
    if !performance.launched || day.far == 0 {
        return Ok(());
    }
    let earning = earning_of(day, performance);
    let words = words_of_earning(alloc, &most_of(day), performance, &earning)?;
    tell_earned(alloc, lines, number, earning, words)
}

/// Tells the points of an entrant with a flight, and the line of the sheet.
fn tell_points(
    alloc: Global,
    lines: &mut Lines,
    day: &Summary,
    entrant: &Entrant,
    flight: &Flight,
) -> Result<(), AllocError>
    requires { IsPartOf day.now flight.now.performance }
    ensures { OnOk result (AddsFacts (ArePointsTold day.now entrant.now flight.now)
        lines.old lines.new) }
{
    tell_earning(alloc, lines, day, &entrant.number, &flight.performance)?;
    let row = row_of(day, flight);
    tell_row(alloc, lines, entrant, row)
}

/// Tells the points of an entrant who is asked for.
fn tell_result(
    alloc: Global,
    lines: &mut Lines,
    choice: Option<&Name>,
    day: &Summary,
    entrant: &Entrant,
    flight: &Flight,
) -> Result<(), AllocError>
    requires { IsPartOf day.now flight.now.performance }
    ensures { OnOk result (AddsFacts (IsResultTold
        (option_map (λ number. number.now) choice.entry) day.now entrant.now flight.now)
        lines.old lines.new) }
{
    if is_wanted(choice, entrant) {
        tell_points(alloc, lines, day, entrant, flight)
    } else {
        Ok(())
    }
}

/// Tells the points of the entrant at a place, if he is asked for.
fn tell_result_at(
    alloc: Global,
    lines: &mut Lines,
    choice: Option<&Name>,
    day: &Summary,
    entrants: &[Entrant],
    flights: &[Flight],
    i: usize,
) -> Result<(), AllocError>
    requires figures { IsSummaryOf (performances_of flights.now) day.now }
    requires few { length flights.now ≤ performance_limit }
    requires at { i < length flights.now }
    requires as_many { length entrants.now ≡ length flights.now }
    ensures { OnOk result (AddsFacts (IsResultAt
        (option_map (λ number. number.now) choice.entry) entrants.now flights.now day.now i)
        lines.old lines.new) }
{
    tell_result(alloc, lines, choice, day, &entrants[i], &flights[i])
}

/// Tells the points of those who are asked for, by the figures of a day.
fn tell_each(
    alloc: Global,
    lines: &mut Lines,
    choice: Option<&Name>,
    day: &Summary,
    entrants: &[Entrant],
    flights: &[Flight],
) -> Result<(), AllocError>
    requires figures { IsSummaryOf (performances_of flights.now) day.now }
    requires few { length flights.now ≤ performance_limit }
    requires as_many { length entrants.now ≡ length flights.now }
    ensures { OnOk result (AddsFacts (AreFound (IsResultAt
        (option_map (λ number. number.now) choice.entry) entrants.now flights.now day.now)
        (numbers_before 0 (length flights.now))) lines.old lines.new) }
{
    'places: for i in 0..flights.len() {
        tell_result_at(alloc, lines, choice, day, entrants, flights, i)?;
    }
    Ok(())
}

/// Tells the figures of the day that some flights give, and the points of those who are asked for.
pub fn tell_results(
    alloc: Global,
    lines: &mut Lines,
    choice: Option<&Name>,
    entrants: &[Entrant],
    flights: &[Flight],
) -> Result<(), AllocError>
    requires few { length flights.now ≤ performance_limit }
    requires as_many { length entrants.now ≡ length flights.now }
    ensures { OnOk result (AddsFacts (AreResultsTold
        (option_map (λ number. number.now) choice.entry) entrants.now flights.now)
        lines.old lines.new) }
{
    let list = performances(alloc, flights)?;
    let figures = day(list.as_slice());
    tell_figures(alloc, lines, &figures)?;
    tell_each(alloc, lines, choice, &figures, entrants, flights)
}
