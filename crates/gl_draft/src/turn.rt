ghost use Rattle.std.specs.Prelude.{◌+◌, ◌<◌, ◌≤◌, length};
ghost use Rattle.gl_draft.specs.Turn.{ArePair, IsTurnAt};

use gl_cup::CupPoint;

/// A turn point of a task, with the start and the points before and behind it.
#[derive(Clone, Copy, Debug)]
pub struct Turn<'a> {
    pub start: &'a CupPoint,
    pub before: &'a CupPoint,
    pub here: &'a CupPoint,
    pub next: &'a CupPoint,
}

/// Two points of a task, one behind the other.
#[derive(Clone, Copy, Debug)]
pub struct Leg<'a> {
    pub from: &'a CupPoint,
    pub to: &'a CupPoint,
}

/// The point with a number, from 0 on, among the points of a task, and the one behind it.
pub fn leg_at(points: &[CupPoint], number: usize) -> Leg<'_>
    requires { number + 1 < length points.now }
    ensures { ArePair points.now number result.from.now result.to.now }
{
    Leg {
        from: &points[number],
        to: &points[number + 1],
    }
}

/// The turn point with a number, from 1 on, among the points of a task.
pub fn turn_at(points: &[CupPoint], number: usize) -> Turn<'_>
    requires first { 1 ≤ number }
    requires last { number + 1 < length points.now }
    ensures { IsTurnAt points.now number result }
{
    Turn {
        start: &points[0],
        before: &points[number - 1],
        here: &points[number],
        next: &points[number + 1],
    }
}
