ghost use Rattle.std.specs.Prelude.{◌≡◌, ◌≤◌, vec_len};

use gl_goal::Hulls;
use gl_sphere::{dist, sq};
use std::alloc::{AllocError, Global};

/// How many places a stage has at most.
pub(crate) const MOST_PLACES: usize = 64;

/// How many legs a choice has.
const LEGS: usize = 4;

/// Places for each of the five fixes, in time order, and the legs from each place of one of them to
/// each place of the next.
#[derive(Drop)]
pub(crate) struct Stages {
    pub places: [[u32; MOST_PLACES]; 5],
    pub count: usize,
    legs: Vec<[u64; MOST_PLACES]>,
    ghost few: { count ≤ 64 },
    ghost rows: { vec_len legs ≡ 256 },
}

/// The places of the five fixes, and one more than the sum of the legs between those from one of
/// them on: 0 where there is no way.
#[derive(Clone, Copy)]
pub(crate) struct Way {
    pub length: u64,
    pub places: [u32; 5],
}

/// One more than the leg from a place to another, 0 where it is earlier.
#[inline]
fn leg_between(hulls: &Hulls, from: u32, to: u32) -> u64 {
    if to < from || to >= hulls.len() {
        return 0;
    }
    dist(sq(hulls.fix(from).at, hulls.fix(to).at)) + 1
}

/// A place as the only one of a way, if its fix isn't below an altitude.
fn last_of(hulls: &Hulls, place: u32, lowest: i32) -> Way {
    let is_allowed = place < hulls.len() && hulls.fix(place).alt >= lowest;
    Way {
        length: u64::from(is_allowed),
        places: [place; 5],
    }
}

/// A place so many steps after another, or the last one.
fn place_after(first: u32, steps: usize, step: u32, last: u32) -> u32
    requires { steps ≤ 64 }
    ensures { result ≤ last }
{
    (u64::from(first) + steps as u64 * u64::from(step)).min(u64::from(last)) as u32
}

/// Places that are so far from one another, up to the last one.
fn row_from(first: u32, step: u32, last: u32) -> [u32; MOST_PLACES] {
    let mut row = [0; MOST_PLACES];
    for index in 0..MOST_PLACES {
        row[index] = place_after(first, index, step, last);
    }
    row
}

impl Stages {
    /// Places that are evenly spaced over all, for each of the fixes. The only error is want of
    /// memory.
    pub(crate) fn spaced(alloc: Global, step: u32, last: u32) -> Result<Stages, AllocError> {
        Ok(Stages {
            places: [row_from(0, step, last); 5],
            count: MOST_PLACES,
            legs: vec![in alloc; [0; MOST_PLACES]; LEGS * MOST_PLACES]?,
        })
    }

    /// Takes so many places on each side of a choice's own, that are so far from one another.
    pub(crate) fn gather(&mut self, choice: &[u32; 5], reach: u32, step: u32, last: u32)
        requires { reach ≤ 31 }
    {
        self.count = 2 * reach as usize + 1;
        for axis in 0..5 {
            let first = choice[axis].saturating_sub(reach.saturating_mul(step));
            self.places[axis] = row_from(first, step, last);
        }
    }

    /// Measures the legs from one of the fixes to the next.
    fn measure_leg(&mut self, hulls: &Hulls, axis: usize)
        requires { axis ≤ 3 }
    {
        for from in 0..self.count {
            let near = self.places[axis][from];
            let mut row = [0; MOST_PLACES];
            for to in 0..self.count {
                row[to] = leg_between(hulls, near, self.places[axis + 1][to]);
            }
            self.legs[axis * MOST_PLACES + from] = row;
        }
    }

    /// Measures all legs.
    pub(crate) fn measure(&mut self, hulls: &Hulls) {
        for axis in 0..LEGS {
            self.measure_leg(hulls, axis);
        }
    }

    /// The longest way from a place of one of the fixes on, by the ways from the next one on.
    fn longest(&self, axis: usize, from: usize, ways: &[Way; MOST_PLACES]) -> Way
        requires axis { axis ≤ 3 }
        requires from { from ≤ 63 }
    {
        let mut best = Way {
            length: 0,
            places: [0; 5],
        };
        for to in 0..self.count {
            let leg = self.legs[axis * MOST_PLACES + from][to];
            let length = ways[to].length.saturating_add(leg).saturating_sub(1);
            if leg > 0 && ways[to].length > 0 && length > best.length {
                best = Way {
                    length,
                    places: ways[to].places,
                };
            }
        }
        best.places[axis] = self.places[axis][from];
        best
    }

    /// The longest ways from each place of one of the fixes on.
    fn ways_from(&self, axis: usize, ways: &[Way; MOST_PLACES]) -> [Way; MOST_PLACES]
        requires { axis ≤ 3 }
    {
        let mut earlier = *ways;
        for from in 0..self.count {
            earlier[from] = self.longest(axis, from, ways);
        }
        earlier
    }

    /// The longest way from each place of the first fix, to a last fix that isn't below an
    /// altitude.
    pub(crate) fn ways(&self, hulls: &Hulls, lowest: i32) -> [Way; MOST_PLACES] {
        let mut ways = [last_of(hulls, 0, lowest); MOST_PLACES];
        for index in 0..self.count {
            ways[index] = last_of(hulls, self.places[4][index], lowest);
        }
        for axis in (0..LEGS).rev() {
            ways = self.ways_from(axis, &ways);
        }
        ways
    }
}
