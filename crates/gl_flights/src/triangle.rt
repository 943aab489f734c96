ghost use Rattle.std.specs.Prelude.{IfOk};
ghost use Rattle.gl_flights.specs.Triangle.{IsTriangleText};

use crate::best::best_lines;
use gl_answer::no_flight;
use gl_goal::TriangleGoal;
use gl_igc::Recording;
use gl_triangle::best_triangle;
use std::alloc::{AllocError, Global};

/// How near the end of the flight has to come to its beginning, in centimetres.
const CLOSING: u64 = 100_000;

/// The two lines of the best triangle of a recording, or the line that says that none is legal.
pub fn triangle_of_recording(alloc: Global, recording: &Recording) -> Result<Vec<u8>, AllocError>
    ensures { IfOk result (λ text. IsTriangleText recording.now text.items) }
{
    let fixes = recording.fixes.as_slice();
    let last = fixes.len() - 1;
    let goal = TriangleGoal::new(alloc, fixes, 0, last as u32, CLOSING)?;
    match best_triangle(alloc, &goal)? {
        Some(best) => best_lines(alloc, "TRIANGLE", &goal, &best),
        None => no_flight(alloc),
    }
}
