ghost use Rattle.std.specs.Prelude.{IfOk};
ghost use Rattle.gl_desk.specs.Answers.{OnlyReads, stop_of};
ghost use Rattle.gl_answer.specs.Answer.{answer_of};
ghost use Rattle.gl_flights.specs.Question.{IsTextOf};
ghost use Rattle.gl_flights.specs.OfFile.{IsOfFile};

use crate::flight_file::test_flight;
use crate::free::free_of_recording;
use crate::near::point_of_recording;
use crate::triangle::triangle_of_recording;
use gl_answer::{Answer, answer_halt, done};
use gl_desk::{Desk, DeskError, Name};
use gl_igc::Recording;
use gl_sphere::Grid;
use std::alloc::{AllocError, Global};

/// What is sought in a recording.
#[derive(Clone, Copy, Debug)]
pub enum Question {
    /// The best free distance.
    Free,
    /// The best triangle.
    Triangle,
    /// The least distance to a place.
    Point(Grid),
}

/// What is said of a recording.
fn text_of_recording(
    alloc: Global,
    question: Question,
    recording: &Recording,
) -> Result<Vec<u8>, AllocError>
    ensures { IfOk result (λ text. IsTextOf question recording.now text.items) }
{
    match question {
        Question::Free => free_of_recording(alloc, recording),
        Question::Triangle => triangle_of_recording(alloc, recording),
        Question::Point(place) => point_of_recording(alloc, recording, place),
    }
}

/// The answer of a command for a recording's file.
pub fn answer_of_file<D: Desk>(
    alloc: Global,
    desk: &mut D,
    question: Question,
    file: &Name,
) -> Result<Answer, DeskError>
    ensures right { IfOk result (λ answer.
        IsOfFile (IsTextOf question) (D.told desk.old).folder file.now (answer_of answer)) }
    ensures reads { OnlyReads (stop_of result) (D.told desk.old) (D.told desk.new) }
{
    let names = desk.names(alloc)?;
    match test_flight(alloc, desk, &names, file) {
        Ok(recording) => done(text_of_recording(alloc, question, &recording)),
        Err(halt) => answer_halt(alloc, halt),
    }
}
