ghost use Rattle.gl_answer.specs.Delivered.{IsDelivered};

use crate::answer::Answer;
use crate::status::Status;
use gl_desk::{Desk, DeskError};
use std::alloc::Global;

/// Says the answer of a command, if it has one, and answers the status with which the run ends.
/// Where the desk or the memory fails, a first part of the answer was said, perhaps an empty one.
pub fn deliver<D: Desk>(alloc: Global, desk: &mut D, answered: Result<Answer, DeskError>) -> Status
    ensures { IsDelivered answered result (D.told desk.old) (D.told desk.new) }
{
    let answer = match answered {
        Ok(answer) => answer,
        Err(stop) => return Status::from(stop),
    };
    match desk.say(alloc, &answer.text) {
        Ok(()) => answer.status,
        Err(stop) => Status::from(stop),
    }
}
