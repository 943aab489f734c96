ghost use Rattle.std.specs.Prelude.{◌≡◌, Err, IfOk};
ghost use Rattle.gl_desk.specs.Limits.{most_bytes};
ghost use Rattle.gl_desk.specs.Answers.{OnlyReads, reading_stop};
ghost use Rattle.gl_desk.specs.Desk.{HasFile, IsLongerThan};
ghost use Rattle.gl_igc.specs.Pieces.{StandsForText, task_day_of};
ghost use Rattle.gl_answer.specs.Pouring.{IsFileRead};
ghost use Rattle.gl_answer.specs.Code.Pouring.{day_tag};

use gl_desk::{Desk, MOST_BYTES, Name, ReadError, Taker, pour};
use gl_igc::{IgcError, IgcReader, Recording};
use std::alloc::{AllocError, Global};

/// Takes the pieces of a recording. Its tag is the task's day.
#[derive(Drop)]
struct RecordingTaker {
    reader: IgcReader,
}

impl Taker for RecordingTaker {
    ghost tag = { λ taker. day_tag (task_day_of taker.reader) };

    ghost stands_for = { λ taker text. StandsForText text taker.reader };

    fn take(&mut self, piece: &[u8]) -> Result<(), AllocError> {
        self.reader.feed(piece)
    }
}

/// What a file that the folder lists says as a recording, by the day of a task if there is one. The
/// file is read in pieces and never held whole. One of more than 16,777,216 bytes is too large,
/// whatever it says.
pub fn read_recording_file<D: Desk>(
    alloc: Global,
    desk: &mut D,
    file: &Name,
    day: Option<i32>,
) -> Result<Result<Recording, IgcError>, ReadError>
    requires { HasFile (D.told desk.old).folder file.now }
    ensures read { IfOk result (IsFileRead (D.told desk.old).folder file.now day) }
    ensures too_large { result ≡ Err ReadError.TooLarge
        → IsLongerThan most_bytes (D.told desk.old).folder file.now }
    ensures reads { OnlyReads (reading_stop result) (D.told desk.old) (D.told desk.new) }
{
    let mut taker = RecordingTaker {
        reader: IgcReader::new(alloc, day),
    };
    pour(alloc, desk, file, MOST_BYTES, &mut taker)?;
    Ok(taker.reader.finish())
}
