ghost use Rattle.std.specs.Prelude.{◌≡◌, ◌≢◌, Ok, Err, IfOk, IfErr, map};
ghost use Rattle.gl_text.specs.Lines.{lines_of};
ghost use Rattle.gl_igc.specs.Laws.{AreOfLines, CanBeLeftOut};
ghost use Rattle.gl_igc.specs.Reading.{recording_of};
ghost use Rattle.gl_igc.specs.Recording.{reading_of, sighting_of};
ghost use Rattle.gl_igc.specs.declared.error.IgcError.TheVariants.{Memory};

use crate::error::IgcError;
use crate::igc_reader::IgcReader;
use crate::recording::Recording;
use std::alloc::Global;

/// Reads the text of a recording, by the profile of the IGC flight recorder specification that
/// docs/recordings.md describes. The task day, if there is one, is a number of days from
/// 1970-01-01; the seconds of the recording then count from the beginning of that day, and else
/// from that of the recording's own day.
///
/// The answer is the recording, or the first refusal of [`IgcError`] that holds;
/// [`IgcError::Memory`] comes only for want of memory.
pub fn read_igc(alloc: Global, text: &[u8], task_day: Option<i32>) -> Result<Recording, IgcError>
    ensures ok { IfOk result (λ recording.
        recording_of text.now task_day ≡ Ok (reading_of recording)) }
    ensures refused { IfErr result (λ e. e ≢ Memory → recording_of text.now task_day ≡ Err e) }

    // Each fix is what an undamaged B line of the text with validity A says.
    ensures seen { IfOk result (λ recording.
        AreOfLines (lines_of text.now) (map sighting_of recording.fixes)) }

    // A line that is no date, I, B, C or E line says nothing.
    ensures left_out { CanBeLeftOut (lines_of text.now) task_day }
{
    let mut reader = IgcReader::new(alloc, task_day);
    reader.feed(text)?;
    reader.finish()
}
