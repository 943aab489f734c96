ghost use Rattle.gl_desk.specs.Answers.{OnlyReads};
ghost use Rattle.std.specs.Prelude.{IfOk};
ghost use Rattle.gl_desk.specs.Desk.{HasFile, ListsNames};
ghost use Rattle.gl_words.specs.BadgeWords.{badge_seen};
ghost use Rattle.gl_flights.specs.BadgeFiles.{HasTestedFlight, IsBadgeRead, IsBadgeSeen, badge_tests};
ghost use Rattle.gl_answer.specs.FileTests.{HasTested};
ghost use Rattle.gl_answer.specs.Halts.{halt_stop};

use gl_answer::{Halt, need, need_unlisted, read_recording};
use gl_desk::{Desk, Name};
use gl_igc::Recording;
use gl_words::BadgeWords;
use std::alloc::Global;

/// The recording that `badge` needs, where the files pass its tests.
///
/// The tests are made in this order: FILE is of the folder's names, and PROOF isn't; FILE has at
/// most 16,777,216 bytes; it is a recording.
pub fn test_badge_files<D: Desk>(
    alloc: Global,
    desk: &mut D,
    names: &[Name],
    words: BadgeWords<'_>,
) -> Result<Recording, Halt>
    requires { ListsNames (D.told desk.old).folder names.now }
    ensures tested { HasTested (IsBadgeSeen (badge_seen words.entry) (D.told desk.old).folder)
        (badge_tests (badge_seen words.entry)) IsBadgeRead result }
    ensures reads { OnlyReads (halt_stop result) (D.told desk.old) (D.told desk.new) }
{
    need(names, words.flight)?;
    need_unlisted(names, words.proof)?;
    read_recording(alloc, desk, words.flight, None)
}

/// The recording that `badgecheck` needs, where its files pass these tests.
///
/// The tests are made in this order: FILE and PROOF are of the folder's names; FILE has at most
/// 16,777,216 bytes; it is a recording. That PROOF has at most 1,073,741,824 bytes, and that its
/// text is a proof, is tested after them.
pub fn test_badge_check_files<D: Desk>(
    alloc: Global,
    desk: &mut D,
    names: &[Name],
    words: BadgeWords<'_>,
) -> Result<Recording, Halt>
    requires { ListsNames (D.told desk.old).folder names.now }
    ensures tested { HasTestedFlight (D.told desk.old).folder (badge_seen words.entry) result }
    ensures listed { IfOk result (λ _. HasFile (D.told desk.old).folder words.entry.proof.now) }
    ensures reads { OnlyReads (halt_stop result) (D.told desk.old) (D.told desk.new) }
{
    need(names, words.flight)?;
    need(names, words.proof)?;
    read_recording(alloc, desk, words.flight, None)
}
