ghost use Rattle.std.specs.Prelude.{◌≡◌, ◌≢◌, ℕ, ◌≤◌, List, length, IfOk, OnOk, OnErr};
ghost use Rattle.gl_desk.specs.Answers.{CountsFaults, OnlyReads, stop_of};
ghost use Rattle.gl_desk.specs.Desk.{Told, HasFile, OnFile, ListsNames, ReadsFrom, followed_by, output_of, file_of, OutputGrows, FileGrows, FileTakes, TakesPrefix};

use crate::error::DeskError;
use crate::name::Name;
use std::alloc::Global;

/// A folder of files and a place to print.
///
/// A desk may tell what it holds: the files of its folder, the text said so far, and what was
/// appended under each name. It always tells its count of faults, which never falls. A call answers
/// [`DeskError::Failed`] only where the count rose in that call, and leaves it at any other answer.
/// What a call isn't said to change stays as it was.
pub trait Desk {
    // what the desk tells
    ghost told: { Self → Told };

    /// Each name of the folder once, in any order.
    fn names(&mut self, alloc: Global) -> Result<Vec<Name>, DeskError>
        ensures listed { IfOk result (λ names. ListsNames (told self.old).folder names.items) }
        ensures reads { OnlyReads (stop_of result) (told self.old) (told self.new) };

    /// Puts into the front of `into` a prefix of what the file holds from place `at`, and answers
    /// its length. In a slice with room, 0 is answered exactly where `at` is at or past the end.
    /// What stands in `into` behind the answered length, or after an error, is left open.
    fn read_at(
        &mut self,
        alloc: Global,
        name: &Name,
        at: u64,
        into: &mut [u8],
    ) -> Result<usize, DeskError>
        requires { HasFile (told self.old).folder name.now }
        ensures within { IfOk result (λ n. n ≤ length into.new) }
        ensures bytes { IfOk result (λ n.
            OnFile (told self.old).folder name.now (λ file. ReadsFrom file at into.new n)) }
        ensures reads { OnlyReads (stop_of result) (told self.old) (told self.new) };

    /// Adds all of `piece` to the file, which is made where it isn't there. After an error a prefix
    /// of `piece` was added, perhaps an empty one.
    fn append(&mut self, alloc: Global, name: &Name, piece: &[u8]) -> Result<(), DeskError>
        ensures appended { OnOk result
            (OutputGrows (told self.old).outputs (told self.new).outputs name.now piece.now) }
        ensures written { OnOk result
            (FileGrows (told self.old).folder (told self.new).folder name.now piece.now) }

        // The same part stands in the file and among what was appended.
        ensures prefix { OnErr result (TakesPrefix piece.now (λ part.
            OutputGrows (told self.old).outputs (told self.new).outputs name.now part
            × FileTakes (told self.old).folder (told self.new).folder name.now part)) }
        ensures other_outputs { (other : List ℕ) → other ≢ name.now
            → output_of (told self.new).outputs other ≡ output_of (told self.old).outputs other }
        ensures other_files { (other : List ℕ) → other ≢ name.now
            → file_of (told self.new).folder other ≡ file_of (told self.old).folder other }

        ensures same_said { (told self.new).said ≡ (told self.old).said }
        ensures faults { CountsFaults (stop_of result)
            (told self.old).faults (told self.new).faults };

    /// Prints all of `piece`. After an error a prefix of it was printed, perhaps an empty one.
    fn say(&mut self, alloc: Global, piece: &[u8]) -> Result<(), DeskError>
        ensures said { OnOk result
            ((told self.new).said ≡ followed_by (told self.old).said piece.now) }
        ensures prefix { OnErr result (TakesPrefix piece.now
            (λ part. (told self.new).said ≡ followed_by (told self.old).said part)) }

        ensures same_folder { (told self.new).folder ≡ (told self.old).folder }
        ensures same_outputs { (told self.new).outputs ≡ (told self.old).outputs }
        ensures faults { CountsFaults (stop_of result)
            (told self.old).faults (told self.new).faults };
}
