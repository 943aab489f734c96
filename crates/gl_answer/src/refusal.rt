use gl_desk::Name;
use gl_task::Key;

/// Why a file is refused.
#[derive(Clone, Copy)]
pub enum Cause {
    /// The folder doesn't list the file.
    NotListed,
    /// The folder lists the file, which is to be made.
    Listed,
    /// The file has more bytes than are read.
    TooLarge,
    /// The file is no recording: its first line with a byte doesn't begin with `A`, or none has
    /// one.
    NotIgc,
    /// The recording has no day of the calendar.
    NoDate,
    /// The recording is of a day more than one day from that of the first.
    WrongDay,
    /// The recording has a 90,001st used fix, on this line.
    TooManyFixes(u32),
    /// No fix of the recording is used.
    NoFix,
    /// The text of the task isn't TOML.
    NotToml,
    /// The task lacks this key, or its list is empty.
    NoKey(Key),
    /// The value of this key of the task is of another kind, or out of its range.
    WrongValue(Key),
    /// An entrant of the task has the number of an earlier one.
    NumberTwice(Key),
    /// The list of this key of the task has too many items.
    TooManyItems(Key),
    /// This line of the airspace doesn't read.
    WrongAirspace(u32),
    /// With this line there are too many volumes or corners of airspace.
    TooMuchAirspace(u32),
    /// This line of the schedule is no step.
    WrongStep(u32),
    /// The schedule has more than 1,000,000 lines.
    TooManySteps,
    /// The text doesn't begin with the heading of a proof.
    NoHeading,
    /// This line of the proof may not stand there.
    WrongProof(u32),
    /// The proof has no end.
    ProofCut,
    /// The text doesn't begin with the heading of a proof of a closest approach.
    NoNearHeading,
    /// This line of the proof of a closest approach may not stand there.
    WrongNearProof(u32),
    /// The proof of a closest approach has no end.
    NearProofCut,
    /// The text doesn't begin with the heading of a championship's list.
    NoListHeading,
    /// This line of the list doesn't read.
    WrongListLine(u32),
    /// The first record isn't the heading of a sheet.
    NoSheetHeading,
    /// This record of the sheet is wrong.
    WrongRecord(u32),
}

/// The first test of a file that failed: the name of the file, and why.
#[derive(Drop)]
pub struct Refusal {
    pub file: Name,
    pub cause: Cause,
}
