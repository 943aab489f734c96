use gl_desk::Name;

/// A table of the task file.
#[derive(Clone, Copy, Debug, PartialEq, Eq)]
pub enum Section {
    /// The keys at the top.
    Day,
    Start,
    Zone,
    Part,
    Finish,
    Rules,
    Entrant,
}

/// A table of the task file: its section, the item of its list, and the part. Items and parts count
/// from 1; where there is none the number is 0.
#[derive(Clone, Copy, Debug, PartialEq, Eq)]
pub struct Place {
    pub section: Section,
    pub item: usize,
    pub part: usize,
}

/// What a remark is about.
#[derive(Debug, Drop)]
pub enum Subject {
    /// The task file.
    Task,
    /// A key in a table of the task file.
    Key(Place, Name),
    /// The entrant with a number.
    Entrant(Name),
    /// A file of the folder, or one that the task file names.
    File(Name),
}

/// What may have been overlooked.
#[derive(Clone, Copy, Debug, PartialEq, Eq)]
pub enum Slip {
    /// The file isn't in the folder.
    NoFile,
    /// The file has more bytes than are read.
    TooLarge,
    /// The task file isn't TOML.
    NotToml,
    /// The task file says no task.
    NoTask,
    /// The key says nothing where it stands.
    Idle,
    /// The key is still to be filled in.
    FillIn,
    /// One behind this entrant has the same recording.
    Shared,
    /// One handicap is more than one and a half times another.
    Handicaps,
    /// No entrant names the recording.
    Unnamed,
    /// The file doesn't read.
    NotRead,
    /// The file begins with a byte-order mark, which it can't have.
    Mark,
    /// The recording has no fix in the hours of the task.
    OutOfHours,
    /// The flight crosses the start line, and never in its times.
    NoStart,
    /// The flight had been to all zones, and comes within the finish soon after the task closes.
    Closed,
}

/// What is remarked: what it is about, and what is wrong with it.
#[derive(Debug, Drop)]
pub struct Told {
    pub subject: Subject,
    pub slip: Slip,
}
