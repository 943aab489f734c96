ghost use Rattle.std.specs.Prelude.{◌≡◌};
ghost use Rattle.gl_draft.specs.Line.{head_of, name_of_key};

/// A section of a task file.
#[derive(Clone, Copy, Debug, PartialEq, Eq)]
pub enum Section {
    Start,
    Zone,
    Part,
    Finish,
    Rules,
    Entrant,
}

impl Section {
    /// The line that begins the section.
    pub fn head(self) -> &'static str
        ensures { result.now ≡ head_of self }
    {
        match self {
            Section::Start => "[start]",
            Section::Zone => "[[zone]]",
            Section::Part => "[[zone.part]]",
            Section::Finish => "[finish]",
            Section::Rules => "[rules]",
            Section::Entrant => "[[entrant]]",
        }
    }
}

/// A key of a task file.
#[derive(Clone, Copy, Debug, PartialEq, Eq)]
pub enum Key {
    Date,
    Kind,
    Minimum,
    Closes,
    At,
    Towards,
    Half,
    Opening,
    Close,
    Radius,
    Inner,
    Outer,
    From,
    To,
    Ring,
    Number,
    Name,
    Handicap,
    File,
}

impl Key {
    /// The key as the file has it.
    pub fn name(self) -> &'static str
        ensures { result.now ≡ name_of_key self }
    {
        match self {
            Key::Date => "date",
            Key::Kind => "kind",
            Key::Minimum => "minimum",
            Key::Closes => "closes",
            Key::At => "at",
            Key::Towards => "towards",
            Key::Half => "half",
            Key::Opening => "open",
            Key::Close => "close",
            Key::Radius => "radius",
            Key::Inner => "inner",
            Key::Outer => "outer",
            Key::From => "from",
            Key::To => "to",
            Key::Ring => "ring",
            Key::Number => "number",
            Key::Name => "name",
            Key::Handicap => "handicap",
            Key::File => "file",
        }
    }
}
