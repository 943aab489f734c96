ghost use Rattle.std.specs.Prelude.{◌≡◌};
ghost use Rattle.gl_why.specs.Status.{number_of_status, status_of};

use gl_desk::DeskError;

/// How a run ended. The program ends with the status as a number.
#[derive(Clone, Copy, Debug, PartialEq, Eq)]
pub enum Status {
    /// The answer was said.
    Said = 0,
    /// The words are of another form; the usage lines were said.
    Words = 2,
    /// A call of the desk failed; nothing more was said.
    Desk = 3,
    /// A file can't be used; that was said.
    Refused = 4,
    /// There was no memory; nothing more was said.
    Memory = 5,
}

impl From<DeskError> for Status {
    ghost from_gives = { λ stop status. status ≡ status_of stop };

    fn from(stop: DeskError) -> Status {
        match stop {
            DeskError::Failed => Status::Desk,
            DeskError::Memory => Status::Memory,
        }
    }
}

impl Status {
    /// The number that the program ends with.
    pub fn number(self) -> u8
        ensures { result ≡ number_of_status self }
    {
        self as u8
    }
}
