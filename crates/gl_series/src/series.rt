use gl_desk::Name;
use gl_text::Items;

/// One who flies for a team.
#[derive(Debug, Drop)]
pub struct Member {
    /// The competition number: 1 to 8 letters and digits of ASCII.
    pub number: Name,
    /// The name of the team: 1 to 40 bytes without a control character.
    pub team: Name,
}

/// What a list says: the files of the days' sheets, and who flies for which team, each in the order
/// of the list.
#[derive(Debug, Drop)]
pub struct Series {
    pub days: Items<Name>,
    pub teams: Items<Member>,
}
