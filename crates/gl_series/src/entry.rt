use crate::series::Member;
use gl_desk::Name;

/// What a line of a list says, behind the heading.
#[derive(Debug, Drop)]
pub enum Entry {
    /// The sheet of one more day stands in the file with this name.
    Day(Name),
    /// The pilot with this number flies for this team.
    Team(Member),
}
