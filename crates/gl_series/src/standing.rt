use gl_desk::Name;
use gl_text::Items;

/// A pilot's place in a championship.
#[derive(Debug, Drop)]
pub struct Total {
    /// One more than the number of pilots with a greater total.
    pub rank: u32,
    /// The competition number.
    pub number: Name,
    /// The name, from the last day that has the pilot.
    pub name: Name,
    /// The points of the days that count, 0 to 30,000.
    pub total: u32,
    /// The points of the days that were left out.
    pub dropped: u32,
}

/// A team's place in a championship.
#[derive(Debug, Drop)]
pub struct TeamTotal {
    /// One more than the number of teams with a greater total.
    pub rank: u32,
    /// The name of the team.
    pub team: Name,
    /// The totals of its pilots, added up.
    pub total: u32,
}

/// The standing of a championship: its pilots and its teams, each by total from the greatest.
#[derive(Debug, Drop)]
pub struct Standing {
    pub pilots: Items<Total>,
    pub teams: Items<TeamTotal>,
}
