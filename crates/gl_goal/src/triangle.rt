ghost use Rattle.std.specs.Prelude.{◌≡◌, ◌<◌, ◌≤◌, length};
ghost use Rattle.gl_goal.specs.Closing.{TellReach};
ghost use Rattle.gl_goal.specs.Free.{fixes_between};
ghost use Rattle.gl_goal.specs.Triangle.{three_axes};

use crate::lists::Lists;

/// The triangle over some fixes of a recording: three fixes in time order with fair legs, worth
/// these
/// legs. By the rule of 28 percent none of the legs is shorter than 28 percent of all three; by the
/// rule of large triangles all three are 750 km or longer, and each is 25 to 45 percent of them.
/// The
/// flight over these fixes has to close: a fix at the first of the three or before and one at the
/// third or later are at most `closing` centimetres apart.
#[derive(Debug, Drop)]
pub struct TriangleGoal {
    pub(crate) lists: Lists,
    pub(crate) reaches: Vec<u32>,
    pub(crate) first: u32,
    pub(crate) last: u32,
    pub(crate) closing: u64,
    pub ghost in_order: { first ≤ last },
    pub ghost within: { last < length lists.fixes },
    pub ghost at_most_90000: { length lists.fixes ≤ 90_000 },
    pub ghost axes: { lists.lists ≡ three_axes first last },
    pub ghost reached: { TellReach (fixes_between lists.fixes first last) closing reaches.items },
}
