ghost use Rattle.std.specs.Prelude.{◌≤◌, IsTrue, length};
ghost use Rattle.std.specs.List.{list_all};
ghost use Rattle.gl_task.specs.Limits.{most_zones};
ghost use Rattle.gl_task.specs.Ranges.{is_in_range, is_round_its_centre};

use gl_task::{Finish, Start};
use gl_text::Items;
use gl_zone::Zone;

/// The way of a task.
#[derive(Drop)]
pub struct Course {
    pub start: Start,
    pub zones: Items<Zone>,
    pub finish: Finish,
    pub ghost some_zone: { 1 ≤ length zones },
    pub ghost at_most_eight_zones: { length zones ≤ most_zones },
    pub ghost zones_round: { IsTrue (list_all is_round_its_centre zones) },
    pub ghost finish_in_range: { IsTrue (is_in_range finish) },
}
