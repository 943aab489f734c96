ghost use Rattle.std.specs.Prelude.{◌≤ℤ◌, pos, IsTrue};
ghost use Rattle.std.specs.Option.{ForSome};
ghost use Rattle.gl_text.specs.Forms.{is_file_name};
ghost use Rattle.gl_task.specs.Limits.{first_day, last_day, last_second};
ghost use Rattle.gl_task.specs.Ranges.{has_minimum};

use gl_desk::Name;
use gl_task::Kind;

/// The day: its date, the kind of its task, its end, its airspace file.
#[derive(Debug, Drop)]
pub struct Day {
    pub date: i32,
    pub kind: Kind,
    pub closes: i32,
    pub airspace: Option<Name>,
    pub ghost date_at_least: { pos first_day ≤ℤ date },
    pub ghost date_at_most: { date ≤ℤ pos last_day },
    pub ghost minimum_in_range: { IsTrue (has_minimum kind) },
    pub ghost closes_at_least: { pos 1 ≤ℤ closes },
    pub ghost closes_at_most: { closes ≤ℤ pos last_second },
    pub ghost airspace_form: { ForSome airspace (λ file. IsTrue (is_file_name file)) },
}
