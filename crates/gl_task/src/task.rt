ghost use Rattle.std.specs.Prelude.{◌≡◌, ◌≤◌, ◌≤ℤ◌, pos, IsTrue, length, map};
ghost use Rattle.std.specs.List.{list_all};
ghost use Rattle.std.specs.Option.{ForSome};
ghost use Rattle.gl_text.specs.Forms.{is_file_name, is_number, is_name};
ghost use Rattle.gl_task.specs.Limits.{first_day, greatest_altitude, greatest_handicap, greatest_noise, last_day, last_second, longest_wait, most_entrants, most_points, most_zones, widest_window};
ghost use Rattle.gl_task.specs.Numbers.{none_repeats};
ghost use Rattle.gl_task.specs.Ranges.{has_minimum, has_width_and_way, is_in_range, is_round_its_centre};
ghost use Rattle.gl_zone.specs.Limits.{greatest_length};

use crate::day_type::{Finish, Kind};
use gl_desk::Name;
use gl_text::Items;
use gl_zone::{Line, Zone};

/// A pilot event start: the pilot announces the start by an event, waits, and then has a window to
/// start in. Both are in seconds.
#[derive(Clone, Copy, Debug, PartialEq, Eq)]
pub struct PilotStart {
    /// From the event to the window.
    pub wait: i32,
    /// From the beginning of the window to its end.
    pub width: i32,
    pub ghost wait_at_least: { pos 0 ≤ℤ wait },
    pub ghost wait_at_most: { wait ≤ℤ pos longest_wait },
    pub ghost width_at_least: { pos 1 ≤ℤ width },
    pub ghost width_at_most: { width ≤ℤ pos widest_window },
}

/// The start of a task: its line, and the first and the last second in which it is crossed. Seconds
/// count from the beginning of the task's day.
#[derive(Clone, Copy, Debug, PartialEq, Eq)]
pub struct Start {
    pub line: Line,
    pub opens: i32,
    pub close: i32,
    /// How it is announced, if it has to be.
    pub pilot: Option<PilotStart>,
    pub ghost line_in_range: { IsTrue (has_width_and_way line) },
    pub ghost opens_at_least: { pos 0 ≤ℤ opens },
    pub ghost ordered: { opens ≤ℤ close },
    pub ghost close_at_most: { close ≤ℤ pos last_second },
}

/// The local rules of a competition.
#[derive(Clone, Copy, Debug, PartialEq, Eq)]
pub struct LocalRules {
    /// The greatest altitude that is free of penalty, in metres.
    pub ceiling: Option<i32>,
    /// The level of noise from which the engine counts as running.
    pub engine_level: Option<u16>,
    /// The points that a running engine costs.
    pub engine_points: u32,
    /// The most altitude that a free distance may lose, in metres.
    pub loss: i32,
    /// How near the end of a triangle has to be to its beginning, in centimetres.
    pub closing: u64,
    pub ghost ceiling_at_least: { ForSome ceiling (λ metres. pos 0 ≤ℤ metres) },
    pub ghost ceiling_at_most: { ForSome ceiling (λ metres. metres ≤ℤ pos greatest_altitude) },
    pub ghost level_at_most: { ForSome engine_level (λ level. level ≤ greatest_noise) },
    pub ghost points_at_most: { engine_points ≤ most_points },
    pub ghost loss_at_least: { pos 0 ≤ℤ loss },
    pub ghost loss_at_most: { loss ≤ℤ pos greatest_altitude },
    pub ghost closing_at_most: { closing ≤ greatest_length },
}

/// One who takes part.
#[derive(Debug, Drop)]
pub struct Entrant {
    /// The competition number: 1 to 8 letters and digits of ASCII.
    pub number: Name,
    /// 1 to 80 bytes without a control character.
    pub name: Name,
    /// In thousandths, 1 to 2,000.
    pub handicap: u32,
    /// The name of the file of the flight.
    pub file: Name,
    pub ghost number_form: { IsTrue (is_number number) },
    pub ghost name_form: { IsTrue (is_name name) },
    pub ghost handicap_at_least: { 1 ≤ handicap },
    pub ghost handicap_at_most: { handicap ≤ greatest_handicap },
    pub ghost file_form: { IsTrue (is_file_name file) },
}

/// The task of a day.
#[derive(Debug, Drop)]
pub struct Task {
    /// The day, as the number of days from 1970-01-01: one of the years 2000 to 2099.
    pub date: i32,
    pub kind: Kind,
    /// The last second of the day that counts.
    pub closes: i32,
    /// The name of the airspace file.
    pub airspace: Option<Name>,
    /// Whether the list of free distances is asked for.
    pub free: bool,
    /// Whether the list of triangles is asked for.
    pub triangle: bool,
    pub start: Start,
    pub zones: Items<Zone>,
    pub finish: Finish,
    pub rules: LocalRules,
    pub entrants: Items<Entrant>,
    pub ghost date_at_least: { pos first_day ≤ℤ date },
    pub ghost date_at_most: { date ≤ℤ pos last_day },
    pub ghost minimum_in_range: { IsTrue (has_minimum kind) },
    pub ghost closes_at_least: { pos 1 ≤ℤ closes },
    pub ghost closes_at_most: { closes ≤ℤ pos last_second },
    pub ghost airspace_form: { ForSome airspace (λ file. IsTrue (is_file_name file)) },
    pub ghost some_zone: { 1 ≤ length zones },
    pub ghost at_most_eight_zones: { length zones ≤ most_zones },
    pub ghost zones_round: { IsTrue (list_all is_round_its_centre zones) },
    pub ghost finish_in_range: { IsTrue (is_in_range finish) },
    pub ghost some_entrant: { 1 ≤ length entrants },
    pub ghost at_most_200_entrants: { length entrants ≤ most_entrants },
    pub ghost numbers_differ: { IsTrue (none_repeats (map (λ entrant. entrant.number) entrants)) },
}
