//! The fixes of a recording.
ghost use Rattle.gl_laws.specs.Recordings.{FixesComeInOrder, FixesKeepTheTimeOfDay, FixesStandAtTheirLines, GoodLinesGiveOneFix, LateLinesGiveNoFix, OtherLinesGiveNoFix};

/// Each fix is what its own line says, by the number that it has and by the first undamaged I line
/// above that line.
pub fn fixes_stand_at_their_lines()
    ensures { FixesStandAtTheirLines }
{}

/// A later fix has a later line, and a later second.
pub fn fixes_come_in_order()
    ensures { FixesComeInOrder }
{}

/// The second of a fix, without whole days, is the time of day of its line.
pub fn fixes_keep_the_time_of_day()
    ensures { FixesKeepTheTimeOfDay }
{}

/// A good line gives no fix exactly where its second isn't above that of the last fix above it, or
/// is 300,000 or more.
pub fn late_lines_give_no_fix()
    ensures { LateLinesGiveNoFix }
{}

/// Any other good line gives one fix, behind those above it.
pub fn good_lines_give_one_fix()
    ensures { GoodLinesGiveOneFix }
{}

/// A line that isn't good gives none.
pub fn other_lines_give_no_fix()
    ensures { OtherLinesGiveNoFix }
{}
