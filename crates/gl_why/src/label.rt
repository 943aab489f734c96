ghost use Rattle.std.specs.Prelude.{◌≡◌, ◌+◌, ◌++◌, OnOk, codes};
ghost use Rattle.std.specs.Fmt.{decimal};
ghost use Rattle.gl_sheet.specs.Columns.{result_text};
ghost use Rattle.gl_why.specs.Line.{charged_label, flight_label, headed, label, named, numbered, penalty_label, row_label, shown, time_label, word_of_rule};

use crate::fact::{Fact, Fine, Rule};
use crate::shown::push_shown;
use gl_day::Flight;
use gl_desk::Name;
use gl_points::Performance;
use gl_sheet::{Outcome, Row};
use gl_text::push_u64;
use std::alloc::AllocError;

/// Appends a word and a number.
fn push_numbered(line: &mut Vec<u8>, word: &[u8], number: u64) -> Result<(), AllocError>
    ensures { OnOk result (line.new.items ≡ line.old.items ++ numbered word.now number) }
{
    line.extend_from_slice(word)?;
    push_u64(line, number)
}

/// Appends a word and a number, and then the number of a fix.
fn push_with_fix(line: &mut Vec<u8>, word: &[u8], number: u64, fix: u32) -> Result<(), AllocError>
    ensures { OnOk result (line.new.items
        ≡ line.old.items ++ (numbered word.now number ++ numbered (codes " with fix ") fix)) }
{
    push_numbered(line, word, number)?;
    push_numbered(line, b" with fix ", u64::from(fix))
}

/// Appends the number of a fix.
fn push_fix(line: &mut Vec<u8>, number: u32) -> Result<(), AllocError>
    ensures { OnOk result (line.new.items ≡ line.old.items ++ numbered (codes "fix ") number) }
{
    push_numbered(line, b"fix ", u64::from(number))
}

/// Appends a word and the number of an entrant.
fn push_named(line: &mut Vec<u8>, word: &[u8], number: &Name) -> Result<(), AllocError>
    ensures { OnOk result (line.new.items ≡ line.old.items ++ named word.now number.now) }
{
    line.extend_from_slice(word)?;
    push_shown(line, number.as_str().as_bytes())
}

/// Appends a word.
fn push_word(line: &mut Vec<u8>, word: &[u8]) -> Result<(), AllocError>
    ensures { OnOk result (line.new.items ≡ line.old.items ++ word.now) }
{
    line.extend_from_slice(word)?;
    Ok(())
}

/// Appends the word for the points that a rule charges, and how many they are.
fn push_points(line: &mut Vec<u8>, rule: Rule, points: u64) -> Result<(), AllocError>
    ensures { OnOk result (line.new.items
        ≡ line.old.items ++ numbered (word_of_rule rule) points) }
{
    match rule {
        Rule::Ceiling => push_numbered(line, b"penalty points of the ceiling: ", points),
        Rule::Engine => push_numbered(line, b"penalty points of the engine: ", points),
    }
}

/// Appends the points that a rule charges, and the number of the fix after which it owes them.
fn push_fine(line: &mut Vec<u8>, fine: &Fine) -> Result<(), AllocError>
    ensures { OnOk result (line.new.items
        ≡ line.old.items ++ (numbered (word_of_rule fine.now.rule) fine.now.points
        ++ numbered (codes ", first owed after fix ") fine.now.at.number)) }
{
    push_points(line, fine.rule, u64::from(fine.points))?;
    push_numbered(line, b", first owed after fix ", u64::from(fine.at.number))
}

/// Appends a word, the number of an entrant, and a colon.
fn push_head(line: &mut Vec<u8>, word: &[u8], number: &Name) -> Result<(), AllocError>
    ensures { OnOk result (line.new.items ≡ line.old.items ++ headed word.now number.now) }
{
    push_named(line, word, number)?;
    push_word(line, b": ")
}

/// Appends the unit of a distance, and of a finisher the time.
fn push_time(line: &mut Vec<u8>, performance: &Performance) -> Result<(), AllocError>
    ensures { OnOk result (line.new.items ≡ line.old.items ++ time_label performance.now) }
{
    if !performance.finished {
        return push_word(line, b" m");
    }
    push_numbered(line, b" m in ", u64::from(performance.seconds))?;
    push_word(line, b" s")
}

/// Appends a distance, and of a finisher the time.
fn push_marked(line: &mut Vec<u8>, performance: &Performance) -> Result<(), AllocError>
    ensures { OnOk result (line.new.items
        ≡ line.old.items ++ (decimal performance.now.metres ++ time_label performance.now)) }
{
    push_u64(line, u64::from(performance.metres))?;
    push_time(line, performance)
}

/// Appends a penalty of several points.
fn push_charged(line: &mut Vec<u8>, penalty: u32) -> Result<(), AllocError>
    ensures { OnOk result (line.new.items ≡ line.old.items ++ charged_label penalty) }
{
    push_numbered(line, b", a penalty of ", u64::from(penalty))?;
    push_word(line, b" points")
}

/// Appends a penalty.
fn push_penalty(line: &mut Vec<u8>, penalty: u32) -> Result<(), AllocError>
    ensures { OnOk result (line.new.items ≡ line.old.items ++ penalty_label penalty) }
{
    match penalty {
        0 => push_word(line, b", no penalty"),
        1 => push_word(line, b", a penalty of 1 point"),
        _ => push_charged(line, penalty),
    }
}

/// Appends a handicap and a penalty.
fn push_owed(line: &mut Vec<u8>, handicap: u32, penalty: u32) -> Result<(), AllocError>
    ensures { OnOk result (line.new.items
        ≡ line.old.items ++ (numbered (codes ", handicap ") handicap ++ penalty_label penalty)) }
{
    push_numbered(line, b", handicap ", u64::from(handicap))?;
    push_penalty(line, penalty)
}

/// Appends what counts of a flight.
fn push_flight(line: &mut Vec<u8>, flight: &Flight) -> Result<(), AllocError>
    ensures { OnOk result (line.new.items ≡ line.old.items ++ flight_label flight.now) }
{
    push_marked(line, &flight.performance)?;
    push_owed(line, flight.performance.handicap, flight.penalty)
}

/// Appends what counts of the flight of the entrant with a number.
fn push_counted(line: &mut Vec<u8>, number: &Name, flight: &Flight) -> Result<(), AllocError>
    ensures { OnOk result (line.new.items ≡ line.old.items
        ++ (headed (codes "counted of ") number.now ++ flight_label flight.now)) }
{
    push_head(line, b"counted of ", number)?;
    push_flight(line, flight)
}

/// Appends a result, as the sheet has it.
fn push_result(line: &mut Vec<u8>, outcome: Outcome) -> Result<(), AllocError>
    ensures { OnOk result (line.new.items ≡ line.old.items ++ result_text outcome) }
{
    match outcome {
        Outcome::Finished => push_word(line, b"FINISHED"),
        Outcome::Outlanded => push_word(line, b"OUTLANDED"),
        Outcome::NoStart => push_word(line, b"NOSTART"),
        Outcome::NotLaunched => push_word(line, b"NOTLAUNCHED"),
        Outcome::Refused(number) => push_numbered(line, b"REFUSED ", u64::from(number)),
    }
}

/// Appends the result and the points of a line of the sheet.
fn push_row(line: &mut Vec<u8>, row: &Row) -> Result<(), AllocError>
    ensures { OnOk result (line.new.items ≡ line.old.items ++ row_label row.now) }
{
    push_result(line, row.outcome)?;
    push_numbered(line, b", ", u64::from(row.points))
}

/// Appends the line of the sheet of the entrant with a number.
fn push_scored(line: &mut Vec<u8>, number: &Name, row: &Row) -> Result<(), AllocError>
    ensures { OnOk result (line.new.items ≡ line.old.items
        ++ (headed (codes "result of ") number.now ++ row_label row.now)) }
{
    push_head(line, b"result of ", number)?;
    push_row(line, row)
}

/// Appends what a fact is about.
pub fn push_label(line: &mut Vec<u8>, fact: &Fact) -> Result<(), AllocError>
    ensures { OnOk result (line.new.items ≡ line.old.items ++ label fact.now) }
{
    match fact {
        Fact::Refused(file, _) => push_shown(line, file.as_str().as_bytes()),
        Fact::Fix(spot) => push_fix(line, spot.number),
        Fact::Entrant(number, _) => push_named(line, b"entrant ", number),
        Fact::Read(extent) => push_numbered(line, b"a recording of ", extent.count as u64),
        Fact::Crossed(crossing) => push_fix(line, crossing.at.number),
        Fact::Started(start) => push_fix(line, start.at.number),
        Fact::Visited(visit) => {
            push_with_fix(line, b"zone ", visit.zone as u64, visit.at.number)
        }
        Fact::Missed(miss) => push_fix(line, miss.at.number),
        Fact::Cut(cut) => { push_with_fix(line, b"volume ", cut.volume as u64 + 1, cut.at.number) }
        Fact::Finished(finish) => push_fix(line, finish.at.number),
        Fact::NoStart => push_word(line, b"no start"),
        Fact::Credited(credit) => push_fix(line, credit.at.number),
        Fact::Fined(fine) => push_fine(line, fine),
        Fact::Counted(number, flight) => push_counted(line, number, flight),
        Fact::Day(_) => push_word(line, b"the day"),
        Fact::Most(_) => push_word(line, b"the most points"),
        Fact::Earned(number, _) => push_named(line, b"points of ", number),
        Fact::Scored(number, row) => push_scored(line, number, row),
    }
}
