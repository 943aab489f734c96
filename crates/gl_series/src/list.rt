ghost use Rattle.std.specs.Prelude.{◌≡◌, ◌≢◌, ◌⊎◌, ◌↔◌, ◌≤◌, ◌<◌, ◌∷◌, ◌++◌, ℕ, List, All, IfOk, IfErr, IsErrOf, IsTrue, MatchOption, MatchResult, OnOk, drop, length, map};
ghost use Rattle.gl_text.specs.Lines.{lines_of};
ghost use Rattle.gl_series.specs.declared.entry.Entry.{Entry};
ghost use Rattle.gl_series.specs.declared.entry.Entry.TheVariants.{Day, Team};
ghost use Rattle.gl_series.specs.declared.error.ListError.{ListError};
ghost use Rattle.gl_series.specs.declared.error.ListError.TheVariants.{Memory};
ghost use Rattle.gl_series.specs.declared.series.Member.{Member};
ghost use Rattle.gl_series.specs.declared.series.Series.{Series};
ghost use Rattle.gl_series.specs.Code.Adding.{IsBehindHeading, IsMember, IsNext, IsStopped, Says, member_line, with_entry};
ghost use Rattle.gl_series.specs.Code.AddingRows.{HasNumbers};
ghost use Rattle.gl_series.specs.SeriesList.{HasNoHeading, IsEntry, IsLineOf, IsList, IsRefused, IsSeries, line_of};

use crate::entry::Entry;
use crate::error::ListError;
use crate::form::{is_team, text_in};
use crate::numbers::Numbers;
use crate::series::{Member, Series};
use gl_desk::Name;
use gl_text::{Items, is_file_name, is_number, next_line, part_at_space};
use std::alloc::{AllocError, Global};

/// The first line of a list.
const HEADING: &[u8] = b"GLIDESERIES 1";

/// The most days of a list.
const MOST_DAYS: usize = 30;

/// The most members of teams in a list.
const MOST_MEMBERS: usize = 1_000;

/// The name of a day's file, where the line is that of a day.
fn day_name(line: &[u8]) -> Option<&str>
    ensures { MatchOption result
        ((name : List ℕ) → IsEntry (Day name) → line.now ≢ line_of (Day name))
        (λ name. IsEntry (Day name.now) × (line.now ≡ line_of (Day name.now))) }
{
    let name = text_in(line.strip_prefix(b"DAY ")?)?;
    is_file_name(name).then_some(name)
}

/// The number and the team that a text writes, with a space between them.
fn number_and_team(text: &[u8]) -> Option<(&str, &str)>
    ensures { MatchOption result
        ((number team : List ℕ) → IsMember number team → text.now ≢ number ++ 32 ∷ team)
        (λ texts. IsMember texts.0.now texts.1.now
        × (text.now ≡ texts.0.now ++ 32 ∷ texts.1.now)) }
{
    if let Some((number, team)) = part_at_space(text)
        && let Some(number) = text_in(number)
        && let Some(team) = text_in(team)
        && is_number(number)
        && is_team(team)
    {
        return Some((number, team));
    }
    None
}

/// The number and the team of a member, where the line is that of one.
fn member_texts(line: &[u8]) -> Option<(&str, &str)>
    ensures { MatchOption result
        ((number team : List ℕ) → IsMember number team → line.now ≢ member_line number team)
        (λ texts. IsMember texts.0.now texts.1.now
        × (line.now ≡ member_line texts.0.now texts.1.now)) }
{
    number_and_team(line.strip_prefix(b"TEAM ")?)
}

/// The entry that a line writes.
fn entry_of(alloc: Global, line: &[u8]) -> Result<Option<Entry>, AllocError>
    ensures { IfOk result (λ read. MatchOption read
        ((entry : Entry) → IsLineOf line.now entry → ⊥) (IsLineOf line.now)) }
{
    if let Some(name) = day_name(line) {
        return Ok(Some(Entry::Day(Name::from_text(alloc, name)?)));
    }
    let Some((number, team)) = member_texts(line) else {
        return Ok(None);
    };
    Ok(Some(Entry::Team(Member {
        number: Name::from_text(alloc, number)?,
        team: Name::from_text(alloc, team)?,
    })))
}

/// Whether no day has this file.
fn is_new_day(days: &[Name], name: &Name) -> bool
    ensures { IsTrue result ↔ All (λ day. day ≢ name.now) days.now }
{
    days.iter().all(|day| *day != *name)
}

/// Whether an entry fits to the days and members before it. The numbers of these are kept.
fn fits(days: &[Name], teams: &[Member], numbers: &Numbers, entry: &Entry) -> bool
    requires series { IsSeries (record { days = days.now; teams = teams.now }) }
    requires kept { HasNumbers numbers.now (map (λ member. member.number) teams.now) }
    ensures { IsTrue result ↔ IsSeries (with_entry days.now teams.now entry.now) }
{
    match entry {
        Entry::Day(name) => days.len() < MOST_DAYS && is_new_day(days, name),
        Entry::Team(member) => { teams.len() < MOST_MEMBERS && numbers.is_new(&member.number) }
    }
}

/// The entry of a line, where there is one that fits to the days and members before it. The numbers
/// of these are kept.
fn next_entry(
    alloc: Global,
    days: &[Name],
    teams: &[Member],
    numbers: &Numbers,
    line: &[u8],
) -> Result<Option<Entry>, AllocError>
    requires series { IsSeries (record { days = days.now; teams = teams.now }) }
    requires kept { HasNumbers numbers.now (map (λ member. member.number) teams.now) }
    ensures { IfOk result (λ read. MatchOption read
        ((entry : Entry) → IsNext days.now teams.now line.now entry → ⊥)
        (IsNext days.now teams.now line.now)) }
{
    let Some(entry) = entry_of(alloc, line)? else {
        return Ok(None);
    };
    if !fits(days, teams, numbers, &entry) {
        return Ok(None);
    }
    Ok(Some(entry))
}

/// Puts an entry to the days and members before it, and keeps the number of a member.
fn put(
    alloc: Global,
    days: &mut Vec<Name>,
    teams: &mut Vec<Member>,
    numbers: &mut Numbers,
    entry: Entry,
) -> Result<(), AllocError>
    requires { HasNumbers numbers.now (map (λ member. member.number) teams.now.items) }
    ensures put { OnOk result (record { days = days.new.items; teams = teams.new.items }
        ≡ with_entry days.old.items teams.old.items entry) }
    ensures kept { OnOk result
        (HasNumbers numbers.new (map (λ member. member.number) teams.new.items)) }
{
    match entry {
        Entry::Day(name) => days.push(name)?,
        Entry::Team(member) => {
            numbers.add(alloc, &member.number)?;
            teams.push(member)?;
        }
    }
    Ok(())
}

/// What the lines say from a place on.
fn series_in(alloc: Global, text: &[u8], start: usize) -> Result<Series, ListError>
    requires { start ≤ length text.now }
    ensures ok { IfOk result (Says (lines_of (drop start text.now))) }
    ensures refused { IfErr result (IsStopped (lines_of (drop start text.now))) }
{
    let mut days = Vec::new(alloc);
    let mut teams = Vec::new(alloc);
    let mut numbers = Numbers::new(alloc);
    let mut at = start;
    'lines: while let Some(line) = next_line(text, at) {
        let read = next_entry(alloc, &days, &teams, &numbers, &text[line.from..line.to])?;
        let Some(entry) = read else {
            return Err(ListError::Line((days.len() + teams.len()) as u32 + 2));
        };
        put(alloc, &mut days, &mut teams, &mut numbers, entry)?;
        at = line.next;
    }
    Ok(Series {
        days: Items::from_vec(days),
        teams: Items::from_vec(teams),
    })
}

/// The place behind the heading, where the text has it.
fn behind_heading(text: &[u8]) -> Option<usize>
    ensures { MatchOption result (HasNoHeading text.now) (IsBehindHeading text.now) }
{
    let line = next_line(text, 0)?;
    (&text[line.from..line.to] == HEADING).then_some(line.next)
}

/// What a list says, or why the text is none.
fn list_in(alloc: Global, text: &[u8]) -> Result<Series, ListError>
    ensures ok { IfOk result (IsList text.now) }
    ensures refused { IfErr result (IsRefused text.now) }
{
    let Some(start) = behind_heading(text) else {
        return Err(ListError::Heading);
    };
    series_in(alloc, text, start)
}

/// Reads the list of a championship: the heading, and then lines that name the sheets of its days
/// and the members of its teams, at most 30 and at most 1,000, in any order.
///
/// [`ListError::Heading`] comes exactly where the first line isn't the heading or isn't there, and
/// [`ListError::Line`] names the first line behind it that is none of these or that says a second
/// time what an earlier one says; [`ListError::Memory`] only for want of memory.
pub fn read_list(alloc: Global, text: &[u8]) -> Result<Series, ListError>
    // What is read has this text, and what has this text is read.
    ensures ok { IfOk result (IsList text.now) }
    ensures only { (series : Series) → IsList text.now series
        → MatchResult result (λ read. read ≡ series) (λ error. error ≡ Memory) }

    // What is told is so, and what is so is told.
    ensures refused { IfErr result (IsRefused text.now) }
    ensures exact { (error : ListError) → error ≢ Memory → IsRefused text.now error
        → IsErrOf result error ⊎ IsErrOf result Memory }
{
    list_in(alloc, text)
}
