ghost use Rattle.std.specs.Prelude.{◌≡◌, ◌≢◌, ◌≤◌, None, Some, IfOk, IfErr, IsTrue, codes, length, map, vec_len};
ghost use Rattle.std.specs.List.{list_all};
ghost use Rattle.toml.specs.View.{table_view};
ghost use Rattle.gl_task_file.specs.declared.error.TaskError.TheVariants.{Memory};
ghost use Rattle.gl_task_file.specs.Keys.{first_failed, list_at};
ghost use Rattle.gl_task_file.specs.Meaning.{Each, IsEntrant, IsFinish, IsRules, IsZone};
ghost use Rattle.gl_task.specs.Numbers.{none_repeats};
ghost use Rattle.gl_task.specs.Ranges.{is_in_range, is_round_its_centre};
ghost use Rattle.gl_task_file.specs.Code.Sections.{IsCourse, IsDay, IsHead};
ghost use Rattle.gl_task_file.specs.Tests.{course_tests, day_tests, head_tests, numbered_tests, people_tests, plan_tests, way_tests};

use crate::course::Course;
use crate::entrants::read_entrants;
use crate::error::TaskError;
use crate::finish::read_finish;
use crate::head::{read_airspace, read_minimum};
use crate::key::{needed_day, needed_kind, needed_whole, row};
use crate::limit::LAST_SECOND;
use crate::lists::{Lists, read_lists};
use crate::opening::Day;
use crate::rules::read_rules;
use crate::start::read_start;
use crate::twice::test_numbers;
use crate::zones::read_zones;
use gl_task::{Entrant, Finish, LocalRules};
use gl_text::Items;
use gl_zone::Zone;
use std::alloc::Global;
use toml::Table;

/// The day: its date, the kind of its task, its end and its airspace file.
#[tactic(auto, unfolding(crate::specs::Tests::day_tests))]
fn read_day(alloc: Global, file: &Table) -> Result<Day, TaskError>
    ensures ok { IfOk result (IsDay (table_view file.now)) }
    ensures passes { IfOk result (λ day. first_failed (day_tests (table_view file.now)) ≡ None) }
    ensures refused { IfErr result (λ e. e ≢ Memory
        → first_failed (day_tests (table_view file.now)) ≡ Some e) }
{
    let date = needed_day(file, "date", row(1))?;
    let word = needed_kind(file, "kind", row(2))?;
    let kind = read_minimum(file, word)?;
    let closes = needed_whole(file, "closes", row(4), 1, LAST_SECOND)?;
    let airspace = read_airspace(alloc, file)?;
    Ok(Day {
        date,
        kind,
        closes: closes as i32,
        airspace,
    })
}

/// The day, and the lists that are asked for.
#[tactic(auto, unfolding(crate::specs::Tests::head_tests), using(crate::proofs::TestLemmas::behind_all, crate::proofs::TestLemmas::before_all))]
fn read_head(alloc: Global, file: &Table) -> Result<(Day, Lists), TaskError>
    ensures ok { IfOk result (λ head. IsHead (table_view file.now) head.0 head.1) }
    ensures passes { IfOk result (λ head. first_failed (head_tests (table_view file.now)) ≡ None) }
    ensures refused { IfErr result (λ e. e ≢ Memory
        → first_failed (head_tests (table_view file.now)) ≡ Some e) }
{
    let day = read_day(alloc, file)?;
    let lists = read_lists(file)?;
    Ok((day, lists))
}

/// The zones and the finish.
#[tactic(auto, unfolding(crate::specs::Tests::way_tests), using(crate::proofs::TestLemmas::behind_all, crate::proofs::TestLemmas::before_all))]
fn read_way(alloc: Global, file: &Table) -> Result<(Vec<Zone>, Finish), TaskError>
    ensures zones { IfOk result
        (λ way. Each IsZone (list_at (codes "zone") (table_view file.now)) way.0.items) }
    ensures some { IfOk result (λ way. 1 ≤ vec_len way.0) }
    ensures few { IfOk result (λ way. vec_len way.0 ≤ 8) }
    ensures round { IfOk result (λ way. IsTrue (list_all is_round_its_centre way.0.items)) }
    ensures finish { IfOk result (λ way. IsFinish (table_view file.now) way.1) }
    ensures range { IfOk result (λ way. IsTrue (is_in_range way.1)) }
    ensures passes { IfOk result (λ way. first_failed (way_tests (table_view file.now)) ≡ None) }
    ensures refused { IfErr result (λ e. e ≢ Memory
        → first_failed (way_tests (table_view file.now)) ≡ Some e) }
{
    let zones = read_zones(alloc, file)?;
    let finish = read_finish(file)?;
    Ok((zones, finish))
}

/// The way: the start, the zones and the finish.
#[tactic(auto, unfolding(crate::specs::Tests::course_tests), using(crate::proofs::TestLemmas::behind_all, crate::proofs::TestLemmas::before_all))]
fn read_course(alloc: Global, file: &Table) -> Result<Course, TaskError>
    ensures ok { IfOk result (IsCourse (table_view file.now)) }
    ensures passes { IfOk result
        (λ course. first_failed (course_tests (table_view file.now)) ≡ None) }
    ensures refused { IfErr result (λ e. e ≢ Memory
        → first_failed (course_tests (table_view file.now)) ≡ Some e) }
{
    let start = read_start(file)?;
    let (zones, finish) = read_way(alloc, file)?;
    Ok(Course {
        start,
        zones: Items::from_vec(zones),
        finish,
    })
}

/// The day, the lists and the way.
#[tactic(auto, unfolding(crate::specs::Tests::plan_tests), using(crate::proofs::TestLemmas::behind_all, crate::proofs::TestLemmas::before_all))]
pub fn read_plan(alloc: Global, file: &Table) -> Result<(Day, Lists, Course), TaskError>
    ensures head { IfOk result (λ plan. IsHead (table_view file.now) plan.0 plan.1) }
    ensures course { IfOk result (λ plan. IsCourse (table_view file.now) plan.2) }
    ensures passes { IfOk result (λ plan. first_failed (plan_tests (table_view file.now)) ≡ None) }
    ensures refused { IfErr result (λ e. e ≢ Memory
        → first_failed (plan_tests (table_view file.now)) ≡ Some e) }
{
    let (day, lists) = read_head(alloc, file)?;
    let course = read_course(alloc, file)?;
    Ok((day, lists, course))
}

/// The entrants of a task, whose numbers differ.
#[tactic(auto, unfolding(crate::specs::Tests::numbered_tests), using(crate::proofs::NumberLemmas::twice_is, crate::proofs::TestLemmas::behind_all, crate::proofs::TestLemmas::before_all))]
fn read_numbered(alloc: Global, file: &Table) -> Result<Vec<Entrant>, TaskError>
    ensures ok { IfOk result (λ entrants.
        Each IsEntrant (list_at (codes "entrant") (table_view file.now)) entrants.items) }
    ensures some { IfOk result (λ entrants. 1 ≤ vec_len entrants) }
    ensures few { IfOk result (λ entrants. vec_len entrants ≤ 200) }
    ensures differ { IfOk result (λ entrants.
        IsTrue (none_repeats (map (λ entrant. entrant.number) entrants.items))) }
    ensures passes { IfOk result
        (λ entrants. first_failed (numbered_tests (table_view file.now)) ≡ None) }
    ensures refused { IfErr result (λ e. e ≢ Memory
        → first_failed (numbered_tests (table_view file.now)) ≡ Some e) }
{
    let entrants = read_entrants(alloc, file)?;
    test_numbers(entrants.as_slice())?;
    Ok(entrants)
}

/// The local rules and the entrants, whose numbers differ.
#[tactic(auto, unfolding(crate::specs::Tests::people_tests), using(crate::proofs::TestLemmas::behind_all, crate::proofs::TestLemmas::before_all))]
pub fn read_people(alloc: Global, file: &Table) -> Result<(LocalRules, Vec<Entrant>), TaskError>
    ensures rules { IfOk result (λ people. IsRules (table_view file.now) people.0) }
    ensures entrants { IfOk result (λ people.
        Each IsEntrant (list_at (codes "entrant") (table_view file.now)) people.1.items) }
    ensures some { IfOk result (λ people. 1 ≤ vec_len people.1) }
    ensures few { IfOk result (λ people. vec_len people.1 ≤ 200) }
    ensures differ { IfOk result (λ people.
        IsTrue (none_repeats (map (λ entrant. entrant.number) people.1.items))) }
    ensures passes { IfOk result
        (λ people. first_failed (people_tests (table_view file.now)) ≡ None) }
    ensures refused { IfErr result (λ e. e ≢ Memory
        → first_failed (people_tests (table_view file.now)) ≡ Some e) }
{
    let rules = read_rules(file)?;
    let entrants = read_numbered(alloc, file)?;
    Ok((rules, entrants))
}
