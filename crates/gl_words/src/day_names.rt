ghost use Rattle.std.specs.Prelude.{◌≡◌, ◌≤◌, true, false, MatchOption, option_map};
ghost use Rattle.std.specs.Str.Parse.{digits_value};
ghost use Rattle.gl_words.specs.DayNames.{names_seen};
ghost use Rattle.gl_words.specs.DayWords.{check_form, day_names, is_worker_count, score_form, workers_of};

use gl_desk::Name;
use gl_text::{is_file_name, read_u64};

/// The greatest number of workers.
const MOST_WORKERS: u64 = 16;

/// A number of workers.
#[derive(Clone, Copy, Debug)]
pub struct Workers {
    pub count: u32,
    pub ghost least: { 1 ≤ count },
    pub ghost most: { count ≤ 16 },
}

impl Workers {
    /// One worker.
    const ONE: Workers = Workers { count: 1 };
}

/// The names of the two files of a day.
#[derive(Clone, Copy, Debug)]
pub struct DayNames<'a> {
    /// The file of the task.
    pub task: &'a Name,
    /// The file of the proof.
    pub proof: &'a Name,
}

/// The names of a day, where both are those of files.
fn read_names<'a>(task: &'a Name, proof: &'a Name) -> Option<DayNames<'a>>
    ensures { option_map names_seen result ≡ day_names task.now proof.now }
{
    if is_file_name(task.as_str()) && is_file_name(proof.as_str()) {
        Some(DayNames { task, proof })
    } else {
        None
    }
}

/// The number from 1 to 16 that a word writes.
pub fn read_workers(word: &Name) -> Option<Workers>
    ensures { MatchOption result
        (is_worker_count word.now ≡ false)
        (λ workers. (is_worker_count word.now ≡ true)
        × (workers.count ≡ digits_value 10 word.now)) }
{
    let count = read_u64(word.as_str().as_bytes())?;
    if count < 1 || count > MOST_WORKERS {
        return None;
    }
    Some(Workers {
        count: count as u32,
    })
}

/// The names in `score TASK PROOF WORKERS`, where the number of workers is 1 to 16.
pub fn read_score(words: &[Name]) -> Option<DayNames<'_>>
    ensures { option_map names_seen result ≡ score_form words.now }
{
    match words {
        [word, task, proof, workers]
            if word.as_str() == "score" && read_workers(workers).is_some() => {
            read_names(task, proof)
        }
        _ => None,
    }
}

/// The workers who are to work side by side by the words: one, unless these are of `score`.
pub fn read_workers_of(words: &[Name]) -> Workers
    ensures { result.count ≡ workers_of words.now }
{
    match (read_score(words), words.get(3)) {
        (Some(_), Some(word)) => read_workers(word).unwrap_or(Workers::ONE),
        _ => Workers::ONE,
    }
}

/// How many workers are to work side by side by the words: 1, unless these are of `score`.
pub fn worker_count(words: &[Name]) -> u32
    ensures { result ≡ workers_of words.now }
{
    read_workers_of(words).count
}

/// The names in `check TASK PROOF`.
pub fn read_check(words: &[Name]) -> Option<DayNames<'_>>
    ensures { option_map names_seen result ≡ check_form words.now }
{
    match words {
        [word, task, proof] if word.as_str() == "check" => read_names(task, proof),
        _ => None,
    }
}
