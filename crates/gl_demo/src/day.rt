ghost use Rattle.std.specs.Prelude.{◌≡◌, ◌≤◌, IsTrue, IfOk};
ghost use Rattle.std.specs.Map.{keys_of};
ghost use Rattle.gl_desk.specs.MemDesk.{all_differ};
ghost use Rattle.gl_demo.specs.Day.{generated_files, named};

use crate::draws::Draws;
use crate::recording::{make_recording, name_recording};
use crate::task::{task_file, task_name};
use gl_desk::Name;
use std::alloc::{AllocError, Global};

/// How many entrants the day has.
const ENTRANTS: u32 = 4;

/// The files of the generated day of a number: a task and four recordings, each with its name.
pub fn generated_day(alloc: Global, number: u32) -> Result<Vec<(Name, Vec<u8>)>, AllocError>
    requires least { 1 ≤ number }
    requires most { number ≤ 1_000_000 }
    ensures files { IfOk result (λ files. named files.items ≡ generated_files number) }
    ensures differ { IfOk result (λ files. IsTrue (all_differ (keys_of files.items))) }
{
    let mut draws = Draws { value: number };
    let mut files = Vec::new(alloc);
    files.push((task_name(alloc)?, task_file(alloc)?))?;
    for entrant in 0..ENTRANTS {
        let name = name_recording(alloc, entrant)?;
        let recording = make_recording(alloc, &mut draws, entrant)?;
        files.push((name, recording))?;
    }
    Ok(files)
}
