use anyhow::Result;
use gl_task::Task;
use gl_task_file::read_task;
use std::fs;

/// The texts of the files of `data/` with these names, parted by blanks, one behind the other.
pub fn joined(rt: &HostRuntime, names: &str) -> Result<String> {
    let mut text = String::new(rt.alloc());
    for name in names.split_whitespace() {
        let file = format!(in rt.alloc(); "{name}.txt")?;
        let part = fs::read_to_string(rt, file.as_str())?;
        text.push_str(part.as_str())?;
    }
    Ok(text)
}

/// The task of the day of all examples, 2024-07-01, with the parts of these names and one entrant.
pub fn task_of(rt: &HostRuntime, names: &str) -> Result<Task> {
    let text = joined(rt, names)?;
    let entrant = joined(rt, "entrant")?;
    let text = format!(in rt.alloc(); "date = \"2024-07-01\"\n{text}{entrant}")?;
    Ok(read_task(rt.alloc(), text.as_bytes())?)
}
