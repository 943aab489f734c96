ghost use Rattle.std.specs.Prelude.{◌≡◌, IfOk};
ghost use Rattle.gl_demo.specs.Task.{task_file_name, task_text};

use gl_desk::Name;
use std::alloc::{AllocError, Global};

/// The task of the day.
const TASK: &str = r#"date = "2024-07-01"
kind = "area"
minimum = 14400
closes = 72000

[start]
at = "4800000N01100000E"
towards = "4840000N01130000E"
half = 5000
open = 36000
close = 43200

[[zone]]
at = "4840000N01130000E"
[[zone.part]]
radius = 20000

[[zone]]
at = "4820000N01220000E"
[[zone.part]]
radius = 20000

[finish]
at = "4800000N01100000E"
ring = 3000

[[entrant]]
number = "D0"
name = "Demo 0"
handicap = 1000
file = "D0.IGC"

[[entrant]]
number = "D1"
name = "Demo 1"
handicap = 1020
file = "D1.IGC"

[[entrant]]
number = "D2"
name = "Demo 2"
handicap = 1040
file = "D2.IGC"

[[entrant]]
number = "D3"
name = "Demo 3"
handicap = 1060
file = "D3.IGC"
"#;

/// The name of the task's file.
pub fn task_name(alloc: Global) -> Result<Name, AllocError>
    ensures { IfOk result (λ name. name ≡ task_file_name) }
{
    Name::from_text(alloc, "DAY.TOML")
}

/// The task's file.
pub fn task_file(alloc: Global) -> Result<Vec<u8>, AllocError>
    ensures { IfOk result (λ text. text.items ≡ task_text) }
{
    Vec::from_slice(alloc, TASK.as_bytes())
}
