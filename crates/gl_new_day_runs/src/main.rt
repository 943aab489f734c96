//! Worked examples of `new-day`, as a program: it says which changes of the files in `data/` are
//! answered otherwise than `stdin` expects, and then what is made of whole files. The gate compares
//! what it says with `stdout`. The expected answers and texts were written by hand.
#![tactic(auto)]

mod change;
mod folder;

use anyhow::Result;

fn main(rt: HostRuntime) -> Result<()> {
    change::try_all(&rt)?;
    folder::try_failing(&rt)?;
    folder::show_long_recordings(&rt)?;
    folder::show(&rt, "wide.cup", "1")?;
    folder::show(&rt, "xcsoar.cup", "1")?;
    folder::show(&rt, "club.cup", "2")
}
