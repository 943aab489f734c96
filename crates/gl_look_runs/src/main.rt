//! Worked examples of `look-over` and `why`, as a program: it says which changes of the days in
//! `data/` are answered otherwise than `stdin` expects, and then how many runs fail and what the
//! generated days give. The gate compares what it says with `stdout`. The expected answers were
//! written by hand.
#![tactic(auto)]

mod change;
mod folder;

use anyhow::Result;

fn main(rt: HostRuntime) -> Result<()> {
    change::try_all(&rt)?;
    folder::try_failing(&rt)?;
    folder::try_generated(&rt)
}
