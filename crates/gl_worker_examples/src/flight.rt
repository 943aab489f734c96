use gl_goal::FreeGoal;
use gl_igc::Fix;
use gl_sphere::{Grid, vector};
use std::alloc::Global;
use std::test::Fail;

/// A fix so many seconds after the first one, on a way that turns back and forth.
fn fix_at(second: u8) -> Fix {
    let grid = Grid {
        lat: i32::from(second) * 300,
        lon: i32::from(second % 5) * 700,
    };
    Fix {
        second: i32::from(second),
        grid,
        at: vector(grid),
        alt: 1_000,
        enl: None,
    }
}

/// The free distance over a flight of so many fixes.
pub(crate) fn free_goal(alloc: Global, count: u8) -> Result<FreeGoal, Fail> {
    let mut fixes = Vec::new(alloc);
    for second in 0..count {
        fixes.push(fix_at(second))?;
    }
    if fixes.is_empty() || fixes.len() > 255 {
        return Err("1 to 255 fixes")?;
    }
    let last = fixes.len() as u32 - 1;
    Ok(FreeGoal::new(alloc, fixes.as_slice(), 0, last, 1_000)?)
}
