ghost use Rattle.std.specs.Prelude.{◌≡◌, ◌+◌, ◌*◌, ◌<◌, ◌≤◌, IfOk, OnOk};
ghost use Rattle.gl_demo.specs.Draws.{after};
ghost use Rattle.gl_demo.specs.Recording.{fixes_of, recording_head, recording_name, recording_text};

use crate::draws::Draws;
use crate::leg::{Leg, push_leg};
use crate::place::{Place, move_place};
use gl_desk::Name;
use std::alloc::{AllocError, Global};

/// The lines before those of the fixes.
const HEAD: &str = "AXXXGEN\nHFDTE010724\nI033638ENL3940LAD4142LOD\n";

/// How many bytes the line of a fix has.
const LINE_BYTES: usize = 43;

/// Where all flights begin.
pub const BEGIN: Place = Place {
    latitude: 287_800_000,
    longitude: 66_000_000,
};

/// What the first turn of a flight is about.
pub const ABOUT_FIRST: Place = Place {
    latitude: 292_000_000,
    longitude: 69_000_000,
};

/// What the second turn is about.
pub const ABOUT_SECOND: Place = Place {
    latitude: 290_000_000,
    longitude: 74_000_000,
};

/// Where all flights end.
const END: Place = Place {
    latitude: 288_000_000,
    longitude: 66_000_000,
};

/// The name of an entrant's recording.
pub fn name_recording(alloc: Global, entrant: u32) -> Result<Name, AllocError>
    requires { entrant < 4 }
    ensures { IfOk result (λ name. name ≡ recording_name entrant) }
{
    let text = format!(in alloc; "D{entrant}.IGC")?;
    Name::from_text(alloc, text.as_str())
}

/// The head of a recording, with room for so many lines of fixes.
fn begin_recording(alloc: Global, fixes: u32) -> Result<Vec<u8>, AllocError>
    requires { fixes ≤ 1_000_000 }
    ensures { IfOk result (λ text. text.items ≡ recording_head) }
{
    let mut text = Vec::with_capacity(alloc, HEAD.len() + LINE_BYTES * fixes as usize)?;
    text.extend_from_slice(HEAD.as_bytes())?;
    Ok(text)
}

/// The recording of an entrant.
pub fn make_recording(alloc: Global, draws: &mut Draws, entrant: u32) -> Result<Vec<u8>, AllocError>
    requires { entrant < 4 }
    ensures text { IfOk result (λ text. text.items ≡ recording_text entrant draws.old.value) }
    ensures after { OnOk result
        (draws.new.value ≡ after (4 + 6 * fixes_of entrant) draws.old.value) }
{
    let first = move_place(draws, ABOUT_FIRST);
    let second = move_place(draws, ABOUT_SECOND);
    let fixes = 6_000 - 200 * entrant;
    let begins = 36_000 + 60 * entrant;
    let mut text = begin_recording(alloc, 3 * fixes)?;
    let leg = Leg {
        from: BEGIN,
        to: first,
        fixes,
        begins,
    };
    push_leg(&mut text, draws, &leg)?;
    let leg = Leg {
        from: first,
        to: second,
        fixes,
        begins: begins + fixes,
    };
    push_leg(&mut text, draws, &leg)?;
    let leg = Leg {
        from: second,
        to: END,
        fixes,
        begins: begins + 2 * fixes,
    };
    push_leg(&mut text, draws, &leg)?;
    Ok(text)
}
