ghost use Rattle.std.specs.Prelude.{◌≡◌, ◌<◌, ◌++◌, None, IfSome, IsSome, OnOk, option_map, pos};
ghost use Rattle.std.specs.Option.{option_to_list};
ghost use Rattle.gl_igc.specs.Columns.{day};
ghost use Rattle.gl_igc.specs.UsedFixes.{event_time, own_second};

use crate::columns::time;
use crate::events::Events;
use crate::own_second::{own_second, signed};
use crate::track::Track;
use std::alloc::AllocError;

/// The time of day of a PEV event; `None` of any other line.
#[tactic(auto, unfolding(crate::specs::UsedFixes::event_time))]
fn event_time(line: &[u8]) -> Option<u32>
    ensures value { result ≡ event_time line.now }
    ensures bound { IfSome result (λ time. time < day) }
{
    if line.len() < 10 || line[0] != b'E' || !line[7..].starts_with(b"PEV") {
        return None;
    }
    time(line)
}

/// Takes a line, where the track of the lines above it is given. Past the limit of fixes no event
/// is kept.
pub fn take_event(events: &mut Events, track: &Track, line: &[u8]) -> Result<(), AllocError>
    ensures past { IsSome track.now.excess → events.new.seconds.items ≡ events.old.seconds.items }
    ensures kept { OnOk result (track.now.excess ≡ None
        → events.new.seconds.items ≡ events.old.seconds.items
        ++ option_to_list (option_map (λ time. pos (own_second track.now.last time))
        (event_time line.now))) }
{
    if track.excess.is_some() {
        return Ok(());
    }
    let Some(time) = event_time(line) else {
        return Ok(());
    };
    let own = own_second(track.last, time);
    events.seconds.push(signed(own))?;
    Ok(())
}
