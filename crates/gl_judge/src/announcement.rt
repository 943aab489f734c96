ghost use Rattle.std.specs.Prelude.{◌≡◌, ◌↔◌, ◌+ℤ◌, IsTrue, take};
ghost use Rattle.std.specs.List.{list_any};
ghost use Rattle.gl_judge.specs.Starts.{IsAnnounced, is_in_window};

use gl_task::PilotStart;

/// So many events of a recording, the first ones, can announce a start.
const COUNTED_EVENTS: usize = 3;

/// The first second of the window that an event opens.
fn window_from(pilot: PilotStart, event: i32) -> i64
    ensures { result ≡ event +ℤ pilot.wait }
{
    i64::from(event) + i64::from(pilot.wait)
}

/// The last second of the window that an event opens.
fn window_until(pilot: PilotStart, event: i32) -> i64
    ensures { result ≡ (event +ℤ pilot.wait) +ℤ pilot.width }
{
    window_from(pilot, event) + i64::from(pilot.width)
}

/// Whether a time is in the window that an event opens.
fn is_in_window(pilot: PilotStart, time: i32, event: i32) -> bool
    ensures { result ≡ is_in_window pilot time event }
{
    let time = i64::from(time);
    window_from(pilot, event) <= time && time <= window_until(pilot, event)
}

/// Whether a time is in the window of an event that counts.
fn has_event(pilot: PilotStart, events: &[i32], time: i32) -> bool
    ensures { result ≡ list_any (is_in_window pilot time) (take 3 events.now) }
{
    let counted = &events[..events.len().min(COUNTED_EVENTS)];
    counted
        .iter()
        .any(|event| is_in_window(pilot, time, *event))
}

/// Whether a start at a time is announced by one of the events, if it has to be.
pub fn is_announced(pilot: Option<PilotStart>, events: &[i32], time: i32) -> bool
    ensures { IsTrue result ↔ IsAnnounced pilot events.now time }
{
    match pilot {
        Some(pilot) => has_event(pilot, events, time),
        None => true,
    }
}
