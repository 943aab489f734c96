ghost use Rattle.std.specs.Prelude.{◌≡◌};
ghost use Rattle.gl_task.specs.Ceiling.{height};

/// The metres above the sea of an altitude, 0 below it.
pub(crate) fn height(altitude: i32) -> u32
    ensures { result ≡ height altitude }
{
    altitude.max(0) as u32
}
