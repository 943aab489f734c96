ghost use Rattle.gl_igc.specs.Code.Seconds.{AreBelow};

/// The own seconds of the events of the lines so far.
#[derive(Drop)]
pub struct Events {
    pub seconds: Vec<i32>,
    pub ghost below: { AreBelow 500_000 seconds.items },
}
