ghost use Rattle.std.specs.Prelude.{◌<◌, ◌^◌};

use crate::hull::Hull;
use gl_sphere::Vec3;

/// The legs along some points: how long they are, in centimetres, and where they end.
#[derive(Clone, Copy)]
pub(crate) struct Way {
    pub length: u64,
    pub end: Vec3,
    pub ghost below: { length < 2 ^ 44 },
}

/// The greatest legs from hull to hull: how long they are, in centimetres, and where they end.
#[derive(Clone, Copy)]
pub(crate) struct GreatestWay {
    pub length: u64,
    pub end: Hull,
    pub ghost below: { length < 2 ^ 44 },
}
