ghost use Rattle.std.specs.Prelude.{◌≡◌, ◌<◌, ◌≤◌};
ghost use Rattle.gl_demo.specs.Draws.{after, drawn};

/// What the value is multiplied by before each draw.
const FACTOR: u64 = 1_103_515_245;

/// What is added then.
const SUMMAND: u64 = 12_345;

/// How many values there are.
const VALUES: u64 = 1 << 31;

/// The part of a value that a draw leaves out.
const LOW_PART: u32 = 65_536;

/// A stream of draws, which goes on from its value.
#[derive(Drop)]
pub struct Draws {
    pub value: u32,
}

impl Draws {
    /// Draws a number below the bound.
    pub fn draw(&mut self, bound: u32) -> u32
        requires { 0 < bound }
        ensures drawn { result ≡ drawn self.old.value 0 bound }
        ensures below { result < bound }
        ensures after { self.new.value ≡ after 1 self.old.value }
    {
        self.value = ((u64::from(self.value) * FACTOR + SUMMAND) % VALUES) as u32;
        self.value / LOW_PART % bound
    }
}
