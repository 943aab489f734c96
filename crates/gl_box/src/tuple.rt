ghost use Rattle.std.specs.Prelude.{◌≡◌, ◌≤◌, All, drop, length};

/// The greatest number of axes.
pub const MOST_AXES: usize = 10;

/// A choice of one place on each of 1 to 10 axes. The places of the axes that aren't there are 0.
#[derive(Clone, Copy, Debug, PartialEq, Eq)]
pub struct Tuple {
    pub axes: u8,
    pub places: [u32; MOST_AXES],
    pub ghost some_axis: { 1 ≤ axes },
    pub ghost ten_axes: { axes ≤ 10 },
    pub ghost ten_places: { length places ≡ 10 },
    pub ghost unused: { All (λ place. place ≡ 0) (drop axes places) },
}

impl Tuple {
    ghost use Rattle.std.specs.Prelude.{◌≡◌, ◌≤◌, ◌<◌, length, replicate, slice_set};
    ghost use Rattle.gl_box.specs.Tuple.{places_of};

    /// The first place on each axis.
    pub fn first(axes: u8) -> Tuple
        requires some { 1 ≤ axes }
        requires most { axes ≤ 10 }
        ensures places { places_of result ≡ replicate axes 0 }
        ensures axes { result.axes ≡ axes }
    {
        Tuple {
            axes,
            places: [0; MOST_AXES],
        }
    }

    /// Chooses another place on an axis.
    pub fn choose(&mut self, axis: usize, place: u32)
        requires { axis < self.old.axes }
        ensures places { places_of self.new ≡ slice_set (places_of self.old) axis place }
        ensures axes { self.new.axes ≡ self.old.axes }
    {
        self.places[axis] = place;
    }
}
