use gl_box::Tuple;

/// A place for each of the three fixes of a triangle.
#[derive(Clone, Copy)]
pub(crate) struct Places {
    pub first: u32,
    pub second: u32,
    pub third: u32,
}

impl Places {
    ghost use Rattle.std.specs.Prelude.{◌≡◌};
    ghost use Rattle.gl_box.specs.Tuple.{places_of};
    ghost use Rattle.gl_triangle.specs.Code.Places.{places_in};

    /// The tuple of these places.
    pub fn tuple(&self) -> Tuple
        ensures { places_of result ≡ places_in self.now }
    {
        Tuple {
            axes: 3,
            places: [self.first, self.second, self.third, 0, 0, 0, 0, 0, 0, 0],
        }
    }
}
