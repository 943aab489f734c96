//! Why an airspace text is refused.
ghost use Rattle.gl_laws.specs.Airspace.{FirstLineDecides};

/// A text is refused for the first of its lines that doesn't read in its place, begins the 257th
/// volume or is the 4,097th corner.
pub fn first_line_decides()
    ensures { FirstLineDecides }
{}
