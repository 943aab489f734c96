//! What triangles are like that aren't large.
ghost use Rattle.gl_laws.specs.Triangles.{IsAsBefore};

/// Below 750 kilometres the rule of 28 percent stands alone, for a triangle and for each test of a
/// box.
pub fn as_before()
    ensures { IsAsBefore }
{}
