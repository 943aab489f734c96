use gl_sphere::Vec3;

/// What a recording shows of its declared course: the start, the turn points and the finish, in
/// this order.
#[derive(Debug, Drop)]
pub enum Course {
    /// Nothing was declared.
    Undeclared,
    /// It has more than 10 points.
    Long,
    /// No fix is within 500 m of the point with this number, which is the first such; the points
    /// count from 1.
    Missed(u32),
    /// Each point was reached.
    Lists {
        /// For each point the numbers of the fixes within 500 m.
        lists: Vec<Vec<u32>>,
        /// The points.
        points: Vec<Vec3>,
    },
}
