use std::fmt;

/// A key of the task file: its row in the table of keys (docs/task-file.md), the item of its list,
/// and the part. Items and parts count from 1; where there is none the number is 0.
#[derive(Clone, Copy, Debug, PartialEq, Eq)]
pub struct Key {
    pub row: u32,
    pub item: u32,
    pub part: u32,
}

/// A key is printed as its row, item and part, with points between them.
impl fmt::Display for Key {
    fn fmt<W: fmt::Write>(&self, f: &mut fmt::Formatter<W>) -> fmt::Result {
        write!(f, "{}.{}.{}", self.row, self.item, self.part)
    }
}
