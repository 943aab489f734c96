use anyhow::{Context, Result};
use csv::StringRecord;

/// A row of a table.
#[derive(Drop)]
pub struct Row<'a> {
    /// What the row shows; nothing if it goes on with what the row before shows.
    pub shows: &'a str,
    pub verb: &'a str,
    /// What the verb is given.
    pub input: &'a str,
    /// The answer that is expected.
    pub expected: &'a str,
}

impl<'a> Row<'a> {
    /// The row of a record, which has four fields.
    pub fn of_record(record: &'a StringRecord) -> Result<Row<'a>> {
        Ok(Row {
            shows: record.get(0).context("a row without fields")?,
            verb: record.get(1).context("a row without a verb")?,
            input: record.get(2).context("a row whose verb is given nothing")?,
            expected: record.get(3).context("a row without an answer")?,
        })
    }
}
