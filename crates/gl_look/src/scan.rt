use crate::told::{Place, Section};
use gl_desk::Name;
use std::alloc::{AllocError, Global};

/// What a line of a task file begins or says.
#[derive(Clone, Copy, Debug)]
enum Row<'a> {
    /// A section, as `[start]`.
    Table(&'a str),
    /// One more item of a list, as `[[zone]]`.
    Item(&'a str),
    /// A key and its value, as they are written.
    Key(&'a str, &'a str),
    Other,
}

/// What stands between two brackets at the front of a line.
fn between<'a>(line: &'a str, open: &str, close: &str) -> Option<&'a str> {
    let (inner, _) = line.strip_prefix(open)?.split_once(close)?;
    Some(inner.trim())
}

/// A text without the quotes round it.
pub fn unquoted(text: &str) -> &str {
    let text = text.strip_prefix("\"").unwrap_or(text);
    match text.split_once("\"") {
        Some((inner, _)) => inner,
        None => text,
    }
}

/// What a line begins or says.
fn row_of(line: &str) -> Row<'_> {
    let line = line.trim();
    if line.starts_with("#") {
        return Row::Other;
    }
    if let Some(name) = between(line, "[[", "]]") {
        return Row::Item(name);
    }
    if let Some(name) = between(line, "[", "]") {
        return Row::Table(name);
    }
    match line.split_once("=") {
        Some((key, value)) => Row::Key(unquoted(key.trim()), value.trim()),
        None => Row::Other,
    }
}

/// How far a scan has come.
#[derive(Clone, Copy, Debug)]
struct Progress {
    section: Option<Section>,
    zones: usize,
    parts: usize,
    entrants: usize,
}

impl Progress {
    /// At the top of the file.
    fn new() -> Progress {
        Progress {
            section: Some(Section::Day),
            zones: 0,
            parts: 0,
            entrants: 0,
        }
    }

    /// Behind the line that begins a section.
    fn in_table(self, name: &str) -> Progress {
        let section = if name == "start" {
            Some(Section::Start)
        } else if name == "finish" {
            Some(Section::Finish)
        } else if name == "rules" {
            Some(Section::Rules)
        } else {
            None
        };
        Progress { section, ..self }
    }

    /// Behind the line that begins an item.
    fn in_item(self, name: &str) -> Progress {
        let mut next = self;
        if name == "zone" {
            next.section = Some(Section::Zone);
            next.zones = self.zones.saturating_add(1);
            next.parts = 0;
        } else if name == "zone.part" {
            next.section = Some(Section::Part);
            next.parts = self.parts.saturating_add(1);
        } else if name == "entrant" {
            next.section = Some(Section::Entrant);
            next.entrants = self.entrants.saturating_add(1);
        } else {
            next.section = None;
        }
        next
    }

    /// Behind a line.
    fn behind(self, row: Row<'_>) -> Progress {
        match row {
            Row::Table(name) => self.in_table(name),
            Row::Item(name) => self.in_item(name),
            Row::Key(_, _) | Row::Other => self,
        }
    }

    /// The table that the scan is in, if it is one of a task file.
    fn place(self) -> Option<Place> {
        let (item, part) = match self.section? {
            Section::Zone => (self.zones, 0),
            Section::Part => (self.zones, self.parts),
            Section::Entrant => (self.entrants, 0),
            Section::Day | Section::Start | Section::Finish | Section::Rules => (0, 0),
        };
        Some(Place {
            section: self.section?,
            item,
            part,
        })
    }
}

/// The text of a task file, whose lines are found by a plain scan.
#[derive(Clone, Copy, Debug)]
pub struct Scan<'a> {
    pub file: &'a Name,
    pub text: &'a str,
}

/// Whether a line begins a table.
fn is_header(row: Row<'_>) -> bool {
    match row {
        Row::Table(_) | Row::Item(_) => true,
        Row::Key(_, _) | Row::Other => false,
    }
}

/// Whether a line has a key.
fn has_key(row: Row<'_>, name: &str) -> bool {
    match row {
        Row::Key(key, _) => key == name,
        Row::Table(_) | Row::Item(_) | Row::Other => false,
    }
}

impl<'a> Scan<'a> {
    /// The line on which a table begins, as far as the text shows it.
    pub fn line_of_table(&self, place: Place) -> Option<usize> {
        let mut progress = Progress::new();
        for (n, line) in self.text.lines().enumerate() {
            let row = row_of(line);
            progress = progress.behind(row);
            if is_header(row) && progress.place() == Some(place) {
                return Some(n.saturating_add(1));
            }
        }
        None
    }

    /// The line on which a table of this name begins.
    fn line_of_name(&self, name: &str) -> Option<usize> {
        for (n, line) in self.text.lines().enumerate() {
            match row_of(line) {
                Row::Table(found) | Row::Item(found) if found == name => {
                    return Some(n.saturating_add(1));
                }
                _ => {}
            }
        }
        None
    }

    /// The line of a key in a table; that of the table, if the text doesn't show the key.
    pub fn line_of_key(&self, place: Place, key: &str) -> Option<usize> {
        let mut progress = Progress::new();
        for (n, line) in self.text.lines().enumerate() {
            let row = row_of(line);
            progress = progress.behind(row);
            if has_key(row, key) && progress.place() == Some(place) {
                return Some(n.saturating_add(1));
            }
        }
        self.line_of_name(key).or(self.line_of_table(place))
    }

    /// The value of a key in a table, as it is written, without quotes.
    pub fn value_of(&self, place: Place, name: &str) -> Option<&'a str> {
        let mut progress = Progress::new();
        for line in self.text.lines() {
            let row = row_of(line);
            progress = progress.behind(row);
            match row {
                Row::Key(key, value) if key == name && progress.place() == Some(place) => {
                    return Some(unquoted(value));
                }
                _ => {}
            }
        }
        None
    }

    /// The line on which an entrant's number stands.
    pub fn line_of_number(&self, number: &str) -> Option<usize> {
        for (n, line) in self.text.lines().enumerate() {
            match row_of(line) {
                Row::Key(key, value) if key == "number" && unquoted(value) == number => {
                    return Some(n.saturating_add(1));
                }
                _ => {}
            }
        }
        None
    }

    /// The words before what a remark is about: the file, and the line, if there is one.
    pub fn head(&self, alloc: Global, line: Option<usize>) -> Result<String, AllocError> {
        let file = self.file.as_str();
        match line {
            Some(line) => format!(in alloc; "{file}, line {line}: "),
            None => format!(in alloc; "{file}: "),
        }
    }
}
