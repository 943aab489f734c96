ghost use Rattle.std.specs.Prelude.{◌≡◌, ◌++◌, ◌∷◌, [], List, OnOk, filter};
ghost use Rattle.gl_draft.specs.declared.value.Value.TheVariants as value;
ghost use Rattle.gl_draft.specs.declared.line.Line.TheVariants.{Head, Said, Open, Radials};
ghost use Rattle.gl_draft.specs.Line.{is_spoken};

use crate::line::Line;
use crate::value::Value;
use crate::word::{Key, Section};
use gl_desk::Name;
use std::alloc::{AllocError, Global};
use std::marker::Model;

/// The lines of a task file as they are made. Contracts see those that say something of the task.
#[derive(Debug, Drop)]
pub struct Lines {
    alloc: Global,
    lines: Vec<Line>,
}

impl Model for Lines {
    ghost use Rattle.std.specs.Prelude.{List, filter};
    ghost use Rattle.gl_draft.specs.declared.line.Line as model_line;
    ghost use Rattle.gl_draft.specs.Line.{is_spoken as is_spoken_line};

    ghost Value = { List model_line.Line };

    ghost view = { λ lines. filter is_spoken_line lines.lines.items };
}

impl Lines {
    /// No lines.
    pub fn new(alloc: Global) -> Lines
        ensures { result ≡ [] }
    {
        Lines {
            alloc,
            lines: Vec::new(alloc),
        }
    }

    /// Where the texts of its lines are allocated.
    pub fn alloc(&self) -> Global {
        self.alloc
    }

    /// The lines, with the remarks and the empty ones.
    pub fn as_slice(&self) -> &[Line]
        ensures { filter is_spoken result.now ≡ self.now }
    {
        self.lines.as_slice()
    }

    /// Appends an empty line.
    #[tactic(auto, using(crate::proofs::LineLemmas::spoken_more))]
    pub fn gap(&mut self) -> Result<(), AllocError>
        ensures { OnOk result (self.new ≡ self.old) }
    {
        self.lines.push(Line::Gap)?;
        Ok(())
    }

    /// Appends a remark.
    #[tactic(auto, using(crate::proofs::LineLemmas::spoken_more))]
    pub fn remark(&mut self, text: String) -> Result<(), AllocError>
        ensures { OnOk result (self.new ≡ self.old) }
    {
        self.lines.push(Line::Remark(text))?;
        Ok(())
    }

    /// Appends a remark with a text that is always the same.
    pub fn note(&mut self, text: &str) -> Result<(), AllocError>
        ensures { OnOk result (self.new ≡ self.old) }
    {
        let text = String::from_str(self.alloc, text)?;
        self.remark(text)
    }

    /// Appends a remark, if there is one.
    pub fn note_if(&mut self, text: Option<String>) -> Result<(), AllocError>
        ensures { OnOk result (self.new ≡ self.old) }
    {
        match text {
            Some(text) => self.remark(text),
            None => Ok(()),
        }
    }

    /// Appends the line that begins a section.
    #[tactic(auto, using(crate::proofs::LineLemmas::spoken_more))]
    pub fn head(&mut self, section: Section) -> Result<(), AllocError>
        ensures { OnOk result (self.new ≡ self.old ++ Head section ∷ []) }
    {
        self.lines.push(Line::Head(section))?;
        Ok(())
    }

    /// Appends a key with a value.
    #[tactic(auto, using(crate::proofs::LineLemmas::spoken_more))]
    pub fn say(&mut self, key: Key, value: Value) -> Result<(), AllocError>
        ensures { OnOk result (self.new ≡ self.old ++ Said key value ∷ []) }
    {
        self.lines.push(Line::Said(key, value))?;
        Ok(())
    }

    /// Appends a key with a number.
    pub fn amount(&mut self, key: Key, n: u32) -> Result<(), AllocError>
        ensures { OnOk result (self.new ≡ self.old ++ Said key (value.Amount n) ∷ []) }
    {
        self.say(key, Value::Amount(n))
    }

    /// Appends a key with a text.
    pub fn text(&mut self, key: Key, text: &Name) -> Result<(), AllocError>
        ensures { OnOk result (self.new ≡ self.old ++ Said key (value.Text text.now) ∷ []) }
    {
        let text = Name::from_text(self.alloc, text.as_str())?;
        self.say(key, Value::Text(text))
    }

    /// Appends a key that is left to fill in.
    #[tactic(auto, using(crate::proofs::LineLemmas::spoken_more))]
    pub fn ask(&mut self, key: Key, n: u64) -> Result<(), AllocError>
        ensures { OnOk result (self.new ≡ self.old ++ Open key n ∷ []) }
    {
        self.lines.push(Line::Open(key, n))?;
        Ok(())
    }

    /// Appends the radials that a sector has if it lies about a direction.
    #[tactic(auto, using(crate::proofs::LineLemmas::spoken_more))]
    pub fn offer(&mut self, middle: u32, from: u32, to: u32) -> Result<(), AllocError>
        ensures { OnOk result (self.new ≡ self.old ++ Radials middle from to ∷ []) }
    {
        self.lines.push(Line::Radials(middle, from, to))?;
        Ok(())
    }
}
