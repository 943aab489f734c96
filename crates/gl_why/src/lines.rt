ghost use Rattle.std.specs.Prelude.{◌≡◌, ◌++◌, ◌∷◌, [], ℕ, List, IfOk, OnOk, map};
ghost use Rattle.std.specs.List.{list_any};
ghost use Rattle.gl_why.specs.Code.Lines.{is_refused_line};
ghost use Rattle.gl_why.specs.Facts.{is_refusal};
ghost use Rattle.gl_why.specs.Line.{IsLineOf, IsTextOf};

use crate::fact::Fact;
use crate::label::push_label;
use std::alloc::{AllocError, Global};
use std::marker::Model;

/// A line: what it tells, and the words before and after what that is about.
#[derive(Debug, Drop)]
pub struct Line {
    pub told: Fact,
    pub head: String,
    pub words: String,
}

/// Lines in their order. Contracts see what they tell.
#[derive(Debug, Drop)]
pub struct Lines {
    lines: Vec<Line>,
}

impl Model for Lines {
    ghost use Rattle.std.specs.Prelude.{List, map};
    ghost use Rattle.gl_why.specs.declared.fact.Fact.{Fact as model_fact};
    ghost use Rattle.gl_why.specs.declared.lines.Line.{Line as model_line};

    ghost Value = { List model_fact };

    ghost view = { λ lines. map (λ (l : model_line). l.told) lines.lines.items };
}

/// Whether a line tells that a file can't be used.
fn is_refused(line: &Line) -> bool
    ensures { result ≡ is_refused_line line.now }
{
    match &line.told {
        Fact::Refused(..) => true,
        _ => false,
    }
}

/// Whether one of some lines tells that a file can't be used.
fn any_refused(lines: &[Line]) -> bool
    ensures { result ≡ list_any is_refused_line lines.now }
{
    lines.iter().any(|line| is_refused(line))
}

/// Appends a line to a text.
fn push_line(text: &mut Vec<u8>, line: &Line) -> Result<(), AllocError>
    ensures { OnOk result ((piece : List ℕ) × IsLineOf line.now.told piece
        × (text.new.items ≡ text.old.items ++ piece)) }
{
    text.extend_from_slice(line.head.as_bytes())?;
    push_label(text, &line.told)?;
    text.extend_from_slice(line.words.as_bytes())?;
    text.extend_from_slice(b"\n")?;
    Ok(())
}

impl Lines {
    /// No lines.
    pub fn new(alloc: Global) -> Lines
        ensures { result ≡ [] }
    {
        Lines {
            lines: Vec::new(alloc),
        }
    }

    /// Whether one of them tells that a file can't be used.
    pub fn has_refusal(&self) -> bool
        ensures { result ≡ list_any is_refusal self.now }
    {
        any_refused(&self.lines)
    }

    /// Appends a line.
    pub fn push(&mut self, told: Fact, head: String, words: String) -> Result<(), AllocError>
        ensures { OnOk result (self.new ≡ self.old ++ told ∷ []) }
    {
        self.lines.push(Line { told, head, words })?;
        Ok(())
    }

    /// The lines as a text.
    pub fn text(&self, alloc: Global) -> Result<Vec<u8>, AllocError>
        ensures { IfOk result (λ text. IsTextOf self.now text.items) }
    {
        let mut text = Vec::new(alloc);
        'lines: for line in &self.lines {
            push_line(&mut text, line)?;
        }
        Ok(text)
    }
}
