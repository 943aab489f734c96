ghost use Rattle.std.specs.Prelude.{◌≡◌, ◌++◌, ◌∷◌, ◌↔◌, [], ℕ, List, IfOk, IsTrue, OnOk, map};
ghost use Rattle.std.specs.List.{list_any};
ghost use Rattle.gl_look.specs.Line.{IsLineOf, IsTextOf};
ghost use Rattle.gl_look.specs.Keys.{is_open};
ghost use Rattle.gl_look.specs.Code.Remarks.{is_open_remark};

use crate::shown::push_subject;
use crate::told::{Slip, Told};
use std::alloc::{AllocError, Global};
use std::marker::Model;

/// A remark: what it tells, and the words before and after what it is about.
#[derive(Debug, Drop)]
pub struct Remark {
    pub told: Told,
    /// Where it stands, as `DAY.TOML, line 4: `.
    pub head: String,
    /// What is wrong, and what to do.
    pub words: String,
}

/// Remarks in their order. Contracts see what they tell.
#[derive(Debug, Drop)]
pub struct Remarks {
    remarks: Vec<Remark>,
}

impl Model for Remarks {
    ghost use Rattle.std.specs.Prelude.{List, map};
    ghost use Rattle.gl_look.specs.declared.remarks.Remark.{Remark as model_remark};
    ghost use Rattle.gl_look.specs.declared.told.Told.{Told as model_told};

    ghost Value = { List model_told };

    ghost view = { λ remarks. map (λ (r : model_remark). r.told) remarks.remarks.items };
}

/// Whether a remark is that a key is still to be filled in.
fn is_open(remark: &Remark) -> bool
    ensures { result ≡ is_open_remark remark.now }
{
    match remark.told.slip {
        Slip::FillIn => true,
        _ => false,
    }
}

/// Whether one of some remarks is that a key is still to be filled in.
fn any_open(remarks: &[Remark]) -> bool
    ensures { result ≡ list_any is_open_remark remarks.now }
{
    remarks.iter().any(|remark| is_open(remark))
}

/// Appends the line of a remark.
fn push_line(text: &mut Vec<u8>, remark: &Remark) -> Result<(), AllocError>
    ensures { OnOk result ((line : List ℕ) × IsLineOf remark.now.told line
        × (text.new.items ≡ text.old.items ++ line)) }
{
    text.extend_from_slice(remark.head.as_bytes())?;
    push_subject(text, &remark.told.subject)?;
    text.extend_from_slice(remark.words.as_bytes())?;
    text.extend_from_slice(b"\n")?;
    Ok(())
}

impl Remarks {
    /// No remarks.
    pub fn new(alloc: Global) -> Remarks
        ensures { result ≡ [] }
    {
        Remarks {
            remarks: Vec::new(alloc),
        }
    }

    /// Whether there are none.
    pub fn is_empty(&self) -> bool
        ensures { IsTrue result ↔ (self.now ≡ []) }
    {
        self.remarks.is_empty()
    }

    /// Whether one of them is that a key is still to be filled in.
    pub fn has_open(&self) -> bool
        ensures { result ≡ list_any is_open self.now }
    {
        any_open(&self.remarks)
    }

    /// Appends a remark.
    pub fn push(&mut self, told: Told, head: String, words: String) -> Result<(), AllocError>
        ensures { OnOk result (self.new ≡ self.old ++ told ∷ []) }
    {
        self.remarks.push(Remark { told, head, words })?;
        Ok(())
    }

    /// The remarks as lines.
    pub fn text(&self, alloc: Global) -> Result<Vec<u8>, AllocError>
        ensures { IfOk result (λ text. IsTextOf self.now text.items) }
    {
        let mut text = Vec::new(alloc);
        'remarks: for remark in &self.remarks {
            push_line(&mut text, remark)?;
        }
        Ok(text)
    }
}
