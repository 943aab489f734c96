ghost use Rattle.std.specs.Prelude.{◌≡◌, ◌+◌, ◌<◌, ℕ, List, [], ◌∷◌, ◌++◌, OnOk, if◌then◌else◌, option_map};
ghost use Rattle.gl_sphere.specs.PlaceText.{place_of, place_of_text};
ghost use Rattle.gl_text.specs.Digits.{columns};
ghost use Rattle.gl_igc.specs.Declaration.{declared_by, declared_count, is_declaration_line};
ghost use Rattle.gl_igc.specs.Parts.{IsDeclarationOf, IsRead};
ghost use Rattle.gl_igc.specs.Recording.{declared_of};
ghost use Rattle.gl_igc.specs.declared.declaration.Heading.TheVariants.{Awaited, Read, Damaged};

use crate::declaration::{Count, Declaration, Heading};
use crate::fix_line::are_digits;
use crate::recording::Declared;
use gl_sphere::{Grid, read_place};
use gl_text::{Items, read_digits};
use std::alloc::AllocError;

/// The columns of a heading that hold digits end here.
const HEADING_LENGTH: usize = 25;

/// How many places the heading declares; `None` where it is short or one of columns 2 to 25 has no
/// digit.
#[tactic(auto, unfolding(crate::specs::Declaration::declared_count))]
fn read_count(heading: &[u8]) -> Option<Count>
    ensures { option_map (λ count. count.places) result ≡ declared_count heading.now }
{
    if heading.len() < HEADING_LENGTH || !are_digits(&heading[1..25]) {
        return None;
    }
    let turn_points = read_digits(&heading[23..25])?;
    Some(Count {
        places: turn_points as usize + 4,
    })
}

/// The place in columns 2 to 18.
fn read_declared_place(line: &[u8]) -> Option<Grid>
    ensures { option_map place_of result ≡ place_of_text (columns 2 18 line.now) }
{
    if line.len() < 18 {
        None
    } else {
        read_place(&line[1..18])
    }
}

/// Takes the first C line.
fn take_heading(declaration: &mut Declaration, line: &[u8])
    requires { declaration.old.heading ≡ Awaited }
    ensures { (lines : List (List ℕ)) → IsDeclarationOf lines declaration.old
        → IsDeclarationOf (lines ++ line.now ∷ []) declaration.new }
{
    declaration.heading = match read_count(line) {
        Some(count) => Heading::Read(count),
        None => Heading::Damaged,
    };
}

/// Takes a C line after the heading.
fn take_place(declaration: &mut Declaration, count: Count, line: &[u8]) -> Result<(), AllocError>
    requires { declaration.old.heading ≡ Read count }
    ensures { OnOk result ((lines : List (List ℕ)) → IsDeclarationOf lines declaration.old
        → IsDeclarationOf (lines ++ line.now ∷ []) declaration.new) }
{
    if declaration.points.len() >= count.places {
        return Ok(());
    }
    match read_declared_place(line) {
        Some(place) => {
            declaration.points.push(place)?;
            Ok(())
        }
        None => {
            declaration.heading = Heading::Damaged;
            Ok(())
        }
    }
}

/// Takes a line.
pub fn take_declared(declaration: &mut Declaration, line: &[u8]) -> Result<(), AllocError>
    ensures { OnOk result ((lines : List (List ℕ)) → IsDeclarationOf lines declaration.old
        → IsDeclarationOf (lines ++ (if is_declaration_line line.now then line.now ∷ [] else []))
        declaration.new) }
{
    if line.is_empty() || line[0] != b'C' {
        return Ok(());
    }
    match declaration.heading {
        Heading::Awaited => {
            take_heading(declaration, line);
            Ok(())
        }
        Heading::Read(count) => take_place(declaration, count, line),
        Heading::Damaged => Ok(()),
    }
}

/// The declared places, if the declaration is whole.
pub fn declared(declaration: Declaration) -> Option<Declared>
    ensures { (lines : List (List ℕ)) → IsDeclarationOf lines declaration
        → declared_of result ≡ declared_by lines }
{
    let Declaration { heading, points } = declaration;
    match heading {
        Heading::Read(count) if points.len() == count.places => Some(Declared {
            points: Items::from_vec(points),
        }),
        _ => None,
    }
}
