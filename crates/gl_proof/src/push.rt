ghost use Rattle.std.specs.Prelude.{◌≡◌, ◌∷◌, ◌++◌, codes, OnOk, OnErr};
ghost use Rattle.std.specs.Fmt.{decimal};
ghost use Rattle.gl_proof.specs.Kept.{Keeps};
ghost use Rattle.gl_proof.specs.Words.{total_word};

use gl_text::push_u64;
use std::alloc::AllocError;

/// Appends a byte and a word behind it.
pub fn push_word(out: &mut Vec<u8>, before: u8, word: &[u8]) -> Result<(), AllocError>
    ensures ok { OnOk result (out.new.items ≡ out.old.items ++ before ∷ word.now) }
    ensures err { OnErr result (Keeps out.old.items out.new.items) }
{
    out.push(before)?;
    out.extend_from_slice(word)
}

/// Appends a byte and the digits of a number behind it.
pub fn push_number(out: &mut Vec<u8>, before: u8, number: u64) -> Result<(), AllocError>
    ensures ok { OnOk result (out.new.items ≡ out.old.items ++ before ∷ decimal number) }
    ensures err { OnErr result (Keeps out.old.items out.new.items) }
{
    out.push(before)?;
    push_u64(out, number)
}

/// Appends a total behind a space.
pub fn push_total(out: &mut Vec<u8>, total: Option<u64>) -> Result<(), AllocError>
    ensures ok { OnOk result (out.new.items ≡ out.old.items ++ 32 ∷ total_word total) }
    ensures err { OnErr result (Keeps out.old.items out.new.items) }
{
    match total {
        None => push_word(out, b' ', b"NONE"),
        Some(total) => push_number(out, b' ', total),
    }
}
