ghost use Rattle.std.specs.Prelude.{◌≢◌, ◌<◌, ◌++◌, ◌∷◌, ℕ, List, MatchOption, length, slice_index};
ghost use Rattle.gl_text.specs.Spaces.{IsSpaced};
ghost use Rattle.gl_text.specs.Code.Spaces.{IsFirstSpace};

/// The place of the first space of a text.
fn space_in(text: &[u8]) -> Option<usize>
    ensures { MatchOption result
        ((k : ℕ) → k < length text.now → slice_index text.now k ≢ 32)
        (IsFirstSpace text.now) }
{
    text.iter().position(|byte| *byte == b' ')
}

/// What stands before the first space of a text, and what stands behind it. `None` where it has no
/// space.
#[tactic(auto, using(crate::proofs::Spaces::spaced_at))]
pub fn part_at_space(text: &[u8]) -> Option<(&[u8], &[u8])>
    ensures { MatchOption result
        ((front back : List ℕ) → text.now ≢ front ++ 32 ∷ back)
        (λ parts. IsSpaced text.now parts.0.now parts.1.now) }
{
    let space = space_in(text)?;
    Some((&text[..space], &text[space + 1..]))
}
