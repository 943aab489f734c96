ghost use Rattle.std.specs.Prelude.{◌≡◌, ◌⊎◌, ◌↔◌, ◌<◌, IfSome, IsTrue};
ghost use Rattle.gl_goal.specs.Best.{IsNoLess, total_of};

use gl_box::Tuple;

/// The greatest value found, in centimetres, and a legal tuple that is worth it.
#[derive(Clone, Copy, Debug, PartialEq, Eq)]
pub struct Best {
    pub total: u64,
    pub tuple: Tuple,
}

/// Whether a total is above what was found. Anything is, where nothing was.
pub fn beats(total: u64, best: &Option<Best>) -> bool
    ensures { IsTrue result ↔ IfSome best.now (λ known. known.total < total) }
{
    match best {
        Some(known) => total > known.total,
        None => true,
    }
}

/// The one that is worth more.
pub fn better(one: Option<Best>, other: Option<Best>) -> Option<Best>
    ensures either { (result ≡ one) ⊎ (result ≡ other) }
    ensures no_less { IsNoLess (total_of one) (total_of result) }
    ensures no_less_other { IsNoLess (total_of other) (total_of result) }
{
    match other {
        Some(known) if beats(known.total, &one) => other,
        _ => one,
    }
}
