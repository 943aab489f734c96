ghost use Rattle.std.specs.Prelude.{◌≡◌, option_map};
ghost use Rattle.gl_why.specs.Wanted.{is_wanted};

use gl_desk::Name;
use gl_task::Entrant;

/// Whether an entrant is asked for: each is, or the one with a number.
pub fn is_wanted(choice: Option<&Name>, entrant: &Entrant) -> bool
    ensures { result ≡ is_wanted (option_map (λ number. number.now) choice.entry) entrant.now }
{
    match choice {
        Some(number) => entrant.number.as_str() == number.as_str(),
        None => true,
    }
}
