ghost use Rattle.std.specs.Prelude.{◌≡◌, map, vec_len};
ghost use Rattle.std.specs.List.{AllZip};
ghost use Rattle.gl_task.specs.Penalty.{KeepsRules, held_after, penalty};

use crate::steward::Steward;
use crate::task::LocalRules;
use gl_igc::Fix;

/// The most points that a flight is charged.
const MOST_POINTS: u32 = 1_000;

/// Begins a flight for one steward.
fn begin(steward: &mut Box<dyn Steward>, rules: &LocalRules)
    ensures held { held steward.new ≡ opening steward.old rules.now }
    ensures rules { KeepsRules (opening steward.old) (opening steward.new)
        (fed steward.old) (fed steward.new) (owed steward.old) (owed steward.new) }
{
    steward.begin(rules);
}

/// Hands one steward the next fix.
fn feed(steward: &mut Box<dyn Steward>, fix: &Fix)
    ensures held { held steward.new ≡ fed steward.old (held steward.old) fix.now }
    ensures rules { KeepsRules (opening steward.old) (opening steward.new)
        (fed steward.old) (fed steward.new) (owed steward.old) (owed steward.new) }
{
    steward.feed(fix);
}

/// What one steward is owed.
fn due(steward: &Box<dyn Steward>) -> u32
    ensures { result ≡ owed steward.now (held steward.now) }
{
    steward.due()
}

/// What one steward charges for a flight, whatever it held before.
fn charge(steward: &mut Box<dyn Steward>, rules: &LocalRules, fixes: &[Fix]) -> u32
    ensures due { result
        ≡ owed steward.old
        (held_after (opening steward.old rules.now) (fed steward.old) fixes.now) }
    ensures held { held steward.new
        ≡ held_after (opening steward.old rules.now) (fed steward.old) fixes.now }
    ensures rules { KeepsRules (opening steward.old) (opening steward.new)
        (fed steward.old) (fed steward.new) (owed steward.old) (owed steward.new) }
{
    begin(steward, rules);
    for fix in fixes {
        feed(steward, fix);
    }
    due(steward)
}

/// The penalty of a flight: what all stewards charge for its fixes, at most 1,000 points. Each
/// steward keeps its rules and holds afterwards what they make of this flight, whatever it held
/// before.
pub fn fine(stewards: &mut Vec<Box<dyn Steward>>, rules: &LocalRules, fixes: &[Fix]) -> u32
    ensures penalty { result
        ≡ penalty (map
        (λ s. owed s (held_after (opening s rules.now) (fed s) fixes.now))
        stewards.old.items) }
    ensures length { vec_len stewards.new ≡ vec_len stewards.old }
    ensures held { AllZip
        (λ s t. held t ≡ held_after (opening s rules.now) (fed s) fixes.now)
        stewards.old.items stewards.new.items }
    ensures rules { AllZip
        (λ s t. KeepsRules (opening s) (opening t) (fed s) (fed t) (owed s) (owed t))
        stewards.old.items stewards.new.items }
{
    let mut total = 0;
    for steward in stewards.iter_mut() {
        total += charge(steward, rules, fixes).min(MOST_POINTS - total);
    }
    total
}
