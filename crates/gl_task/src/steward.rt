ghost use Rattle.std.specs.Prelude.{◌≡◌, ℕ, List};
ghost use Rattle.gl_igc.specs.declared.fix.Fix.{Fix};
ghost use Rattle.gl_task.specs.declared.task.LocalRules.{LocalRules};
ghost use Rattle.gl_task.specs.Penalty.{KeepsRules};

use crate::task::LocalRules;
use gl_igc::Fix;

/// A rule of the championship that charges points for a flight. It holds a list of whole numbers,
/// begins each flight with its opening list, changes the list with each fix, and owes what the list
/// tells. No call changes these rules.
pub trait Steward: Drop {
    /// The list that it holds now.
    ghost held: { Self → List ℕ };

    /// The list that it begins a flight with.
    ghost opening: { Self → LocalRules → List ℕ };

    /// What a fix makes of a list.
    ghost fed: { Self → List ℕ → Fix → List ℕ };

    /// The points that are owed for a list.
    ghost owed: { Self → List ℕ → ℕ };

    /// Begins a flight.
    fn begin(&mut self, rules: &LocalRules)
        ensures held { held self.new ≡ opening self.old rules.now }
        ensures rules { KeepsRules (opening self.old) (opening self.new)
            (fed self.old) (fed self.new)
            (owed self.old) (owed self.new) };

    /// Takes the next fix of the flight.
    fn feed(&mut self, fix: &Fix)
        ensures held { held self.new ≡ fed self.old (held self.old) fix.now }
        ensures rules { KeepsRules (opening self.old) (opening self.new)
            (fed self.old) (fed self.new)
            (owed self.old) (owed self.new) };

    /// The points that the flight owes so far.
    fn due(&self) -> u32
        ensures { result ≡ owed self.now (held self.now) };
}
