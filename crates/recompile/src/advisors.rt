// Advisors, who answer questions and are told what became of units.
ghost use Rattle.std.specs.Prelude.{◌≡◌, List, [], ◌∷◌};

use crate::{Advice, Ask, Note};

/// Who answers an optimising compiler's questions. A program keeps it as `Box<dyn Advisor + Drop>`.
pub trait Advisor {
    ghost use Rattle.std.specs.Prelude.{List};
    ghost use Rattle.recompile.specs.declared.questions.Ask.{Ask};
    ghost use Rattle.recompile.specs.declared.questions.Advice.{Advice};

    /// What it would answer to a question after those of the list, in their order.
    ghost says: { Self → List Ask → Ask → Advice };

    /// Asks a question. Whatever would be asked from then on is answered as after this question.
    fn ask(&mut self, ask: &Ask) -> Advice
        ensures answer { result ≡ says self.old [] ask.now }
        ensures later { (list : List Ask) (next : Ask) → says self.new list next ≡ says self.old (ask.now ∷ list) next };

    /// Tells what became of a unit. This may change all that it says.
    fn note(&mut self, note: &Note);
}
