// The advisor that never wants anything optimised.
ghost use Rattle.std.specs.Prelude.{◌≡◌};

use crate::{Advice, Advisor, Ask, Note};

/// Always says no.
#[derive(Clone, Copy, PartialEq, Eq, Debug)]
pub struct Plain;

impl Advisor for Plain {
    ghost use Rattle.recompile.specs.declared.questions.Advice.TheVariants.{No};

    ghost says = { λ _ _ _. No };

    fn ask(&mut self, _ask: &Ask) -> Advice
        ensures no { result ≡ Advice.No }
    {
        Advice::No
    }

    fn note(&mut self, _note: &Note) {}
}
