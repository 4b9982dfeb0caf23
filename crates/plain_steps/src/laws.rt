// Laws of plain code against the source.
ghost use Rattle.std.specs.Prelude.{ℕ, ℤ, Bool, ◌+ℤ◌, ◌-ℤ◌};
ghost use Rattle.self_terms.specs.declared.names.TheConstants.{INT_ADD, INT_SUB};
ghost use Rattle.self_terms.specs.Words.{IsSmall};
ghost use Rattle.self_terms.specs.declared.nodes.Node.TheVariants as nodes;
ghost use Rattle.plain_steps.specs.Steps.{Always, AreIntegers, WordsAnswer, WordsDo, WordsEnd, WordsPerform, WordsRead, WordsStore};
ghost use Rattle.plain_steps.specs.Paying.{StepsPay};

/// A law: the words of a node do the source's step.
pub fn words_do_steps()
    ensures int { (i : ℤ) → IsSmall i → WordsDo (nodes.Int i) Always }
    ensures string { (o : ℕ) → WordsDo (nodes.Str o) Always }
    ensures nil { WordsDo nodes.Nil Always }
    ensures receiver { WordsDo nodes.SelfRef Always }
    ensures discard { WordsDo nodes.Drop Always }
    ensures restart { WordsDo nodes.Restart Always }
    ensures read { (slot : ℕ) → WordsRead slot }
    ensures store { (slot : ℕ) → WordsStore slot }
    ensures sum { (implied handler : Bool) → WordsDo (nodes.Prim INT_ADD 1 implied handler) (AreIntegers (λ x y. x +ℤ y) implied handler) }
    ensures difference { (implied handler : Bool) → WordsDo (nodes.Prim INT_SUB 1 implied handler) (AreIntegers (λ x y. x -ℤ y) implied handler) }
    ensures answer { WordsAnswer nodes.Return }
    ensures end { WordsAnswer nodes.End }
{}

/// A law: the words of a node that ends the oldest activation of an activity do the source's step, once service 9 has told its answer.
pub fn words_end_activities()
    ensures answer { WordsEnd nodes.Return }
    ensures end { WordsEnd nodes.End }
{}

/// A law: the words of a primitive do the source's step, where it is a sum or a difference of integers that comes to one; else they ask for service 3.
pub fn primitives_perform()
    ensures { WordsPerform }
{}

/// A law: words that leave what was left to pay, and pay for what they put at the heap's top, keep the heap's room paid for.
pub fn steps_pay()
    ensures { StepsPay }
{}
