// Laws of activations that have contexts.
ghost use Rattle.std.specs.Prelude.{ℕ};
ghost use Rattle.self_terms.specs.declared.nodes.Node.TheVariants as nodes;
ghost use Rattle.source_model.specs.Formed.{IsWellFormed};
ghost use Rattle.plain_steps.specs.Steps.{WordsDo};
ghost use Rattle.plain_contexts.specs.Contexts.{AnswersOlder, EndsOldest};
ghost use Rattle.plain_contexts.specs.Literals.{LiteralsMake};
ghost use Rattle.plain_contexts.specs.Making.{BlocksAreMade};

/// A law: in a well-formed state the words of a node that reads a local, or stores in one, do the source's step.
pub fn locals_do_steps()
    ensures read { (up slot : ℕ) → WordsDo (nodes.Read up slot) IsWellFormed }
    ensures store { (up slot : ℕ) → WordsDo (nodes.Store up slot) IsWellFormed }
{}

/// A law: the words of a node that ends an activation which isn't the oldest of its activity do the source's step.
pub fn activations_answer()
    ensures answer { AnswersOlder nodes.Return }
    ensures end { AnswersOlder nodes.End }
{}

/// A law: those of a node that ends the oldest one do it, once service 9 has told its answer.
pub fn oldest_activations_end()
    ensures answer { EndsOldest nodes.Return }
    ensures end { EndsOldest nodes.End }
{}

/// A law: words that make a block do the step of its literal.
pub fn blocks_are_made()
    ensures { BlocksAreMade }
{}

/// A law: the words of a block literal make a block and do the source's step, or lead to service 8 where four words more can't be paid.
pub fn literals_make()
    ensures { LiteralsMake }
{}
