// What is known of texts without a call: each means one thing.
ghost use Rattle.std.specs.Prelude.{◌≡◌, ◌⊎◌, List, [], Some};
ghost use Rattle.self_grammar.specs.declared.signs.Sign.{Sign};
ghost use Rattle.self_grammar.specs.declared.signs.ReadRefusal.{ReadRefusal};
ghost use Rattle.self_grammar.specs.Balance.{walked};
ghost use Rattle.self_grammar.specs.Counts.{Limits};
ghost use Rattle.self_grammar.specs.Grammar.{World, Edit};
ghost use Rattle.self_grammar.specs.Refusal.{IsEnded, IsText, IsRefused};
ghost use Rattle.self_grammar.specs.Spelling.{world, edit, items_of};

/// Signs that end are a world or refused as one, never both, and in one way. The nodes of each body of a world find the
/// values that they take, and keep the limits.
pub fn worlds_mean_one_thing()
    ensures some { (l : Limits) (given : List Sign) → IsEnded given
        → ((t : World) × IsText (world l) given t) ⊎ ((r : ReadRefusal) × IsRefused World (world l) given r) }
    ensures one { (l : Limits) (given : List Sign) (a b : World) → IsText (world l) given a → IsText (world l) given b → a ≡ b }
    ensures one_refusal { (l : Limits) (given : List Sign) (a b : ReadRefusal)
        → IsRefused World (world l) given a → IsRefused World (world l) given b → a ≡ b }
    ensures never_both { (l : Limits) (given : List Sign) (r : ReadRefusal) → IsRefused World (world l) given r
        → (t : World) → ¬ IsText (world l) given t }
    ensures balanced { (l : Limits) (given : List Sign) (t : World) → IsText (world l) given t
        → walked l [] (items_of (world l t)) ≡ Some [] }
{}

/// The same of the text of an edit.
pub fn edits_mean_one_thing()
    ensures some { (l : Limits) (given : List Sign) → IsEnded given
        → ((t : Edit) × IsText (edit l) given t) ⊎ ((r : ReadRefusal) × IsRefused Edit (edit l) given r) }
    ensures one { (l : Limits) (given : List Sign) (a b : Edit) → IsText (edit l) given a → IsText (edit l) given b → a ≡ b }
    ensures one_refusal { (l : Limits) (given : List Sign) (a b : ReadRefusal)
        → IsRefused Edit (edit l) given a → IsRefused Edit (edit l) given b → a ≡ b }
    ensures never_both { (l : Limits) (given : List Sign) (r : ReadRefusal) → IsRefused Edit (edit l) given r
        → (t : Edit) → ¬ IsText (edit l) given t }
    ensures balanced { (l : Limits) (given : List Sign) (t : Edit) → IsText (edit l) given t
        → walked l [] (items_of (edit l t)) ≡ Some [] }
{}
