// What holds of every world that is built.
ghost use Rattle.std.specs.Prelude.{◌≡◌, ◌≢◌, ◌<◌, ℕ, List, Ok, Some, slice_get};
ghost use Rattle.self_grammar.specs.declared.pieces.Item.{Item};
ghost use Rattle.self_terms.specs.Words.{IsSmall};
ghost use Rattle.world_build.specs.Wholeness.{AreData, AreNamed, IsWhole};
ghost use Rattle.world_build.specs.Worlds.{World, built};

/// A law: a world that is built is whole, where its text is bytes, the integers of its data are of 30 bits, and no assignment slot
/// has the name 0.
pub fn worlds_are_whole()
    ensures { (names : List (List ℕ)) (bytes : List ℕ) (is : List Item) (w : World) → ((i b : ℕ) → slice_get bytes i ≡ Some b → b < 256)
        → AreData IsSmall is → AreNamed (λ n. n ≢ 0) is → built names bytes is ≡ Ok w → IsWhole w }
{}
