// What is known of worlds without a call, in the words of the language: what numbers the objects and bodies have, where paths
// lead, and which objects are the core objects.
ghost use Rattle.std.specs.Prelude.{◌≡◌, ◌++◌, List, ℕ, Ok, Err};
ghost use Rattle.self_terms.specs.declared.values.Datum.{Datum as Value};
ghost use Rattle.self_grammar.specs.declared.signs.Spot.{Spot};
ghost use Rattle.self_grammar.specs.Grammar.{Word};
ghost use Rattle.self_grammar.specs.declared.pieces.Item.{Item};
ghost use Rattle.world_build.specs.declared.loading.Loading.{Loading};
ghost use Rattle.world_build.specs.declared.refusals.BuildRefusal.{BuildRefusal};
ghost use Rattle.world_build.specs.declared.refusals.BuildRefusal.TheVariants.{NoSuchPath};
ghost use Rattle.world_build.specs.Cores.{HasCores};
ghost use Rattle.world_build.specs.Loading.{holding, place};
ghost use Rattle.world_build.specs.Nodes.{loaded};
ghost use Rattle.world_build.specs.Numbers.{IsNumbered};
ghost use Rattle.world_build.specs.Paths.{IsEnd, IsStop, path_items, names_of};
ghost use Rattle.world_build.specs.Worlds.{World, built};

/// Objects and strings are numbered in the order of their first tokens, bodies in the order in which they open; the size is
/// that of the slots, objects and nodes.
pub fn worlds_are_numbered_by_first_tokens()
    ensures { (names : List (List ℕ)) (bytes : List ℕ) (is : List Item) (w : World) → built names bytes is ≡ Ok w → IsNumbered bytes is w }
{}

/// Each core object is an object of slots in a constant slot of the lobby, told by the slot's name.
pub fn core_objects_are_told_by_name()
    ensures { (names : List (List ℕ)) (bytes : List ℕ) (is : List Item) (w : World) → built names bytes is ≡ Ok w → HasCores w }
{}

/// A path is followed exactly where own data slots lead on from the lobby, each in the object that the one before it holds; it is
/// refused at the first name that none has.
pub fn paths_lead_through_own_slots()
    ensures found { (bytes : List ℕ) (s t : Loading) (w : Word) (ws : List Word) → loaded bytes (path_items w ws) s ≡ Ok t
        → (v : Value) × IsEnd s.names s.things w.name (names_of ws) v × (t ≡ holding s v) }
    ensures followed { (bytes : List ℕ) (s : Loading) (w : Word) (ws : List Word) (v : Value) (rest : List Item) → IsEnd s.names s.things w.name (names_of ws) v
        → loaded bytes (path_items w ws ++ rest) s ≡ loaded bytes rest (holding s v) }
    ensures refused { (bytes : List ℕ) (s : Loading) (e : BuildRefusal) (w : Word) (ws : List Word) → loaded bytes (path_items w ws) s ≡ Err e
        → (p : Spot) × IsStop s.names s.things w ws p × (e ≡ NoSuchPath (place p)) }
{}
