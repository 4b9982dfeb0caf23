// The state with which a session over a world begins (`specs/Begun.antt`), and laws about it.
#![tactic(auto)]

ghost use Rattle.std.specs.Prelude.{◌≡◌, ℕ, List, [], Some};
ghost use Rattle.self_terms.specs.declared.values.BodyId.{BodyId};
ghost use Rattle.self_terms.specs.declared.values.Value.TheVariants as values;
ghost use Rattle.source_model.specs.declared.objects.Content.TheVariants.{Method};
ghost use Rattle.source_model.specs.Canon.{HasOwnNumbers};
ghost use Rattle.source_model.specs.Lookup.{lookup};
ghost use Rattle.source_model.specs.Messages.{Holds, meets, objects};
ghost use Rattle.source_model.specs.Script.{transcript};
ghost use Rattle.world_build.specs.Worlds.{World, lobby_method};
ghost use Rattle.world_state.specs.Begun.{IsBuilt, begun, objects_of};

/// Nothing is written before a command.
pub fn begins_silent()
    ensures { (w : World) (names : List (List ℕ)) (k : ℕ) → transcript [] [] (begun w names k) ≡ [] }
{}

/// A session over a world that was built begins with a state whose numbers of activations are its own; each command keeps that.
pub fn begins_with_own_numbers()
    ensures { (w : World) (names : List (List ℕ)) (k : ℕ) → IsBuilt w → HasOwnNumbers (begun w names k) }
{}

/// Lookup over the objects of a world is lookup over the state with which a session begins. A message to the lobby meets the
/// lobby's own method of its name.
pub fn begins_with_the_world()
    ensures lookup { (w : World) (names : List (List ℕ)) (k name o : ℕ) → lookup (objects (begun w names k)) name o ≡ lookup (objects_of w) name o }
    ensures lobby { (w : World) (names : List (List ℕ)) (k name : ℕ) (b : BodyId) → lobby_method w name ≡ Some b
        → meets (begun w names k) (values.Object 0) name ≡ Holds 0 (Method b) }
{}
