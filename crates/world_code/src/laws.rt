// What holds of the bodies of accepted worlds.
ghost use Rattle.std.specs.Prelude.{◌≡◌, ◌≤◌, ℕ, List, Some, length, slice_get};
ghost use Rattle.self_terms.specs.declared.bodies.Body.{Body};
ghost use Rattle.source_model.specs.Soundness.{body_in};
ghost use Rattle.world_build.specs.Worlds.{World};
ghost use Rattle.world_facts.specs.Accepted.{IsAccepted};
ghost use Rattle.plain_runs.specs.Sound.{IsRunnable};
ghost use Rattle.world_code.specs.Limited.{IsLimited};

/// A law: each body of the world of a text within the limits is one that plain code runs, over the objects of that world.
pub fn accepted_bodies_run()
    ensures { (bytes : List ℕ) (w : World) (a : IsAccepted bytes w) → IsLimited a.limits → (b : ℕ) → IsRunnable (length w.things) (body_in w.bodies b) }
{}

/// A law: no body of such a world has more than five arguments.
pub fn accepted_bodies_have_few_arguments()
    ensures { (bytes : List ℕ) (w : World) (a : IsAccepted bytes w) → IsLimited a.limits → (k : ℕ) (x : Body) → slice_get w.bodies k ≡ Some x → length x.arguments ≤ 5 }
{}
