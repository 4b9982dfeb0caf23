// What is known of answers without a call.
ghost use Rattle.std.specs.Prelude.{◌≡◌, ℕ, List, Option, Some, Result};
ghost use Rattle.world_build.specs.Worlds.{World};
ghost use Rattle.self_debugger.specs.Answer.{Answer, Answers};
ghost use Rattle.self_debugger.specs.Headline.{TellsWorld};
ghost use Rattle.self_debugger.specs.WorldFiles.{WorldRead};

/// To all words, over all files and scripts, and with any number of advisors, there is no more than one answer, and there is one where the world and
/// the script are told.
pub fn one_answer()
    ensures one { (handed : ℕ) (words : List (List ℕ)) (bytes_of : List ℕ → Option (List ℕ)) (script : Option (List ℕ)) (a b : Answer)
        → Answers handed words bytes_of script a → Answers handed words bytes_of script b → a ≡ b }
    ensures some { (handed : ℕ) (words : List (List ℕ)) (bytes_of : List ℕ → Option (List ℕ)) (w t : List ℕ)
        → TellsWorld words bytes_of w → (a : Answer) × Answers handed words bytes_of (Some t) a }
{}

/// The bytes of each file mean one thing, and one alone: a world, or the line that refuses them.
pub fn files_mean_one_thing()
    ensures one { (bytes : List ℕ) (a b : Result World (List ℕ)) → WorldRead bytes a → WorldRead bytes b → a ≡ b }
    ensures some { (bytes : List ℕ) → (a : Result World (List ℕ)) × WorldRead bytes a }
{}
