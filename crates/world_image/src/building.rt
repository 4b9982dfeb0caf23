// The world of a text, with its maps and words.
ghost use Rattle.std.specs.Prelude.{◌≡◌, ◌≢◌, ◌+◌, ◌≤◌, length, IfOk, IfErr, Ok, Err};
ghost use Rattle.self_tokens.specs.Tokens.{tokens};
ghost use Rattle.self_grammar.specs.Grammar.{World as Text};
ghost use Rattle.self_grammar.specs.Spelling.{world};
ghost use Rattle.self_reader.specs.declared.texts.TheConstants.{LIMITS};
ghost use Rattle.self_signs.specs.Signs.{signs, names_after};
ghost use Rattle.self_reader.specs.Texts.{AreRead, known};
ghost use Rattle.world_build.specs.declared.refusals.BuildRefusal.TheVariants.{OutOfMemory};
ghost use Rattle.world_build.specs.Worlds.{built};
ghost use Rattle.world_heap.specs.Images.{maps, words};

use self_reader::WorldTree;
use std::alloc::Global;
use world_build::{BuildRefusal, load};
use world_facts::image_of_text;
use world_heap::WorldImage;

/// The world that the items of a text build, with its maps and words; or the first refusal: those of paths and parents in the
/// order of the text, then a missing core object.
pub fn build(alloc: Global, bytes: &[u8], tree: WorldTree) -> Result<WorldImage, BuildRefusal>
    requires short { length bytes.now ≤ 1048576 }
    requires text { AreRead Text (world LIMITS) (signs known bytes.now) tree.items.items }
    requires names { tree.names ≡ names_after known bytes.now (tokens bytes.now) }
    requires few { length tree.items.items + length tree.names ≤ 20000000 }
    ensures built { IfOk result (λ i. built tree.names bytes.now tree.items.items ≡ Ok i.world) }
    ensures maps { IfOk result (λ i. i.maps ≡ maps i.world) }
    ensures words { IfOk result (λ i. i.words ≡ words i.world) }
    ensures refused { IfErr result (λ e. e ≢ OutOfMemory → built tree.names bytes.now tree.items.items ≡ Err e) }
{
    let WorldTree { items, names } = tree;
    let world = match load(alloc, bytes, &items, names) {
        Ok(world) => world,
        Err(refusal) => return Err(refusal),
    };
    Ok(image_of_text(alloc, bytes, world)?)
}
