// The words after the program's name.
ghost use Rattle.std.specs.Prelude.{◌≡◌, [], ◌∷◌, Some, IfSome, map, string_bytes, option_map, codes};
ghost use Rattle.std.specs.Option.{option_copied};
ghost use Rattle.self_debugger.specs.Words.{Job, Asks, IsFileName};
ghost use Rattle.self_debugger.specs.Tasks.{meant};

use crate::numbers::plain_number;

/// What accepted words ask for.
#[derive(Clone, Copy)]
pub enum Task<'a> {
    /// A script over the world of this name.
    Run(&'a str),
    /// The count of what the world of this name holds.
    Check(&'a str),
    /// The drill of this number, from 1 to 4000.
    Drill(u64),
}

/// What the words ask for, where they are accepted: there are two; the first is `run` or `check`, and the second isn't
/// empty and doesn't begin with `-`; or the first is `drill`, and the second is a number from 1 to 4000 without
/// leading zeros.
pub fn task_of(words: &[String]) -> Option<Task<'_>>
    ensures found { IfSome result (λ task. Asks (map string_bytes words.now) (meant task)) }
    ensures only { (job : Job) → Asks (map string_bytes words.now) job → option_map meant result ≡ Some job }
{
    if words.len() != 2 {
        return None;
    }
    task_named(words[0].as_str(), words[1].as_str())
}

// What two words ask for.
fn task_named<'a>(command: &str, word: &'a str) -> Option<Task<'a>>
    ensures found { IfSome result (λ task. Asks (command.now ∷ word.now ∷ []) (meant task)) }
    ensures only { (job : Job) → Asks (command.now ∷ word.now ∷ []) job → option_map meant result ≡ Some job }
{
    match command {
        "run" => Some(Task::Run(file_name(word)?)),
        "check" => Some(Task::Check(file_name(word)?)),
        "drill" => drill(word),
        _ => None,
    }
}

// The name of a file: neither empty nor beginning with a minus sign.
fn file_name(word: &str) -> Option<&str>
    ensures found { IfSome result (λ name. (name.now ≡ word.now) × IsFileName word.now) }
    ensures only { IsFileName word.now → option_copied result ≡ Some word.now }
{
    match word.as_bytes() {
        [] => None,
        [b'-', ..] => None,
        _ => Some(word),
    }
}

// A drill of this number.
fn drill<'a>(word: &'a str) -> Option<Task<'a>>
    ensures found { IfSome result (λ task. Asks (codes "drill" ∷ word.now ∷ []) (meant task)) }
    ensures only { (job : Job) → Asks (codes "drill" ∷ word.now ∷ []) job → option_map meant result ≡ Some job }
{
    let number = plain_number(word.as_bytes(), 4000)?;
    if number == 0 {
        return None;
    }
    Some(Task::Drill(number as u64))
}
