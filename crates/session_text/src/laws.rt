// What is known of commands and lines without reading or writing one.
ghost use Rattle.std.specs.Prelude.{◌≡◌, ℕ, [], List, reverse};
ghost use Rattle.source_model.specs.Script.{EditText};
ghost use Rattle.source_model.specs.declared.objects.Core.{Core};
ghost use Rattle.source_model.specs.Messages.{body_of};
ghost use Rattle.source_model.specs.State.{Activation, State};
ghost use Rattle.source_model.specs.Lines.{done_line as source_done, frame_line, frame_lines, value_text};
ghost use Rattle.self_terms.specs.declared.values.Value.{Value};
ghost use Rattle.session_text.specs.Frames.{act_of, acts_text, frame_text, shown_of};
ghost use Rattle.session_text.specs.LineTexts.{as_shown, done_line, shown_text};
ghost use Rattle.session_text.specs.Telling.{CanBeToldBack};

/// No two commands are the same in the source's words, where the texts of edits can be told from what they read as.
pub fn commands_are_told_apart()
    ensures { (reads : List ℕ → EditText) (writes : EditText → List ℕ) → ((t : List ℕ) → writes (reads t) ≡ t) → CanBeToldBack reads }
{}

/// A value is shown as the source's interpreter shows it, and so is the answer of an ended activity.
pub fn values_are_shown()
    ensures ended { (core : Core) (v : Value) (steps : ℕ) → source_done core v steps ≡ done_line core (as_shown [] v) steps }
    ensures values { (core : Core) (all : List Activation) (v : Value) → value_text core all v ≡ shown_text core (as_shown all v) }
{}

/// The line of a frame is that of its activation as it is shown, and the lines of a stack are those of its activations, the youngest first.
pub fn frames_are_shown()
    ensures frame { (s : State) (all : List Activation) (position : ℕ) (a : Activation) → frame_line s all position a ≡ frame_text s.core s.names (body_of s a.body) position (act_of all a) }
    ensures stack { (s : State) (all : List Activation) → frame_lines s all all ≡ acts_text s.core s.names s.bodies (reverse (shown_of all)) }
{}
