//! The line of a run.
ghost use Rattle.std.specs.Prelude.{◌≡◌, ◌≢◌, ◌<◌, ◌≤◌, ◌^◌, ℕ, length, None, slice_get};
ghost use Rattle.source_model.specs.State.{State};
ghost use Rattle.source_model.specs.Lines.{run_line};
ghost use Rattle.session_text.specs.LineTexts.{HasRoom, line_text};
ghost use Rattle.plain_runs.specs.Host.{point_at};
ghost use Rattle.plain_turns.specs.Asking.{count};
ghost use Rattle.plain_turns.specs.Resting.{Rests};
ghost use Rattle.plain_host.specs.Hosted.{host};
ghost use Rattle.run_lines.specs.Standing.{RestsWith, next_place};

use plain_host::Hosting;
use plain_runs::Status;
use plain_show::value_alone;
use self_terms::Place;
use session_text::LineText;
use source_model::Core;

// The place of the node that is next.
fn next_place(hosting: &Hosting) -> Place
    requires given { 0 < (point_at (host hosting.now) (host hosting.now).machine.pc).body }
    requires within { (point_at (host hosting.now) (host hosting.now).machine.pc).body ≤ length (host hosting.now).bodies }
    ensures { result ≡ next_place (host hosting.now) }
{
    let point = hosting.point();
    match hosting.place(point.body, point.node) {
        Some(place) => place,
        None => Place {
            edit: 0,
            line: 0,
            column: 0,
        },
    }
}

/// The line of a run that ended here; there is a current activity.
pub fn run_line(hosting: &Hosting, core: Core) -> LineText<'static>
    requires rests { RestsWith (host hosting.now) core }
    requires there { slice_get (host hosting.now).statuses (host hosting.now).current ≢ None }
    requires counted { count (host hosting.now) ≤ 2 ^ 61 }
    ensures line { (s : State) → Rests (host hosting.now) s → s.core ≡ core → line_text result ≡ run_line s }
    ensures room { HasRoom result }
{
    let steps = hosting.steps();
    match hosting.status(hosting.current()) {
        Some(Status::Waiting(_, _, _)) => LineText::Stop {
            steps,
            at: next_place(hosting),
        },
        Some(Status::Answered(word)) => LineText::Done {
            value: value_alone(hosting, word),
            core,
            steps,
        },
        Some(Status::Failed(name, at)) => LineText::Error { name, steps, at },
        None => unreachable!(),
    }
}
