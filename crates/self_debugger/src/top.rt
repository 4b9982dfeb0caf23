// The call that does all that the program does.
ghost use Rattle.std.specs.Prelude.{◌≡◌, ◌⊎◌, ◌≤◌, ◌+◌, ◌^◌, ◌↔◌, List, ℕ, true, length, Ok, Some, IsSome, IsNone, IfSome, IfOk, OnOk, OnErr, IsErrOf, map, string_bytes};
ghost use Rattle.std.specs.List.{list_all};
ghost use Rattle.io_ports.specs.Causes.{Rose, Takes, TakesFront};
ghost use Rattle.session_text.specs.Scripts.{script};
ghost use Rattle.session_text.specs.LineTexts.{HasRoom, line_text, refused_line};
ghost use Rattle.plain_turns.specs.Asking.{count};
ghost use Rattle.plain_session.specs.Commands.{is_built};
ghost use Rattle.plain_session.specs.Sessions as words;
ghost use Rattle.plain_session.specs.Stacks.{rest_text, RestHasRoom};
ghost use Rattle.self_debugger.specs.declared.top.Stop.TheVariants.{OutOfMemory, Write};
ghost use Rattle.self_debugger.specs.Commands.{is_served, transcript};
ghost use Rattle.self_debugger.specs.Sessions.{host_of, IsShown};
ghost use Rattle.self_debugger.specs.Words.{Asks, RunWorld};
ghost use Rattle.self_debugger.specs.WorldLines.{ok_line};
ghost use Rattle.self_debugger.specs.WorldFiles.{WorldRead, begins};
ghost use Rattle.self_debugger.specs.Answer.{Answer, Answers, WorldAnswer, CheckAnswer, ScriptAnswer};
ghost use Rattle.self_debugger.specs.Headline.{Outcome, AsksRun, NamesWorld, TellsWorld, IsAccepted, HasReadFault, IsRun, IsSession};
ghost use Rattle.self_debugger.specs.Parts.{IsWorld, DidPlain, BrokePlain, Did, Broke, IsDone};

use crate::lines::{ok_line, script_line};
use crate::sessions::{Session, all_served};
use crate::words::{Task, task_of};
use crate::worlds::world_of;
use io_ports::{Failed, Files, ReadErr, Sink, Source, read_all, read_file, write_all};
use plain_core::RunErr;
use recompile::Advisor;
use session_text::{Command, Line, LineText, ScriptErr, read_script};
use std::alloc::{AllocError, Global};
use world_build::World;
use world_image::WorldImage;

// The most bytes of a world file and of a script.
const LIMIT: usize = 1048576;

/// How a call ended: the status of the program, and with status 0 of a run the session that is left.
#[derive(Drop)]
pub struct Ended {
    pub status: u8,
    pub session: Option<Session>,
}

/// All that the program does. Reads the words and the world file. For a check it writes how much the world holds. For a
/// run it reads the script from the source to its end, runs the commands, and writes what each prints, and its line.
///
/// Status 0: the world was checked, or the whole script was run. 1: the words aren't accepted. 2: the world is refused. 3: the script is refused. 4: a read failed. 5: a write failed. 6: want of memory.
pub fn selfdb<F: Files, S: Source, K: Sink>(
    alloc: Global,
    words: &[String],
    files: &mut F,
    script: &mut S,
    out: &mut K,
    advisors: Vec<Box<dyn Advisor + Drop>>,
) -> Ended
    // With status 0 to 3 the text and the status are the answer; with 4 to 6 a front of that text was written. There
    // is one answer: `one_answer`.
    ensures headline { (a : Answer) → Answers (length advisors.items) (map string_bytes words.now) (F.bytes_of files.old) (S.left script.old) a
        → Outcome result.status a (K.taken out.old) (K.taken out.new) }
    ensures range { result.status ≤ 6 }
    ensures read { result.status ≡ 4 → HasReadFault (map string_bytes words.now) (F.bytes_of files.old)
        (λ n. Rose (F.faults_of files.old n) (F.faults_of files.new n)) (Rose (S.faults script.old) (S.faults script.new)) }
    ensures write { result.status ≡ 5 → Rose (K.faults out.old) (K.faults out.new) }
    // Where a read failed, nothing was written.
    ensures silent { result.status ≡ 4 → out.new ≡ out.old }
    // Where no count of faults rose, the status is that of the answer or want of memory.
    ensures complete { ((n : List ℕ) → NamesWorld (map string_bytes words.now) n → ¬ Rose (F.faults_of files.old n) (F.faults_of files.new n))
        → ¬ Rose (S.faults script.old) (S.faults script.new) → ¬ Rose (K.faults out.old) (K.faults out.new)
        → (result.status ≤ 3) ⊎ (result.status ≡ 6) }
    // Words that name no world file are answered before anything is read; a script is read for a run alone, and not where
    // the world is refused.
    ensures unasked { ((n : List ℕ) → ¬ NamesWorld (map string_bytes words.now) n) → (files.new ≡ files.old) × (script.new ≡ script.old) }
    ensures unscripted { ¬ AsksRun (map string_bytes words.now) → script.new ≡ script.old }
    ensures unread { result.status ≡ 2 → script.new ≡ script.old }
    // A session is that of a world and a script: those that files and script told, where they told them.
    ensures session { IsSome result.session ↔ ((result.status ≡ 0) × AsksRun (map string_bytes words.now)) }
    ensures ran { IfSome result.session (λ e. (w t : List ℕ) × IsSession (length advisors.items) w t e) }
    ensures shown { (w t : List ℕ) → TellsWorld (map string_bytes words.now) (F.bytes_of files.old) w → S.left script.old ≡ Some t
        → IfSome result.session (IsSession (length advisors.items) w t) }
{
    serve_words(alloc, words, files, script, out, advisors)
}

// The answer to the words.
fn serve_words<F: Files, S: Source, K: Sink>(
    alloc: Global,
    words: &[String],
    files: &mut F,
    script: &mut S,
    out: &mut K,
    advisors: Vec<Box<dyn Advisor + Drop>>,
) -> Ended
    ensures headline { (a : Answer) → Answers (length advisors.items) (map string_bytes words.now) (F.bytes_of files.old) (S.left script.old) a
        → Outcome result.status a (K.taken out.old) (K.taken out.new) }
    ensures range { result.status ≤ 6 }
    ensures read { result.status ≡ 4 → HasReadFault (map string_bytes words.now) (F.bytes_of files.old)
        (λ n. Rose (F.faults_of files.old n) (F.faults_of files.new n)) (Rose (S.faults script.old) (S.faults script.new)) }
    ensures write { result.status ≡ 5 → Rose (K.faults out.old) (K.faults out.new) }
    ensures silent { result.status ≡ 4 → out.new ≡ out.old }
    ensures unasked { ((n : List ℕ) → ¬ NamesWorld (map string_bytes words.now) n) → (files.new ≡ files.old) × (script.new ≡ script.old) }
    ensures unscripted { ¬ AsksRun (map string_bytes words.now) → script.new ≡ script.old }
    ensures unread { result.status ≡ 2 → script.new ≡ script.old }
    ensures session { IsSome result.session ↔ ((result.status ≡ 0) × AsksRun (map string_bytes words.now)) }
    ensures ran { IfSome result.session (λ e. (w t : List ℕ) × IsSession (length advisors.items) w t e) }
    ensures shown { (w t : List ℕ) → TellsWorld (map string_bytes words.now) (F.bytes_of files.old) w → S.left script.old ≡ Some t
        → IfSome result.session (IsSession (length advisors.items) w t) }
{
    match task_of(words) {
        None => tell(out, b"usage: selfdb run WORLD | check WORLD | drill N\n", 1),
        Some(Task::Run(name)) => serve_world(alloc, name, files, script, out, advisors),
        Some(Task::Check(name)) => serve_check(alloc, name, files, out),
        Some(Task::Drill(_)) => tell(out, b"not built\n", 1),
    }
}

// Writes a line that ends the call, without a session.
fn tell<K: Sink>(out: &mut K, line: &[u8], status: u8) -> Ended
    requires { status ≤ 3 }
    ensures outcome { Outcome result.status (line.now, status) (K.taken out.old) (K.taken out.new) }
    ensures write { result.status ≡ 5 → Rose (K.faults out.old) (K.faults out.new) }
    ensures which { (result.status ≡ status) ⊎ (result.status ≡ 5) }
    ensures session { IsNone result.session }
{
    match write_all(out, line) {
        Ok(()) => without_session(status),
        Err(_) => without_session(5),
    }
}

// An end without a session.
fn without_session(status: u8) -> Ended
    ensures status { result.status ≡ status }
    ensures session { IsNone result.session }
{
    Ended {
        status,
        session: None,
    }
}

// Reads the world file of this name, and goes on.
fn serve_world<F: Files, S: Source, K: Sink>(
    alloc: Global,
    name: &str,
    files: &mut F,
    script: &mut S,
    out: &mut K,
    advisors: Vec<Box<dyn Advisor + Drop>>,
) -> Ended
    ensures outcome { (w : List ℕ) (a : Answer) → F.bytes_of files.old name.now ≡ Some w → WorldAnswer (length advisors.items) w (S.left script.old) a
        → Outcome result.status a (K.taken out.old) (K.taken out.new) }
    ensures range { result.status ≤ 6 }
    ensures not_one { ¬ (result.status ≡ 1) }
    ensures read { result.status ≡ 4 → Rose (F.faults_of files.old name.now) (F.faults_of files.new name.now)
        ⊎ (Rose (S.faults script.old) (S.faults script.new) × ((w : List ℕ) → F.bytes_of files.old name.now ≡ Some w → IsAccepted w)) }
    ensures write { result.status ≡ 5 → Rose (K.faults out.old) (K.faults out.new) }
    ensures silent { result.status ≡ 4 → out.new ≡ out.old }
    ensures unread { result.status ≡ 2 → script.new ≡ script.old }
    ensures session { IsSome result.session ↔ (result.status ≡ 0) }
    ensures ran { IfSome result.session (λ e. (w t : List ℕ) × IsSession (length advisors.items) w t e) }
    ensures shown { (w t : List ℕ) → F.bytes_of files.old name.now ≡ Some w → S.left script.old ≡ Some t
        → IfSome result.session (IsSession (length advisors.items) w t) }
{
    match read_file(alloc, files, name, LIMIT) {
        Ok(bytes) => build_world(alloc, &bytes, script, out, advisors),
        Err(ReadErr::TooLong) => tell(out, b"world refused TooLong\n", 2),
        Err(ReadErr::Fault) => without_session(4),
        Err(ReadErr::OutOfMemory) => without_session(6),
    }
}

// Reads the world file of this name, and says how much its world holds.
fn serve_check<F: Files, K: Sink>(alloc: Global, name: &str, files: &mut F, out: &mut K) -> Ended
    ensures outcome { (w : List ℕ) (a : Answer) → F.bytes_of files.old name.now ≡ Some w → CheckAnswer w a
        → Outcome result.status a (K.taken out.old) (K.taken out.new) }
    ensures range { result.status ≤ 6 }
    ensures read { result.status ≡ 4 → Rose (F.faults_of files.old name.now) (F.faults_of files.new name.now) }
    ensures write { result.status ≡ 5 → Rose (K.faults out.old) (K.faults out.new) }
    ensures silent { result.status ≡ 4 → out.new ≡ out.old }
    ensures session { IsNone result.session }
{
    match read_file(alloc, files, name, LIMIT) {
        Ok(bytes) => check_world(alloc, &bytes, out),
        Err(ReadErr::TooLong) => tell(out, b"world refused TooLong\n", 2),
        Err(ReadErr::Fault) => without_session(4),
        Err(ReadErr::OutOfMemory) => without_session(6),
    }
}

// Says how much the world of these bytes holds.
fn check_world<K: Sink>(alloc: Global, bytes: &[u8], out: &mut K) -> Ended
    requires { length bytes.now ≤ 1048576 }
    ensures outcome { (a : Answer) → CheckAnswer bytes.now a → Outcome result.status a (K.taken out.old) (K.taken out.new) }
    ensures range { result.status ≤ 6 }
    ensures not_four { ¬ (result.status ≡ 4) }
    ensures write { result.status ≡ 5 → Rose (K.faults out.old) (K.faults out.new) }
    ensures session { IsNone result.session }
{
    match world_of(alloc, bytes) {
        Ok(Ok(image)) => tell_world(alloc, image.world(), out),
        Ok(Err(line)) => tell(out, &line, 2),
        Err(_) => without_session(6),
    }
}

// Writes how much a world holds.
fn tell_world<K: Sink>(alloc: Global, world: &World, out: &mut K) -> Ended
    ensures outcome { Outcome result.status (ok_line world.now, 0) (K.taken out.old) (K.taken out.new) }
    ensures which { (result.status ≡ 0) ⊎ (result.status ≡ 5) ⊎ (result.status ≡ 6) }
    ensures write { result.status ≡ 5 → Rose (K.faults out.old) (K.faults out.new) }
    ensures session { IsNone result.session }
{
    match ok_line(alloc, world) {
        Ok(line) => tell(out, &line, 0),
        Err(_) => without_session(6),
    }
}

// Builds the world of these bytes, and goes on.
fn build_world<S: Source, K: Sink>(
    alloc: Global,
    bytes: &[u8],
    script: &mut S,
    out: &mut K,
    advisors: Vec<Box<dyn Advisor + Drop>>,
) -> Ended
    requires { length bytes.now ≤ 1048576 }
    ensures outcome { (a : Answer) → WorldAnswer (length advisors.items) bytes.now (S.left script.old) a → Outcome result.status a (K.taken out.old) (K.taken out.new) }
    ensures range { result.status ≤ 6 }
    ensures not_one { ¬ (result.status ≡ 1) }
    ensures read { result.status ≡ 4 → Rose (S.faults script.old) (S.faults script.new) × IsAccepted bytes.now }
    ensures write { result.status ≡ 5 → Rose (K.faults out.old) (K.faults out.new) }
    ensures silent { result.status ≡ 4 → out.new ≡ out.old }
    ensures unread { result.status ≡ 2 → script.new ≡ script.old }
    ensures session { IsSome result.session ↔ (result.status ≡ 0) }
    ensures ran { IfSome result.session (λ e. (t : List ℕ) × IsSession (length advisors.items) bytes.now t e) }
    ensures shown { (t : List ℕ) → S.left script.old ≡ Some t → IfSome result.session (IsSession (length advisors.items) bytes.now t) }
{
    match world_of(alloc, bytes) {
        Ok(Ok(image)) => serve_script(alloc, image, script, out, advisors),
        Ok(Err(line)) => tell(out, &line, 2),
        Err(_) => without_session(6),
    }
}

// Reads the script of an accepted world, and goes on.
fn serve_script<S: Source, K: Sink>(
    alloc: Global,
    image: WorldImage,
    script: &mut S,
    out: &mut K,
    advisors: Vec<Box<dyn Advisor + Drop>>,
) -> Ended
    requires accepted { IsWorld image.world }
    requires few { length image.world.names ≤ 450000000 }
    ensures outcome { (t : List ℕ) (a : Answer) → S.left script.old ≡ Some t → ScriptAnswer (length advisors.items) image.world t a → Outcome result.status a (K.taken out.old) (K.taken out.new) }
    ensures range { result.status ≤ 6 }
    ensures later { ¬ (result.status ≡ 1) × ¬ (result.status ≡ 2) }
    ensures read { result.status ≡ 4 → Rose (S.faults script.old) (S.faults script.new) }
    ensures write { result.status ≡ 5 → Rose (K.faults out.old) (K.faults out.new) }
    ensures silent { result.status ≡ 4 → out.new ≡ out.old }
    ensures session { IsSome result.session ↔ (result.status ≡ 0) }
    ensures ran { IfSome result.session (λ e. (t : List ℕ) × IsRun (length advisors.items) image.world t e) }
    ensures shown { (t : List ℕ) → S.left script.old ≡ Some t → IfSome result.session (IsRun (length advisors.items) image.world t) }
{
    match read_all(alloc, script, LIMIT) {
        Ok(text) => serve_text(alloc, image, &text, out, advisors),
        Err(ReadErr::TooLong) => tell(out, b"script refused TooLong\n", 3),
        Err(ReadErr::Fault) => without_session(4),
        Err(ReadErr::OutOfMemory) => without_session(6),
    }
}

// Answers the script of these bytes.
fn serve_text<K: Sink>(
    alloc: Global,
    image: WorldImage,
    text: &[u8],
    out: &mut K,
    advisors: Vec<Box<dyn Advisor + Drop>>,
) -> Ended
    requires accepted { IsWorld image.world }
    requires few { length image.world.names ≤ 450000000 }
    requires short { length text.now ≤ 1048576 }
    ensures outcome { (a : Answer) → ScriptAnswer (length advisors.items) image.world text.now a → Outcome result.status a (K.taken out.old) (K.taken out.new) }
    ensures range { result.status ≤ 6 }
    ensures later { ¬ (result.status ≡ 1) × ¬ (result.status ≡ 2) × ¬ (result.status ≡ 4) }
    ensures write { result.status ≡ 5 → Rose (K.faults out.old) (K.faults out.new) }
    ensures session { IsSome result.session ↔ (result.status ≡ 0) }
    ensures shown { IfSome result.session (IsRun (length advisors.items) image.world text.now) }
{
    match read_script(alloc, text) {
        Ok(script) => serve_commands(alloc, image, text, script.as_slice(), out, advisors),
        Err(ScriptErr::BadCommand(number)) => tell_bad_line(alloc, number, out),
        Err(ScriptErr::OutOfMemory) => without_session(6),
    }
}

// Writes which line of a script is no command.
fn tell_bad_line<K: Sink>(alloc: Global, number: u32, out: &mut K) -> Ended
    ensures outcome { Outcome result.status (refused_line number, 3) (K.taken out.old) (K.taken out.new) }
    ensures which { (result.status ≡ 3) ⊎ (result.status ≡ 5) ⊎ (result.status ≡ 6) }
    ensures write { result.status ≡ 5 → Rose (K.faults out.old) (K.faults out.new) }
    ensures session { IsNone result.session }
{
    match script_line(alloc, number) {
        Ok(line) => tell(out, line.bytes(), 3),
        Err(_) => without_session(6),
    }
}

// Answers the commands of the script of these bytes.
fn serve_commands<K: Sink>(
    alloc: Global,
    image: WorldImage,
    _text: &[u8],
    commands: &[Command],
    out: &mut K,
    advisors: Vec<Box<dyn Advisor + Drop>>,
) -> Ended
    requires accepted { IsWorld image.world }
    requires few { length image.world.names ≤ 450000000 }
    requires short { length _text.now ≤ 1048576 }
    requires read { script _text.now ≡ Ok commands.now }
    ensures outcome { (a : Answer) → ScriptAnswer (length advisors.items) image.world _text.now a → Outcome result.status a (K.taken out.old) (K.taken out.new) }
    ensures range { result.status ≤ 6 }
    ensures later { ¬ (result.status ≡ 1) × ¬ (result.status ≡ 2) × ¬ (result.status ≡ 4) }
    ensures write { result.status ≡ 5 → Rose (K.faults out.old) (K.faults out.new) }
    ensures session { IsSome result.session ↔ (result.status ≡ 0) }
    ensures shown { IfSome result.session (IsRun (length advisors.items) image.world _text.now) }
{
    if !all_served(commands) {
        return tell(out, b"not built\n", 3);
    }
    serve_run(alloc, image, commands, out, advisors)
}

// Runs the commands.
fn serve_run<K: Sink>(
    alloc: Global,
    image: WorldImage,
    commands: &[Command],
    out: &mut K,
    advisors: Vec<Box<dyn Advisor + Drop>>,
) -> Ended
    requires accepted { IsWorld image.world }
    requires few { length image.world.names ≤ 450000000 }
    requires short { length commands.now ≤ 1048577 }
    requires built { list_all is_served commands.now ≡ true }
    ensures outcome { Outcome result.status (transcript commands.now (begins (length advisors.items) image.world), 0) (K.taken out.old) (K.taken out.new) }
    ensures which { (result.status ≡ 0) ⊎ (result.status ≡ 5) ⊎ (result.status ≡ 6) }
    ensures write { result.status ≡ 5 → Rose (K.faults out.old) (K.faults out.new) }
    ensures session { IsSome result.session ↔ (result.status ≡ 0) }
    ensures shown { IfSome result.session (IsDone (length advisors.items) image.world commands.now) }
{
    match run_commands(alloc, image, commands, out, advisors) {
        Ok(session) => Ended {
            status: 0,
            session: Some(session),
        },
        Err(Stop::Write) => without_session(5),
        Err(Stop::OutOfMemory) => without_session(6),
    }
}

// Why the commands weren't all done.
enum Stop {
    Write,
    OutOfMemory,
}

impl From<AllocError> for Stop {
    ghost from_gives = { λ _ e. e ≡ OutOfMemory };

    fn from(_: AllocError) -> Self {
        Stop::OutOfMemory
    }
}

impl From<Failed> for Stop {
    ghost from_gives = { λ _ e. e ≡ Write };

    fn from(_: Failed) -> Self {
        Stop::Write
    }
}

// Writes a line in one call.
fn put_line<K: Sink>(line: &mut Line, text: &LineText, out: &mut K) -> Result<(), Stop>
    requires { HasRoom text.now }
    ensures all { OnOk result (Takes (K.taken out.old) (K.taken out.new) (line_text text.now)) }
    ensures front { OnErr result (TakesFront (K.taken out.old) (K.taken out.new) (line_text text.now)) }
    ensures later { K.faults out.old ≤ K.faults out.new }
    ensures write { IsErrOf result Stop.Write → Rose (K.faults out.old) (K.faults out.new) }
{
    line.put(text);
    write_all(out, line.bytes())?;
    Ok(())
}

// Writes what is still to be written of a command: a line, or nothing.
fn put_rest<K: Sink>(line: &mut Line, rest: &Option<LineText>, out: &mut K) -> Result<(), Stop>
    requires { RestHasRoom rest.now }
    ensures all { OnOk result (Takes (K.taken out.old) (K.taken out.new) (rest_text rest.now)) }
    ensures front { OnErr result (TakesFront (K.taken out.old) (K.taken out.new) (rest_text rest.now)) }
    ensures later { K.faults out.old ≤ K.faults out.new }
    ensures write { IsErrOf result Stop.Write → Rose (K.faults out.old) (K.faults out.new) }
{
    match rest {
        Some(text) => put_line(line, text, out),
        None => Ok(()),
    }
}

// Obeys a command of plain code, which writes all but its last line, and writes that behind the rest.
fn obey_plain<K: Sink>(
    session: &mut plain_session::Session,
    alloc: Global,
    command: &Command,
    line: &mut Line,
    out: &mut K,
) -> Result<(), Stop>
    requires shown { words.IsShown session.old }
    requires counted { count (words.host_of session.old) ≤ 2 ^ 60 }
    requires fits { words.CanCount session.old }
    requires built { is_built command.now ≡ true }
    ensures did { OnOk result (DidPlain session.old session.new command.now (K.taken out.old) (K.taken out.new)) }
    ensures broke { OnErr result (BrokePlain session.old command.now (K.taken out.old) (K.taken out.new)) }
    ensures counted { OnOk result (count (words.host_of session.new) ≤ count (words.host_of session.old) + 1000000000) }
    ensures rose { OnOk result (words.CountsFew session.old session.new) }
    ensures later { K.faults out.old ≤ K.faults out.new }
    ensures write { IsErrOf result Stop.Write → Rose (K.faults out.old) (K.faults out.new) }
{
    match session.obey(alloc, command, out) {
        Ok(rest) => put_rest(line, &rest, out),
        Err(RunErr::Write) => Err(Stop::Write),
        Err(RunErr::OutOfMemory) => Err(Stop::OutOfMemory),
    }
}

// Obeys a command, and writes its last line.
fn obey<K: Sink>(
    session: &mut Session,
    alloc: Global,
    command: &Command,
    line: &mut Line,
    out: &mut K,
) -> Result<(), Stop>
    requires shown { IsShown session.old }
    requires counted { count (host_of session.old) ≤ 2 ^ 60 }
    requires fits { words.CanCount session.old.plain }
    requires built { is_served command.now ≡ true }
    ensures did { OnOk result (Did session.old session.new command.now (K.taken out.old) (K.taken out.new)) }
    ensures broke { OnErr result (Broke session.old command.now (K.taken out.old) (K.taken out.new)) }
    ensures counted { OnOk result (count (host_of session.new) ≤ count (host_of session.old) + 1000000000) }
    ensures rose { OnOk result (words.CountsFew session.old.plain session.new.plain) }
    ensures later { K.faults out.old ≤ K.faults out.new }
    ensures write { IsErrOf result Stop.Write → Rose (K.faults out.old) (K.faults out.new) }
{
    match command {
        Command::Advisor(k) => {
            let text = session.advise(*k);
            put_line(line, &text, out)
        }
        _ => obey_plain(&mut session.plain, alloc, command, line, out),
    }
}

// Opens a session over the world, and obeys the commands, each before the next.
fn run_commands<K: Sink>(
    alloc: Global,
    image: WorldImage,
    commands: &[Command],
    out: &mut K,
    advisors: Vec<Box<dyn Advisor + Drop>>,
) -> Result<Session, Stop>
    requires accepted { IsWorld image.world }
    requires few { length image.world.names ≤ 450000000 }
    requires short { length commands.now ≤ 1048577 }
    requires built { list_all is_served commands.now ≡ true }
    ensures all { OnOk result (Takes (K.taken out.old) (K.taken out.new) (transcript commands.now (begins (length advisors.items) image.world))) }
    ensures front { OnErr result (TakesFront (K.taken out.old) (K.taken out.new) (transcript commands.now (begins (length advisors.items) image.world))) }
    ensures write { IsErrOf result Stop.Write → Rose (K.faults out.old) (K.faults out.new) }
    ensures shown { IfOk result (IsDone (length advisors.items) image.world commands.now) }
{
    let mut session = Session::open(alloc, image, advisors)?;
    let mut line = Line::open(alloc)?;
    for at in 0..commands.len() {
        obey(&mut session, alloc, &commands[at], &mut line, out)?;
    }
    Ok(session)
}
