//! Sessions and their commands.
ghost use Rattle.std.specs.Prelude.{◌≡◌, ◌≢◌, ◌≤◌, ◌+◌, ◌^◌, ◌++◌, ℕ, [], true, codes, length, slice_get, None, Some, IfOk, OnOk, OnErr, IsErrOf};
ghost use Rattle.io_ports.specs.Causes.{HasCause, Rose};
ghost use Rattle.source_model.specs.Formed.{IsWellFormed, arity};
ghost use Rattle.source_model.specs.Lines.{activity_line};
ghost use Rattle.source_model.specs.Script.{spawn, switch};
ghost use Rattle.source_model.specs.Texts.{error_text};
ghost use Rattle.session_text.specs.LineTexts.{HasRoom, line_text};
ghost use Rattle.plain_steps.specs.Steps.{NamesSums};
ghost use Rattle.plain_host.specs.Hosted.{host};
ghost use Rattle.plain_turns.specs.Asking.{count};
ghost use Rattle.plain_opens.specs.Opens.{CanOpen};
ghost use Rattle.plain_core.specs.declared.running.RunErr.TheVariants.{Write};
ghost use Rattle.plain_core.specs.Spawning.{CanSpawn};
ghost use Rattle.run_lines.specs.Standing.{GoesOn, IsStanding};
ghost use Rattle.run_lines.specs.declared.current.Standing.TheVariants as standings;
ghost use Rattle.source_model.specs.State.{State};
ghost use Rattle.plain_turns.specs.Resting.{Rests};
ghost use Rattle.world_blocks.specs.Sessions.{session_names};
ghost use Rattle.world_state.specs.Begun.{begun};
ghost use Rattle.world_test.specs.Further.{starts_fixed};
ghost use Rattle.plain_session.specs.Commands.{is_built, obeyed, steps_on, goes_to, finishes, stacks};
ghost use Rattle.plain_session.specs.Stacks.{AreShort, rest_text, RestHasRoom};
ghost use Rattle.plain_session.specs.Sessions.{host_of, Shows, IsShown, Obeys, HasObeyed, HasBroken, IsLed, CanCount, CountsFew, birth_text};

use crate::stacks::StackWriter;
use io_ports::{Failed, Sink};
use plain_core::{Birth, Language, RunErr};
use plain_host::Hosting;
use run_lines::{Standing, run_line, standing_of};
use self_terms::{ErrorName, Name, OutOfMemory};
use session_text::{Command, LineText};
use slot_lookup::Walk;
use std::alloc::Global;
use std::marker::Model;
use world_heap::WorldImage;
use world_test::{number_of, session_names};

/// Machine and host of a world; room for walks over its objects; what the host knows of the language; and how many instructions the machine has done,
/// and how many services the host has given. Beside them there is room to show stacks in.
#[derive(Drop)]
pub struct Session {
    pub(crate) hosting: Hosting,
    pub(crate) walk: Walk,
    pub(crate) language: Language,
    pub(crate) instructions: u128,
    pub(crate) services: u64,
    pub(crate) stacks: StackWriter,
}

impl Model for Session {
    ghost use Rattle.std.specs.Prelude.{◌≤◌, length};
    ghost use Rattle.plain_session.specs.Sessions as sessions;

    ghost Value = { sessions.Session };

    ghost view = { λ x. record { hosted = x.hosting; room = x.walk; language = x.language; instructions = x.instructions; services = x.services } };

    ghost invariant = { λ x. length x.language.names ≤ 500000000 };
}

// Why a message isn't answered, as a line of a refused command.
fn refusal(error: ErrorName) -> &'static str
    ensures { result.now ≡ codes "refused " ++ error_text error }
{
    match error {
        ErrorName::BadType => "refused badTypeError",
        ErrorName::Overflow => "refused overflowError",
        ErrorName::DivisionByZero => "refused divisionByZeroError",
        ErrorName::BadIndex => "refused badIndexError",
        ErrorName::BadSize => "refused badSizeError",
        ErrorName::PrimitiveNotDefined => "refused primitiveNotDefined",
        ErrorName::NotUnderstood => "refused notUnderstood",
        ErrorName::Ambiguous => "refused ambiguous",
        ErrorName::NonLifoBlock => "refused nonLifoBlock",
        ErrorName::StackOverflow => "refused stackOverflow",
        ErrorName::StoreFull => "refused storeFull",
    }
}

// The line of the activity that has become the current one.
fn begun_line(hosting: &Hosting) -> LineText<'static>
    requires { CanSpawn (host hosting.now) }
    ensures line { line_text result ≡ activity_line ((host hosting.now).current + 1) }
    ensures room { HasRoom result }
{
    let current = hosting.current();
    LineText::Activity(current as u8 + 1)
}

// The line of a birth.
fn birth_line(hosting: &Hosting, birth: Birth) -> LineText<'static>
    requires { CanSpawn (host hosting.now) }
    ensures line { line_text result ≡ birth_text (host hosting.now) birth }
    ensures room { HasRoom result }
{
    match birth {
        Birth::Begun => begun_line(hosting),
        Birth::Refused(error) => LineText::Fixed(refusal(error)),
        Birth::NotAMethod => LineText::Fixed("refused not a method"),
        Birth::TooMany => LineText::Fixed("refused too many activities"),
    }
}

impl Session {
    /// The session over a world, with its names and those that a session has behind them, which shows the state with which it begins.
    pub fn open(alloc: Global, image: WorldImage) -> Result<Session, OutOfMemory>
        requires opens { CanOpen image.world }
        requires formed { IsWellFormed (begun image.world (session_names image.world) 0) }
        requires sums { NamesSums (session_names image.world) }
        requires fixed { starts_fixed image.world.names ≡ true }
        requires short { AreShort (session_names image.world) image.world.bodies }
        requires few { length image.world.names ≤ 450000000 }
        ensures shows { IfOk result (λ x. Shows x (begun image.world (session_names image.world) 0)) }
        ensures idle { IfOk result (λ x. (host_of x).statuses ≡ []) }
        ensures instructions { IfOk result (λ x. x.instructions ≡ 0) }
        ensures services { IfOk result (λ x. x.services ≡ 0) }
    {
        image.is_whole();
        let core = image.world().core();
        let names = session_names(alloc, image.world().names())?;
        let fixed = image.world().objects();
        let failure = number_of(&names, b"value:With:");
        let hosting = plain_opens::open(alloc, image)?;
        let walk = Walk::open(alloc, hosting.next())?;
        let language = Language::open(alloc, names, core, fixed, Name(failure))?;
        let stacks = StackWriter::open(alloc)?;
        Ok(Session {
            hosting,
            walk,
            language,
            instructions: 0,
            services: 0,
            stacks,
        })
    }

    /// How many instructions its machine has done.
    pub fn instructions(&self) -> u128
        ensures { result ≡ self.now.instructions }
    {
        self.instructions
    }

    /// How many services its host has given.
    pub fn services(&self) -> u64
        ensures { result ≡ self.now.services }
    {
        self.services
    }

    /// The command `spawn` of a name that takes no arguments, and its line. After want of memory machine and host are as they were.
    pub fn spawn(&mut self, alloc: Global, name: &[u8]) -> Result<LineText<'static>, OutOfMemory>
        requires shows { IsShown self.old }
        requires plain { arity name.now ≡ 0 }
        ensures obeys { IfOk result (λ t. Obeys self.old self.new (spawn name.now) (line_text t)) }
        ensures room { IfOk result HasRoom }
        ensures counted { IfOk result (λ t. count (host_of self.new) ≡ count (host_of self.old)) }
        ensures led { IfOk result (λ t. IsLed self.old self.new) }
        ensures rose { IfOk result (λ t. CountsFew self.old self.new) }
        ensures unchanged { OnErr result (host_of self.new ≡ host_of self.old) }
    {
        let number = number_of(self.language.names(), name);
        let birth = plain_core::spawn(&mut self.hosting, alloc, &mut self.walk, Name(number))?;
        Ok(birth_line(&self.hosting, birth))
    }

    /// The command `switch` to the activity of a number, from 1, and its line. Takes no memory.
    pub fn switch(&mut self, k: u32) -> LineText<'static>
        requires shows { IsShown self.old }
        ensures obeys { Obeys self.old self.new (switch k) (line_text result) }
        ensures room { HasRoom result }
        ensures counted { count (host_of self.new) ≡ count (host_of self.old) }
        ensures led { IsLed self.old self.new }
        ensures rose { CountsFew self.old self.new }
    {
        if k == 0 {
            return LineText::Fixed("refused no such activity");
        }
        if k > self.hosting.activities() {
            return LineText::Fixed("refused no such activity");
        }
        self.hosting.is_whole();
        self.hosting.switch(k - 1);
        LineText::Activity(k as u8)
    }

    // A run of the current activity, which goes on.
    fn go<K: Sink>(
        &mut self,
        alloc: Global,
        steps: u32,
        out: &mut K,
    ) -> Result<LineText<'static>, RunErr>
        requires shows { IsShown self.old }
        requires few { steps ≤ 1000000000 }
        requires counted { count (host_of self.old) ≤ 2 ^ 60 }
        requires fits { CanCount self.old }
        requires goes { GoesOn (host_of self.old) }
        requires stands { (s : State) → Rests (host_of self.old) s → IsStanding s standings.Goes }
        ensures obeys { IfOk result (λ t. HasObeyed self.old self.new (steps_on steps) (K.taken out.old) (K.taken out.new) (line_text t)) }
        ensures room { IfOk result HasRoom }
        ensures counted { IfOk result (λ t. count (host_of self.new) ≤ count (host_of self.old) + steps) }
        ensures led { IfOk result (λ t. IsLed self.old self.new) }
        ensures rose { IfOk result (λ t. CountsFew self.old self.new) }
        ensures broken { OnErr result (HasBroken self.old (steps_on steps) (K.taken out.old) (K.taken out.new)) }
        ensures later { K.faults out.old ≤ K.faults out.new }
        ensures cause { IsErrOf result Write → Rose (K.faults out.old) (K.faults out.new) }
    {
        let taken = plain_core::run(
            &mut self.hosting,
            alloc,
            &mut self.walk,
            &self.language,
            out,
            steps,
        )?;
        self.instructions += taken.instructions;
        self.services += taken.services;
        Ok(run_line(&self.hosting, self.language.core()))
    }

    /// The command `run` of so many steps: `out` takes what is printed, and the line is given. A run that broke off can't go on.
    pub fn run<K: Sink>(
        &mut self,
        alloc: Global,
        steps: u32,
        out: &mut K,
    ) -> Result<LineText<'static>, RunErr>
        requires shows { IsShown self.old }
        requires few { steps ≤ 1000000000 }
        requires counted { count (host_of self.old) ≤ 2 ^ 60 }
        requires fits { CanCount self.old }
        ensures obeys { IfOk result (λ t. HasObeyed self.old self.new (steps_on steps) (K.taken out.old) (K.taken out.new) (line_text t)) }
        ensures room { IfOk result HasRoom }
        ensures counted { IfOk result (λ t. count (host_of self.new) ≤ count (host_of self.old) + steps) }
        ensures led { IfOk result (λ t. IsLed self.old self.new) }
        ensures rose { IfOk result (λ t. CountsFew self.old self.new) }
        ensures broken { OnErr result (HasBroken self.old (steps_on steps) (K.taken out.old) (K.taken out.new)) }
        ensures later { K.faults out.old ≤ K.faults out.new }
        ensures cause { IsErrOf result Write → Rose (K.faults out.old) (K.faults out.new) }
    {
        match standing_of(&self.hosting) {
            Standing::Nobody => Ok(LineText::Fixed("refused no activity")),
            Standing::Goes => self.go(alloc, steps, out),
            Standing::Ended => Ok(LineText::Fixed("refused ended")),
        }
    }

    // On to a count of steps, where the current activity goes on.
    fn go_to<K: Sink>(
        &mut self,
        alloc: Global,
        steps: u32,
        out: &mut K,
    ) -> Result<LineText<'static>, RunErr>
        requires shows { IsShown self.old }
        requires few { steps ≤ 1000000000 }
        requires counted { count (host_of self.old) ≤ 2 ^ 60 }
        requires fits { CanCount self.old }
        requires goes { GoesOn (host_of self.old) }
        requires stands { (s : State) → Rests (host_of self.old) s → IsStanding s standings.Goes }
        ensures obeys { IfOk result (λ t. HasObeyed self.old self.new (goes_to steps) (K.taken out.old) (K.taken out.new) (line_text t)) }
        ensures room { IfOk result HasRoom }
        ensures counted { IfOk result (λ t. count (host_of self.new) ≤ count (host_of self.old) + steps) }
        ensures led { IfOk result (λ t. IsLed self.old self.new) }
        ensures rose { IfOk result (λ t. CountsFew self.old self.new) }
        ensures broken { OnErr result (HasBroken self.old (goes_to steps) (K.taken out.old) (K.taken out.new)) }
        ensures later { K.faults out.old ≤ K.faults out.new }
        ensures cause { IsErrOf result Write → Rose (K.faults out.old) (K.faults out.new) }
    {
        let done = self.hosting.steps();
        if done > steps as u64 {
            return Ok(LineText::Fixed("refused past"));
        }
        self.go(alloc, steps - done as u32, out)
    }

    /// The command `continue` to a count of steps: `out` takes what is printed, and the line is given. A run that broke off can't go on.
    pub fn continue_to<K: Sink>(
        &mut self,
        alloc: Global,
        steps: u32,
        out: &mut K,
    ) -> Result<LineText<'static>, RunErr>
        requires shows { IsShown self.old }
        requires few { steps ≤ 1000000000 }
        requires counted { count (host_of self.old) ≤ 2 ^ 60 }
        requires fits { CanCount self.old }
        ensures obeys { IfOk result (λ t. HasObeyed self.old self.new (goes_to steps) (K.taken out.old) (K.taken out.new) (line_text t)) }
        ensures room { IfOk result HasRoom }
        ensures counted { IfOk result (λ t. count (host_of self.new) ≤ count (host_of self.old) + steps) }
        ensures led { IfOk result (λ t. IsLed self.old self.new) }
        ensures rose { IfOk result (λ t. CountsFew self.old self.new) }
        ensures broken { OnErr result (HasBroken self.old (goes_to steps) (K.taken out.old) (K.taken out.new)) }
        ensures later { K.faults out.old ≤ K.faults out.new }
        ensures cause { IsErrOf result Write → Rose (K.faults out.old) (K.faults out.new) }
    {
        match standing_of(&self.hosting) {
            Standing::Nobody => Ok(LineText::Fixed("refused no activity")),
            Standing::Goes => self.go_to(alloc, steps, out),
            Standing::Ended => Ok(LineText::Fixed("refused ended")),
        }
    }

    // The lines of the current activity's activations, where it goes on.
    fn tell<K: Sink>(&mut self, out: &mut K) -> Result<(), Failed>
        requires shows { IsShown self.old }
        requires goes { GoesOn (host_of self.old) }
        requires stands { (s : State) → Rests (host_of self.old) s → IsStanding s standings.Goes }
        ensures obeys { OnOk result (HasObeyed self.old self.new stacks (K.taken out.old) (K.taken out.new) []) }
        ensures counted { count (host_of self.new) ≡ count (host_of self.old) }
        ensures led { IsLed self.old self.new }
        ensures rose { CountsFew self.old self.new }
        ensures broken { OnErr result (HasBroken self.old stacks (K.taken out.old) (K.taken out.new)) }
        ensures cause { HasCause (K.faults out.old) (K.faults out.new) result }
    {
        self.stacks.write(&mut self.hosting, &self.language, out)
    }

    /// The command `stack`: `out` takes the lines of the current activity's activations, the youngest first, and no line is given; or the line is given that
    /// refuses the command. Takes no memory.
    pub fn stack<K: Sink>(&mut self, out: &mut K) -> Result<Option<LineText<'static>>, RunErr>
        requires shows { IsShown self.old }
        ensures obeys { IfOk result (λ t. HasObeyed self.old self.new stacks (K.taken out.old) (K.taken out.new) (rest_text t)) }
        ensures room { IfOk result RestHasRoom }
        ensures counted { IfOk result (λ t. count (host_of self.new) ≡ count (host_of self.old)) }
        ensures led { IfOk result (λ t. IsLed self.old self.new) }
        ensures rose { IfOk result (λ t. CountsFew self.old self.new) }
        ensures broken { OnErr result (HasBroken self.old stacks (K.taken out.old) (K.taken out.new)) }
        ensures later { K.faults out.old ≤ K.faults out.new }
        ensures cause { IsErrOf result Write → Rose (K.faults out.old) (K.faults out.new) }
    {
        match standing_of(&self.hosting) {
            Standing::Nobody => Ok(Some(LineText::Fixed("refused no activity"))),
            Standing::Goes => match self.tell(out) {
                Ok(()) => Ok(None),
                Err(_) => Err(RunErr::Write),
            },
            Standing::Ended => Ok(Some(LineText::Fixed("refused ended"))),
        }
    }

    /// A command that is built: `out` takes what it writes, but for a last line that is given. After want of memory or a failed write the session can't go
    /// on.
    pub fn obey<K: Sink>(
        &mut self,
        alloc: Global,
        command: &Command,
        out: &mut K,
    ) -> Result<Option<LineText<'static>>, RunErr>
        requires shows { IsShown self.old }
        requires counted { count (host_of self.old) ≤ 2 ^ 60 }
        requires fits { CanCount self.old }
        requires built { is_built command.now ≡ true }
        ensures obeys { IfOk result (λ t. HasObeyed self.old self.new (obeyed command.now) (K.taken out.old) (K.taken out.new) (rest_text t)) }
        ensures room { IfOk result RestHasRoom }
        ensures counted { IfOk result (λ t. count (host_of self.new) ≤ count (host_of self.old) + 1000000000) }
        ensures led { IfOk result (λ t. IsLed self.old self.new) }
        ensures rose { IfOk result (λ t. CountsFew self.old self.new) }
        ensures broken { OnErr result (HasBroken self.old (obeyed command.now) (K.taken out.old) (K.taken out.new)) }
        ensures later { K.faults out.old ≤ K.faults out.new }
        ensures cause { IsErrOf result Write → Rose (K.faults out.old) (K.faults out.new) }
    {
        match command {
            Command::Spawn(name) => Ok(Some(self.spawn(alloc, name.as_slice())?)),
            Command::Switch(k) => Ok(Some(self.switch(*k))),
            Command::Run(steps) => Ok(Some(self.run(alloc, *steps, out)?)),
            Command::Continue(steps) => Ok(Some(self.continue_to(alloc, *steps, out)?)),
            Command::Step => Ok(Some(self.run(alloc, 1, out)?)),
            Command::Interrupt(steps) => Ok(Some(self.run(alloc, *steps, out)?)),
            Command::Finish(steps) => Ok(Some(self.finish(alloc, *steps, out)?)),
            Command::Stack => self.stack(out),
            _ => unreachable!(),
        }
    }
}
