//! One line of a script.
ghost use Rattle.std.specs.Prelude.{◌≡◌, true, false, not, ◌&&◌, Some, MatchResult};
ghost use Rattle.refusal.specs.declared.reason.Refusal.TheVariants.{NoMemory};
ghost use Rattle.joined.specs.declared.record.Joined.{Joined as Value};
ghost use Rattle.calls.specs.declared.call.Call.TheVariants.{Begin, Commit, Abandon};
ghost use Rattle.calls.specs.declared.answer.Answer.{Answer as Reply};
ghost use Rattle.session.specs.Machines.{machine_of};
ghost use Rattle.commands.specs.Commands.{Asked, begin as beginning, commit as committing, abandon as abandoning, set as setting, restart as restarting, wanted, asked, command_of};
ghost use Rattle.printing.specs.Said.{number_shown, detail_shown};
ghost use Rattle.session.specs.Said.{needs_ticket, held_after};
ghost use Rattle.session.specs.Lines.{CallSaid, GivenUp, LineSaid};

use crate::said::{is_accepted, keeps_ticket, needs_ticket, said_of};
use crate::session::Session;
use calls::call::Call;
use commands::command::{Command, Contents, Draft};
use commands::make::make;
use commands::parse::parse;
use device::disk::Disk;
use device::nvm::Nvm;
use joined::record::Joined;
use printing::complaint::Complaint;
use printing::detail::Detail;
use promise::request::{Request, Return};
use refusal::reason::Refusal;
use std::alloc::Global;

/// What a line says: what was answered, or why nothing was.
pub type Said = Result<Detail, Complaint>;

impl<N: Nvm, D: Disk> Session<N, D> {
    /// A call that leaves the ticket as it is.
    fn call(&mut self, heap: Global, call: Call<Joined>) -> Result<Said, Refusal>
        ensures { MatchResult result (λ s. (c : Asked) → ((a : Reply Value) → held_after self.old.held c a ≡ self.old.held) → CallSaid
            (machine_of N.Nvm.meaning D.Disk.meaning self.old) self.old.held
            c call (number_shown s) (detail_shown s)
            (machine_of N.Nvm.meaning D.Disk.meaning self.new) self.new.held) (λ e. e ≡ NoMemory) }
    {
        let answer = self.ask(heap, Request::Call(call))?;
        Ok(said_of(answer))
    }

    /// A begin: accepted, it hands out a ticket.
    fn begin(&mut self, heap: Global) -> Result<Said, Refusal>
        ensures { MatchResult result (λ s. CallSaid
            (machine_of N.Nvm.meaning D.Disk.meaning self.old) self.old.held
            beginning Begin (number_shown s) (detail_shown s)
            (machine_of N.Nvm.meaning D.Disk.meaning self.new) self.new.held) (λ e. e ≡ NoMemory) }
    {
        let answer = self.ask(heap, Request::Call(Call::Begin))?;
        if is_accepted(&answer) {
            self.held = true;
        }
        Ok(said_of(answer))
    }

    /// A commit: it spends the ticket, unless its refusal hands it back.
    fn commit(&mut self, heap: Global) -> Result<Said, Refusal>
        ensures { MatchResult result (λ s. CallSaid
            (machine_of N.Nvm.meaning D.Disk.meaning self.old) self.old.held
            committing Commit (number_shown s) (detail_shown s)
            (machine_of N.Nvm.meaning D.Disk.meaning self.new) self.new.held) (λ e. e ≡ NoMemory) }
    {
        let answer = self.ask(heap, Request::Call(Call::Commit))?;
        self.held = keeps_ticket(&answer);
        Ok(said_of(answer))
    }

    /// An abandon: it takes the ticket whatever it answers.
    fn abandon(&mut self, heap: Global) -> Result<Said, Refusal>
        ensures { MatchResult result (λ s. CallSaid
            (machine_of N.Nvm.meaning D.Disk.meaning self.old) self.old.held
            abandoning Abandon (number_shown s) (detail_shown s)
            (machine_of N.Nvm.meaning D.Disk.meaning self.new) self.new.held) (λ e. e ≡ NoMemory) }
    {
        let answer = self.ask(heap, Request::Call(Call::Abandon))?;
        self.held = false;
        Ok(said_of(answer))
    }

    /// Gives a held ticket up.
    pub fn give_up(&mut self, heap: Global) -> Result<(), Refusal>
        ensures { MatchResult result (λ _. GivenUp (machine_of N.Nvm.meaning D.Disk.meaning self.old) self.old.held (machine_of N.Nvm.meaning D.Disk.meaning self.new) × (self.new.held ≡ false)) (λ e. e ≡ NoMemory) }
    {
        if self.held {
            let _ = self.abandon(heap)?;
        }
        Ok(())
    }

    /// A record that is made and set, or that cannot be made.
    fn set(&mut self, heap: Global, record: u64, draft: Draft<'_>) -> Result<Said, Refusal>
        ensures { MatchResult result (λ s. self.old.held ≡ true → LineSaid
            (machine_of N.Nvm.meaning D.Disk.meaning self.old) self.old.held
            (Some (setting «record» (wanted draft.entry))) (number_shown s) (detail_shown s)
            (machine_of N.Nvm.meaning D.Disk.meaning self.new) self.new.held) (λ e. e ≡ NoMemory) }
    {
        match make(draft) {
            Ok(value) => self.call(heap, Call::Set(record, value)),
            Err(why) => Ok(Err(Complaint::Refused(why))),
        }
    }

    /// A restart of both devices. A held ticket is given up before it.
    fn restart(
        &mut self,
        heap: Global,
        contents: Contents,
        nvm_acts: u64,
        disk_acts: u64,
    ) -> Result<Said, Refusal>
        ensures { MatchResult result (λ s. LineSaid
            (machine_of N.Nvm.meaning D.Disk.meaning self.old) self.old.held
            (Some (restarting contents nvm_acts disk_acts)) (number_shown s) (detail_shown s)
            (machine_of N.Nvm.meaning D.Disk.meaning self.new) self.new.held) (λ e. e ≡ NoMemory) }
    {
        self.give_up(heap)?;
        let back = Return {
            nvm: contents.comeback(),
            disk: contents.comeback(),
            nvm_acts,
            disk_acts,
        };
        self.ask(heap, Request::Restart(back))?;
        Ok(Ok(Detail::Nothing))
    }

    /// Whether a command needs a ticket and none is held.
    fn lacks_ticket(&self, command: Command<'_>) -> bool
        ensures { result ≡ (needs_ticket (asked command.entry) && not self.now.held) }
    {
        needs_ticket(command) && !self.held
    }

    /// What a command says, and does.
    fn command(&mut self, heap: Global, command: Command<'_>) -> Result<Said, Refusal>
        ensures { MatchResult result (λ s. LineSaid
            (machine_of N.Nvm.meaning D.Disk.meaning self.old) self.old.held
            (Some (asked command.entry)) (number_shown s) (detail_shown s)
            (machine_of N.Nvm.meaning D.Disk.meaning self.new) self.new.held) (λ e. e ≡ NoMemory) }
    {
        if self.lacks_ticket(command) {
            return Ok(Err(Complaint::Refused(Refusal::NotOpen)));
        }
        match command {
            Command::Format => self.call(heap, Call::Format),
            Command::Mount => self.call(heap, Call::Mount),
            Command::Begin => self.begin(heap),
            Command::Commit => self.commit(heap),
            Command::Abandon => self.abandon(heap),
            Command::Checkpoint => self.call(heap, Call::Checkpoint),
            Command::Close => self.call(heap, Call::Close),
            Command::Clear(number) => self.call(heap, Call::Clear(number)),
            Command::Show(number) => self.call(heap, Call::Read(number)),
            Command::Set { record, draft } => self.set(heap, record, draft),
            Command::Restart {
                contents,
                nvm_acts,
                disk_acts,
            } => self.restart(heap, contents, nvm_acts, disk_acts),
        }
    }

    /// What a line says, and does.
    pub fn line(&mut self, heap: Global, line: &[u8]) -> Result<Said, Refusal>
        ensures { MatchResult result (λ s. LineSaid
            (machine_of N.Nvm.meaning D.Disk.meaning self.old) self.old.held
            (command_of line.now) (number_shown s) (detail_shown s)
            (machine_of N.Nvm.meaning D.Disk.meaning self.new) self.new.held) (λ e. e ≡ NoMemory) }
    {
        match parse(line) {
            Some(command) => self.command(heap, command),
            None => Ok(Err(Complaint::AnotherForm)),
        }
    }
}
