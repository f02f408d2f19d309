//! What a line says of an answer and of the store, and what becomes of the ticket.
ghost use Rattle.std.specs.Prelude.{◌≡◌};
ghost use Rattle.store.specs.Machine.{machine};
ghost use Rattle.book.specs.Commits.{is_accepted};
ghost use Rattle.printing.specs.Said.{number_shown, detail_shown};
ghost use Rattle.session.specs.Said.{number_said, detail_said, kept_by, letter_of, needs_ticket};
ghost use Rattle.commands.specs.Commands.{asked};

use calls::answer::Answer;
use calls::state::State;
use commands::command::Command;
use device::disk::Disk;
use device::nvm::Nvm;
use joined::kind::JoinedKind;
use joined::record::Joined;
use printing::complaint::Complaint;
use printing::detail::Detail;
use refusal::reason::Refusal;
use store::store::Store;

/// What a line says of an answer.
pub fn said_of(answer: Answer<Joined>) -> Result<Detail, Complaint>
    ensures number { number_shown result ≡ number_said answer }
    ensures detail { detail_shown result ≡ detail_said answer }
{
    match answer {
        Answer::Refused(refusal) => Err(Complaint::Refused(refusal)),
        Answer::Done => Ok(Detail::Nothing),
        Answer::Used(count) | Answer::Blocks(count) => Ok(Detail::Count(count as u64)),
        Answer::Absent => Ok(Detail::Absent),
        Answer::Found(value) => Ok(Detail::Record(value)),
    }
}

/// Whether a call was accepted.
pub fn is_accepted(answer: &Answer<Joined>) -> bool
    ensures { result ≡ is_accepted answer.now }
{
    !matches!(answer, Answer::Refused(_))
}

/// Whether a commit with this answer hands its ticket back.
pub fn keeps_ticket(answer: &Answer<Joined>) -> bool
    ensures { result ≡ kept_by answer.now }
{
    matches!(
        answer,
        Answer::Refused(Refusal::NotMounted | Refusal::NotOpen | Refusal::RingFull)
    )
}

/// Whether a command needs a ticket.
pub fn needs_ticket(command: Command<'_>) -> bool
    ensures { result ≡ needs_ticket (asked command.entry) }
{
    matches!(
        command,
        Command::Commit | Command::Abandon | Command::Clear(_) | Command::Set { .. }
    )
}

/// The letter of a store: dark, or by its state unmounted, idle or open.
pub fn letter<N: Nvm, D: Disk>(store: &Store<N, D, JoinedKind>) -> char
    ensures { result ≡ letter_of (machine N.Nvm.meaning D.Disk.meaning store.now) }
{
    if store.is_dark() {
        return 'd';
    }
    match store.state() {
        State::Unmounted => 'u',
        State::Idle => 'i',
        State::Open => 'o',
    }
}
