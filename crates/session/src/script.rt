//! A whole script.
ghost use Rattle.std.specs.Prelude.{◌≡◌, ℕ, ◌≤◌, false, [], ◌∷◌, ◌++◌, length, MatchResult};
ghost use Rattle.refusal.specs.declared.reason.Refusal.TheVariants.{NoMemory};
ghost use Rattle.session.specs.Machines.{machine_of};
ghost use Rattle.commands.specs.Commands.{command_of};
ghost use Rattle.printing.specs.declared.detail.Detail.TheVariants.{Nothing};
ghost use Rattle.printing.specs.Texts.{line_text};
ghost use Rattle.session.specs.Lines.{most_bytes, LineWritten, Progress, Script, Runs};

use crate::said::letter;
use crate::session::Session;
use device::disk::Disk;
use device::nvm::Nvm;
use lines::split::first_line;
use printing::complaint::Complaint;
use printing::line::write_said;
use refusal::reason::Refusal;
use std::alloc::Global;

/// The most bytes of a script.
pub const MOST_BYTES: usize = 65536;

/// Runs one line, and writes its line of the output behind what is there.
fn run_line<N: Nvm, D: Disk>(
    heap: Global,
    session: &mut Session<N, D>,
    number: u64,
    line: &[u8],
    out: &mut Vec<u8>,
) -> Result<(), Refusal>
    ensures { MatchResult result (λ _. LineWritten
        (machine_of N.Nvm.meaning D.Disk.meaning session.old) session.old.held
        (command_of line.now) number out.old.items out.new.items
        (machine_of N.Nvm.meaning D.Disk.meaning session.new) session.new.held) (λ e. e ≡ NoMemory) }
{
    let said = session.line(heap, line)?;
    let state = letter(&session.store);
    write_said(out, number, state, &said)?;
    Ok(())
}

/// Runs the lines of a script, one after another.
fn run_lines<N: Nvm, D: Disk>(
    heap: Global,
    session: &mut Session<N, D>,
    input: &[u8],
) -> Result<Vec<u8>, Refusal>
    requires { length input.now ≤ most_bytes }
    ensures { MatchResult result (λ out. session.old.held ≡ false → (number : ℕ) × Progress
        (machine_of N.Nvm.meaning D.Disk.meaning session.old) input.now [] number out.items
        (machine_of N.Nvm.meaning D.Disk.meaning session.new) session.new.held) (λ e. e ≡ NoMemory) }
{
    let mut out = Vec::new(heap);
    let mut rest = input;
    let mut number: u64 = 0;
    // Kept: no index is counted, and each turn is about the text that is left, which an iterator of lines would hide.
    while let Some(split) = first_line(rest) {
        number += 1;
        run_line(heap, session, number, split.line, &mut out)?;
        rest = split.rest;
    }
    Ok(out)
}

/// What a script that is too long prints.
fn refuse(heap: Global) -> Result<Vec<u8>, Refusal>
    ensures { MatchResult result (λ out. out.items ≡ line_text 0 117 91 Nothing) (λ e. e ≡ NoMemory) }
{
    let mut out = Vec::new(heap);
    write_said(&mut out, 0, 'u', &Err(Complaint::TooLong))?;
    Ok(out)
}

/// Runs a script in a session without a ticket and gives what it prints: a line for each of its lines. The end of the script gives a
/// held ticket up. Of a script of more than 65,536 bytes no line is run.
pub fn run_script<N: Nvm, D: Disk>(
    heap: Global,
    session: &mut Session<N, D>,
    input: &[u8],
) -> Result<Vec<u8>, Refusal>
    ensures { MatchResult result (λ out. session.old.held ≡ false → Runs
        (machine_of N.Nvm.meaning D.Disk.meaning session.old) input.now out.items
        (machine_of N.Nvm.meaning D.Disk.meaning session.new)) (λ e. e ≡ NoMemory) }
{
    if input.len() > MOST_BYTES {
        return refuse(heap);
    }
    let out = run_lines(heap, session, input)?;
    session.give_up(heap)?;
    Ok(out)
}
