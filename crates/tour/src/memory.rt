//! Lines about the memory.
use desk::verbs::MemoryVerb;
use device::comeback::Comeback;
use device::nvm::Nvm;
use nvm_words::mark::Mark;
use nvms::devices::PatientNvm;
use refusal::reason::Refusal;
use words::InShort;
use words::memory::Marked;

/// The words of the memory.
const SIZE: usize = 32;

/// What came of an act.
fn say(rt: &HostRuntime, acted: Result<(), Refusal>) -> anyhow::Result<()> {
    match acted {
        Ok(()) => Ok(println!(rt; "performed")?),
        Err(why) => {
            let words = InShort { why };
            Ok(println!(rt; "{words}")?)
        }
    }
}

/// Shows a word: its mark, and what it would come back as.
fn show_word(rt: &HostRuntime, nvm: &PatientNvm, word: usize) -> anyhow::Result<()> {
    let Some(mark) = nvm.mark(word) else {
        return say(rt, Err(Refusal::Beyond));
    };
    let words = Marked { mark };
    let old = nvm.settled(word).unwrap_or(0);
    let new = nvm.present(word).unwrap_or(0);
    Ok(println!(rt; "word {word} is {words}, settled {old}, present {new}")?)
}

/// The marks of all words.
fn marks(nvm: &PatientNvm) -> [Mark; SIZE] {
    let mut marks = [Mark::Settled; SIZE];
    for (word, mark) in marks.iter_mut().enumerate() {
        *mark = nvm.mark(word).unwrap_or(Mark::Settled);
    }
    marks
}

/// Gives the memory power again, and shows what each unsettled word came back as.
fn restart(
    rt: &HostRuntime,
    nvm: &mut PatientNvm,
    back: &Comeback,
    acts: u64,
) -> anyhow::Result<()> {
    let before = marks(nvm);
    nvm.restart(back, acts);
    println!(rt; "power for {acts} acts")?;
    for (word, mark) in before.iter().enumerate() {
        if mark.is_unsettled() {
            let words = Marked { mark: *mark };
            let value = nvm.present(word).unwrap_or(0);
            println!(rt; "  word {word} was {words}, came back as {value}")?;
        }
    }
    Ok(())
}

/// Runs a line about the memory.
pub fn run_memory(rt: &HostRuntime, nvm: &mut PatientNvm, verb: MemoryVerb) -> anyhow::Result<()> {
    match verb {
        MemoryVerb::Store { word, value } => say(rt, nvm.store(word as usize, value)),
        MemoryVerb::Flush(line) => say(rt, nvm.flush(line as usize)),
        MemoryVerb::Fence => say(rt, nvm.fence()),
        MemoryVerb::Word(word) => show_word(rt, nvm, word as usize),
        MemoryVerb::Restart { back, acts } => restart(rt, nvm, &back.comeback(), acts),
    }
}
