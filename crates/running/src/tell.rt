//! What a call returned, told as an answer.
ghost use Rattle.std.specs.Prelude.{◌≡◌};
ghost use Rattle.calling.specs.Seen.{done_answer, blocks_answer, used_answer};
ghost use Rattle.device_calls.specs.Answers.{read_answer};

use calls::answer::Answer;
use refusal::reason::Refusal;

// Kept: no From for Answer, since a number is either the blocks written or the places used, and only the call says which.

/// The answer of a call that is done or refused.
pub fn done<R>(res: Result<(), Refusal>) -> Answer<R>
    ensures { result ≡ done_answer res }
{
    match res {
        Ok(()) => Answer::Done,
        Err(refusal) => Answer::Refused(refusal),
    }
}

/// The answer of a call that counts the blocks that it wrote.
pub fn blocks<R>(res: Result<usize, Refusal>) -> Answer<R>
    ensures { result ≡ blocks_answer res }
{
    match res {
        Ok(count) => Answer::Blocks(count),
        Err(refusal) => Answer::Refused(refusal),
    }
}

/// The answer of a commit.
pub fn used<R>(res: Result<usize, Refusal>) -> Answer<R>
    ensures { result ≡ used_answer res }
{
    match res {
        Ok(places) => Answer::Used(places),
        Err(refusal) => Answer::Refused(refusal),
    }
}

/// The answer of a read.
pub fn found<R>(res: Result<Option<R>, Refusal>) -> Answer<R>
    ensures { result ≡ read_answer res }
{
    match res {
        Ok(Some(value)) => Answer::Found(value),
        Ok(None) => Answer::Absent,
        Err(refusal) => Answer::Refused(refusal),
    }
}
