//! Which calls a store takes in which state.
ghost use Rattle.std.specs.Prelude.{◌≡◌};
ghost use Rattle.calls.specs.Judge.{judge as judgement};

use calls::call::Call;
use calls::state::State;
use refusal::reason::Refusal;

/// The refusal that a call meets by the state of the store, or none. What record a call sets does not matter to it.
// Kept: an `Option`, as in the definition, since here a refusal is what is asked for and no failure.
pub fn judge<R>(state: State, call: &Call<R>) -> Option<Refusal>
    ensures { result ≡ judgement state call.now }
{
    match (state, call) {
        (State::Unmounted, Call::Format | Call::Mount) => None,
        (State::Unmounted, _) => Some(Refusal::NotMounted),
        (_, Call::Format | Call::Mount) => Some(Refusal::Mounted),
        (State::Idle, Call::Set(_, _) | Call::Clear(_) | Call::Commit | Call::Abandon) => Some(
            Refusal::NotOpen,
        ),
        (State::Open, Call::Begin | Call::Close) => Some(Refusal::AlreadyOpen),
        (_, _) => None,
    }
}
