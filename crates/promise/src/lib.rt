//! The whole promise: what can be asked of a store, what is known of it from what was asked and answered, and what is promised of
//! every list of requests. But for the types of requests there is no code here: each function names what holds, so that the
//! check asks for its proof.
#![tactic(auto)]

ghost use Rattle.order.specs.Order.{kind_of};
ghost use Rattle.promise.specs.Laws.{NewStoresAreKnown, RunsAreKnown, RunsAreTold, KnownStoresKeepThePromise, CallsAreHeard, RestartsAreHeard, NoRequests, OneCallMore, OneRestartMore, ListsJoin};

use kinds::kind::RecordKind;

pub mod request;

/// A history is true of every new store, whatever its devices hold, and of every store that came of an accepted format, whatever
/// was asked of it since; and all of that is told as one list of requests.
pub fn stores_are_known<K: RecordKind>()
    ensures new { NewStoresAreKnown (kind_of K.RecordKind.unit K.RecordKind.reads) }
    ensures ran { RunsAreKnown (kind_of K.RecordKind.unit K.RecordKind.reads) }
    ensures told { RunsAreTold (kind_of K.RecordKind.unit K.RecordKind.reads) }
{}

/// What is known of a store stays true at every call, a format too, and every restart; every call is answered right by it; and the
/// promise holds for every list of calls and restarts that may follow, up to the next format.
pub fn the_promise_is_kept<K: RecordKind>()
    ensures upheld { KnownStoresKeepThePromise (kind_of K.RecordKind.unit K.RecordKind.reads) }
    ensures calls { CallsAreHeard (kind_of K.RecordKind.unit K.RecordKind.reads) }
    ensures restarts { RestartsAreHeard (kind_of K.RecordKind.unit K.RecordKind.reads) }
{}

/// Lists of requests keep the promise: the list without requests; a list with one call or one restart more; and two lists, of
/// which the second goes on where the first has ended, as one.
pub fn lists_of_requests_grow<K: RecordKind>()
    ensures nothing { NoRequests (kind_of K.RecordKind.unit K.RecordKind.reads) }
    ensures call { OneCallMore (kind_of K.RecordKind.unit K.RecordKind.reads) }
    ensures restart { OneRestartMore (kind_of K.RecordKind.unit K.RecordKind.reads) }
    ensures join { ListsJoin (kind_of K.RecordKind.unit K.RecordKind.reads) }
{}
