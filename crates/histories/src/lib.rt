//! Histories that happen: examples of what the promise of the book speaks of. There is no code here: each function names what
//! there is, so that the check asks for it.
#![tactic(auto)]

ghost use Rattle.histories.specs.History.{AHistoryHappens};
ghost use Rattle.histories.specs.Masts.{MastHistory};
ghost use Rattle.histories.specs.Requests.{AListHappens};
ghost use Rattle.order.specs.Order.{kind_of};

use joined::kind::JoinedKind;
use kinds::kind::RecordKind;

/// Any two records x and y of any kind have a history: noisy devices are formatted and mounted, a commit sets record 5 to x, and
/// a commit that sets it to y is cut. The one dark store comes back in two ways: in one a read answers x, in the other y.
pub fn a_history_happens<K: RecordKind>()
    ensures { AHistoryHappens (kind_of K.RecordKind.unit K.RecordKind.reads) }
{}

/// The history as a list of requests to a new store on noisy devices: the same requests may end with a read of x and with a read
/// of y, and all of it is known then.
pub fn a_list_happens<K: RecordKind>()
    ensures { AListHappens (kind_of K.RecordKind.unit K.RecordKind.reads) }
{}

/// A closed example: two different masts have a history, as records of the kind of tiles and masts.
pub fn two_masts_have_a_history()
    ensures { MastHistory }
{
    a_history_happens::<JoinedKind>();
}
