// Loading a frame from a store, and the gates at some of its places.
ghost use Rattle.std.specs.Prelude.{◌≡◌};
ghost use Rattle.fixed_list.specs.Lists.{contents};
ghost use Rattle.workspace.specs.Matching.{frame_at};
ghost use Rattle.workspace.specs.Occurrences.{at_places};

use super::frame::{Frame, REACH};
use super::named::Distances;
use super::posed::Chosen;
use fixed_list::FixedList;
use gates::Gate;
use stores::Store;

// The frame from a place on: no gate where the list ends before it.
pub(crate) fn frame_from<S: Store>(store: &S, first: usize) -> Frame
    ensures { contents result ≡ frame_at (S.means store.now).gates first }
{
    let end = store.count().min(first.saturating_add(REACH));
    // No refusal comes of a place below the count, so none is handed on.
    let gates = (first..end).map(|place| store.read(place).unwrap_or(Gate::BLANK));
    FixedList::collected(gates, Gate::BLANK)
}

// The gates at the distances; a blank one behind the end of the frame.
pub(crate) fn gates_at(frame: &[Gate], distances: &Distances) -> Chosen
    ensures { contents result ≡ at_places frame.now (contents distances.now) }
{
    distances.map(
        Gate::BLANK,
        |distance| frame.get(distance).copied().unwrap_or(Gate::BLANK),
    )
}
