// What is known once for a first place: the frame, who blocks whom in it, and where each line has which role.
ghost use Rattle.fixed_list.specs.Lists.{contents};
ghost use Rattle.std.specs.Prelude.{◌≡◌, ◌&&◌, length, nat_lt, ⊤};
ghost use Rattle.workspace.specs.Matching.{frame_at};
ghost use Rattle.workspace.specs.Starts.{HasRoles, IsSet, Known, movable, within};

use super::blockers::all_blockers;
use super::frame::{Frame, REACH};
use super::framing::frame_from;
use super::line::Line;
use super::numbers::numbers_where;
use super::role::{LINES, RoleSets, all_roles};
use gates::GateKind;
use std::alloc::AllocError;
use std::marker::PhantomData;
use stores::Store;

// For each distance those of its blockers, and for each line the distances at which it has each role.
// The blockers do not stand beside their gates, since the exact test of a key reads the gates alone, as one slice.
#[derive_where(Copy)]
pub struct Start<K: GateKind> {
    pub(crate) frame: Frame,
    blockers: [u64; REACH],
    roles: [RoleSets; LINES],
    kind: PhantomData<K>,
    ghost known: { Known K.means (contents frame) blockers roles },
}

// A copy is a clone.
// By hand: a derive is refused beside a ghost field.
impl<K: GateKind> Clone for Start<K> {
    ghost is_clone = { λ start copy. copy ≡ start };

    ghost is_infallible = { λ _. ⊤ };

    fn clone(&self) -> Result<Start<K>, AllocError> {
        Ok(*self)
    }
}

// By hand: the marker would ask it of the kind too, of which no value is held.
unsafe impl<K: GateKind> Send for Start<K> {}

unsafe impl<K: GateKind> Sync for Start<K> {}

// What is known for this first place.
pub(crate) fn start_at<S: Store>(store: &S, first: usize) -> Start<S::Kind>
    ensures { contents result.frame ≡ frame_at (S.means store.now).gates first }
{
    let frame = frame_from(store, first);
    let gates = frame.as_slice();
    Start {
        frame,
        blockers: all_blockers::<S::Kind>(gates),
        roles: all_roles::<S::Kind>(gates),
        kind: PhantomData,
    }
}

// Whether all numbers of the set are in the other.
fn is_within(set: u64, other: u64) -> bool
    ensures { result ≡ within set other }
{
    set & !other == 0
}

impl<K: GateKind> Start<K> {
    // The distances at which line x has each role.
    pub(crate) fn roles_at(&self, x: &Line) -> RoleSets
        ensures { HasRoles K.means (contents self.now.frame) x.now.number result }
    {
        self.roles[usize::from(x.number)]
    }

    // The distances behind this one all of whose blockers are chosen.
    pub(crate) fn eligible(&self, chosen: u64, after: usize) -> u64
        ensures { IsSet result (λ d. nat_lt d (length (contents self.now.frame)) && (nat_lt after d && movable K.means (contents self.now.frame) chosen d)) }
    {
        numbers_where(self.frame.len(), |distance| {
            after < distance && is_within(self.blockers[distance], chosen)
        })
    }
}
