//! Laws of what a stop may leave over a run of calls, for the proofs above. Each is the contract of a function that does
//! nothing. `Leaves old new step` says that each image that could be left at a moment from `old` to `new` comes by the
//! step from an image that could be left at `old`. A caller picks the steps: it calls a law at the marker `Brand`, and says
//! in its proof what `Place` and `step` are.
ghost use Rattle.std.specs.Prelude.{ℕ};
ghost use Rattle.ids_outside.specs.Images.{Image, Range, SameBut, Torn};
ghost use Rattle.ids_outside.specs.Stops.{AreAmong, Elapses, Follows, Leaves};

use crate::Disk;
use std::marker::Brand;

/// Steps from one image to another, one for each place.
pub trait Steps {
    /// What a step is named by, as a region and a block.
    ghost Place: { Type 0 };

    /// The step.
    ghost step: { Place → Image → Image → Type 0 };
}

impl Steps for Brand {
    ghost Place = { Unit {0} };

    ghost step = { λ p x y. Unit {0} };
}

/// Bytes of an image that a run may change, some for each place.
pub trait Places {
    /// What the bytes are named by.
    ghost Place: { Type 0 };

    /// Whether this byte of this chunk is one of them.
    ghost changed: { Place → ℕ → ℕ → Type 0 };
}

impl Places for Brand {
    ghost Place = { Unit {0} };

    ghost changed = { λ p j i. Unit {0} };
}

/// Before its first call a run leaves what can be left, by each step that may leave it as it is.
pub fn started<D: Disk, S: Steps>()
    ensures { (p : S.Place) (old : D) → ((c : Image) → D.can_leave old c → S.step p c c)
        → Leaves D.now D.can_leave D.left_at old old (S.step p) }
{}

/// A run goes on by a call behind which each image comes by the same step from an image before the run.
pub fn goes_on<D: Disk, S: Steps>()
    ensures { (p : S.Place) (old mid new : D) → Leaves D.now D.can_leave D.left_at old mid (S.step p)
        → Elapses (D.now mid) (D.now new) (D.left_at mid) (D.left_at new) (D.can_leave new)
        → Follows (S.step p) (D.can_leave old) (D.can_leave new)
        → Leaves D.now D.can_leave D.left_at old new (S.step p) }
{}

/// A run that changes certain places goes on by a write within them.
pub fn torn<D: Disk, P: Places>()
    ensures { (p : P.Place) (old mid new : D) (chunk at n : ℕ) → Leaves D.now D.can_leave D.left_at old mid (SameBut (P.changed p))
        → Elapses (D.now mid) (D.now new) (D.left_at mid) (D.left_at new) (D.can_leave new)
        → Follows (Torn chunk at n) (D.can_leave mid) (D.can_leave new)
        → ((j i : ℕ) → Range chunk at n j i → P.changed p j i)
        → Leaves D.now D.can_leave D.left_at old new (SameBut (P.changed p)) }
{}

/// A run goes on by a read or a sync, which leave nothing that could not be left before.
pub fn stays<D: Disk, S: Steps>()
    ensures { (p : S.Place) (old mid new : D) → Leaves D.now D.can_leave D.left_at old mid (S.step p)
        → Elapses (D.now mid) (D.now new) (D.left_at mid) (D.left_at new) (D.can_leave new)
        → AreAmong (D.can_leave new) (D.can_leave mid)
        → Leaves D.now D.can_leave D.left_at old new (S.step p) }
{}

/// A run may be seen as one of another step, where each of its steps from what could be left is one.
pub fn seen_as<D: Disk, A: Steps, B: Steps>()
    ensures { (p : A.Place) (q : B.Place) (old new : D) → Leaves D.now D.can_leave D.left_at old new (A.step p)
        → ((d c : Image) → D.can_leave old d → A.step p d c → B.step q d c)
        → Leaves D.now D.can_leave D.left_at old new (B.step q) }
{}

/// Two runs, one after the other, are one run of a step that the first may be, and the first with the second.
pub fn then<D: Disk, A: Steps, B: Steps, C: Steps>()
    ensures { (p : A.Place) (q : B.Place) (r : C.Place) (old mid new : D)
        → Leaves D.now D.can_leave D.left_at old mid (A.step p) → Leaves D.now D.can_leave D.left_at mid new (B.step q)
        → ((d c : Image) → D.can_leave old d → A.step p d c → C.step r d c)
        → ((d e c : Image) → D.can_leave old d → A.step p d e → D.can_leave mid e → B.step q e c → C.step r d c)
        → Leaves D.now D.can_leave D.left_at old new (C.step r) }
{}
