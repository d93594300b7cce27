//! Reading the log: block by block, into a replay.
ghost use Rattle.std.specs.Prelude.{◌≡◌, ◌≤◌, ◌+◌, ◌<◌, ◌^◌, ℕ, Err, IfOk, IfErr};
ghost use Rattle.ids_outside.specs.Counts.{Rose};
ghost use Rattle.ids_outside.specs.Stops.{AreAmong, Leaves};
ghost use Rattle.fast_recovery.specs.PagedStates.{IsPagedState};
ghost use Rattle.fast_recovery.specs.LogRead.{HasRead, AreAlone, LogFault};

use crate::fault::OpenFault;
use crate::past::Past;
use ids_base::status::Place;
use ids_model::recovery_laws::runs_join;
use ids_outside::{Disk, laws};
use log_files::{BlockRead, LogFiles};
use std::alloc::Global;
use std::marker::Brand;

/// Reads the blocks from number 1 on up to the first that does not count, each once; their records are of the pages from 1 to
/// this many. A broken block is damage.
pub(crate) fn read_log<D: Disk>(
    alloc: Global,
    disk: &mut D,
    files: &LogFiles,
    pages: u32,
) -> Result<Past, OpenFault>
    requires lies { files.now.region.first + files.now.region.count ≤ D.size disk.old files.now.region.chunk }

    ensures read { IfOk result (λ p. D.tells → HasRead pages files.now.region (D.image disk.old) p) }
    ensures fault { IfErr result (λ e. D.tells → LogFault pages files.now.region (D.image disk.old) e) }
    // Also on a disk that does not tell its bytes.
    ensures alone { IfOk result (λ p. AreAlone p.open_tx p.replay.standing) }
    ensures paged { IfOk result (λ p. IsPagedState pages p.replay) }
    ensures from { IfOk result (λ p. 1 ≤ p.next) }
    ensures to { IfOk result (λ p. p.next ≤ 1 + files.now.region.count) }
    ensures same { D.image disk.new ≡ D.image disk.old }
    ensures stop { AreAmong (D.can_leave disk.new) (D.can_leave disk.old) }
    ensures any_moment { Leaves D.now D.can_leave D.left_at disk.old disk.new (λ x y. y ≡ x) }
    ensures sizes { (j : ℕ) → D.size disk.new j ≡ D.size disk.old j }
    ensures counted { D.fault_count disk.old ≤ D.fault_count disk.new }
    ensures cause { result ≡ Err OpenFault.Disk → Rose (D.fault_count disk.old) (D.fault_count disk.new) }
{
    laws::started::<D, Brand>();
    laws::then::<D, Brand, Brand, Brand>();
    runs_join();
    let last = u64::from(files.region().count);
    let mut past = Past::new(alloc);
    while past.next <= last {
        let found = files.read_from(disk, past.next)?;
        let body = match found {
            BlockRead::Body(body) => body,
            BlockRead::Absent => return Ok(past),
            BlockRead::Broken => return Err(OpenFault::Damaged(Place::Block(past.next))),
        };
        past.note_body(&body, pages)?;
    }
    Ok(past)
}
