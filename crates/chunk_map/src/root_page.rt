//! Pages of the root, each a gated block.
ghost use Rattle.std.specs.Prelude.{◌≡◌, ◌<◌, ◌≤◌, ℕ, IfOk, OnOk, Some, None, if◌then◌else◌};
ghost use Rattle.ids_outside.specs.Counts.{HasCause};
ghost use Rattle.ids_outside.specs.Images.{Image};
ghost use Rattle.ids_outside.specs.Stops.{AreAmong, Only, Leaves};
ghost use Rattle.gate_blocks.specs.Gates.{body};
ghost use Rattle.chunk_map.specs.Checkpoints.{root_page, root_block};
ghost use Rattle.chunk_map.specs.Rewrites.{Rewrites};

use gate_blocks::{Region, clear, open_gates, read_open, write_bodies};
use ids_outside::{Disk, DiskFault, laws};
use std::marker::Brand;

fn region(page: u32) -> Region
    ensures { result ≡ root_page page }
{
    Region {
        chunk: 0,
        first: page,
        count: 1,
    }
}

/// Reads a page of the root, and answers whether it is open. A page that is not there is closed.
pub fn read<D: Disk>(disk: &mut D, page: u32, into: &mut [u8; 2047]) -> Result<bool, DiskFault>
    ensures block { IfOk result (λ is_open. D.tells → root_block page (D.image disk.old) ≡ (if is_open then Some into.new else None)) }
    ensures same { D.image disk.new ≡ D.image disk.old }
    ensures stop { AreAmong (D.can_leave disk.new) (D.can_leave disk.old) }
    ensures any_moment { Leaves D.now D.can_leave D.left_at disk.old disk.new (λ x y. y ≡ x) }
    ensures sizes { (j : ℕ) → D.size disk.new j ≡ D.size disk.old j }
    ensures cause { HasCause (D.fault_count disk.old) (D.fault_count disk.new) result }
{
    laws::started::<D, Brand>();
    gate_blocks::laws::gates();
    if page < disk.pages(0) {
        read_open(disk, &region(page), 0, into)
    } else {
        Ok(false)
    }
}

/// Rewrites a page of the root: its gate is closed and synced, then its body is written and synced, and then its gate is
/// opened and synced. A stop at any moment leaves the page as it was, closed, or with its new body.
pub fn rewrite<D: Disk>(disk: &mut D, page: u32, new: &[u8; 2047]) -> Result<(), DiskFault>
    requires lies { page < D.size disk.old 0 }
    // If the page reads open, it is open whatever a stop leaves.
    requires stable { (x : Image) → D.can_leave disk.old x → root_block page x ≡ None → root_block page (D.image disk.old) ≡ None }

    ensures any_moment { Leaves D.now D.can_leave D.left_at disk.old disk.new (Rewrites page new.now) }
    ensures shown { D.tells → Rewrites page new.now (D.image disk.old) (D.image disk.new) }
    ensures written { OnOk result (D.tells → root_block page (D.image disk.new) ≡ Some new.now) }
    ensures durable { OnOk result (Only (D.image disk.new) (D.can_leave disk.new)) }
    ensures sizes { (j : ℕ) → D.size disk.new j ≡ D.size disk.old j }
    ensures cause { HasCause (D.fault_count disk.old) (D.fault_count disk.new) result }
{
    laws::then::<D, Brand, Brand, Brand>();
    gate_blocks::laws::elsewhere();
    gate_blocks::laws::changes();
    stage(disk, page, new)?;
    open_gates(disk, &region(page), 0, 1)
}

// Closes a page and writes its body, each synced.
fn stage<D: Disk>(disk: &mut D, page: u32, new: &[u8; 2047]) -> Result<(), DiskFault>
    requires lies { page < D.size disk.old 0 }
    requires stable { (x : Image) → D.can_leave disk.old x → root_block page x ≡ None → root_block page (D.image disk.old) ≡ None }

    ensures any_moment { Leaves D.now D.can_leave D.left_at disk.old disk.new (Rewrites page new.now) }
    ensures shown { D.tells → Rewrites page new.now (D.image disk.old) (D.image disk.new) }
    ensures closed { OnOk result (D.tells → root_block page (D.image disk.new) ≡ None) }
    ensures there { OnOk result (D.tells → body (root_page page) 0 (D.image disk.new) ≡ new.now) }
    ensures durable { OnOk result (Only (D.image disk.new) (D.can_leave disk.new)) }
    ensures sizes { (j : ℕ) → D.size disk.new j ≡ D.size disk.old j }
    ensures cause { HasCause (D.fault_count disk.old) (D.fault_count disk.new) result }
{
    laws::seen_as::<D, Brand, Brand>();
    laws::then::<D, Brand, Brand, Brand>();
    gate_blocks::laws::elsewhere();
    gate_blocks::laws::changes();
    let place = region(page);
    clear(disk, &place)?;
    write_bodies(disk, &place, 0, &[*new])
}
