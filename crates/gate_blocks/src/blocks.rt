//! Blocks are written, opened, read and closed. The order that keeps a stop from showing half a body: a body is written and
//! synced behind a closed gate, and then the gate is opened by a write of its own and synced. A gate is closed only where
//! it is open, since a stop may leave any byte where one was written.
ghost use Rattle.std.specs.Prelude.{◌≡◌, ◌<◌, ◌≤◌, ◌+◌, ◌*◌, ℕ, length, IfOk, OnOk, Some, None, if◌then◌else◌};
ghost use Rattle.ids_outside.specs.Counts.{HasCause};
ghost use Rattle.ids_outside.specs.Images.{Image, SameBut};
ghost use Rattle.ids_outside.specs.Stops.{AreAmong, Only, Leaves};
ghost use Rattle.gate_blocks.specs.Gates.{block, body, gate, shut, Within, Staged, Opening, Closing, HasBodies, OpenGate};

use crate::Region;
use ids_base::numbers::PAGE_BYTES;
use ids_outside::{Disk, DiskFault, laws};
use std::marker::Brand;

/// The bytes of a page, of which a block takes one.
const PAGE: u64 = PAGE_BYTES as u64;

/// Where the gate of a block stands in its page, behind the body.
const GATE: u64 = PAGE - 1;

/// An open gate; any other byte is a closed one.
const OPEN: u8 = 0xA5;

/// Writes bodies behind closed gates, from block `at` on, and syncs. A stop at any moment leaves each block standing for
/// what it stood for. A write for each body.
pub fn write_bodies<D: Disk>(
    disk: &mut D,
    region: &Region,
    at: u32,
    bodies: &[[u8; 2047]],
) -> Result<(), DiskFault>
    requires fits { at + length bodies.now ≤ region.now.count }
    requires lies { region.now.first + region.now.count ≤ D.size disk.old region.now.chunk }
    // The gates are closed, whatever a stop leaves.
    requires closed { (x : Image) → D.can_leave disk.old x → (k : ℕ) → Within at (length bodies.now) k → block region.now k x ≡ None }

    ensures any_moment { Leaves D.now D.can_leave D.left_at disk.old disk.new (Staged region.now at (length bodies.now)) }
    ensures shown { D.tells → Staged region.now at (length bodies.now) (D.image disk.old) (D.image disk.new) }
    ensures bodies { OnOk result (D.tells → HasBodies region.now at bodies.now (D.image disk.new)) }
    ensures durable { OnOk result (Only (D.image disk.new) (D.can_leave disk.new)) }
    ensures sizes { (j : ℕ) → D.size disk.new j ≡ D.size disk.old j }
    ensures cause { HasCause (D.fault_count disk.old) (D.fault_count disk.new) result }
{
    laws::started::<D, Brand>();
    laws::torn::<D, Brand>();
    laws::stays::<D, Brand>();
    laws::seen_as::<D, Brand, Brand>();
    for (i, body) in bodies.iter().enumerate() {
        let page = region.first as u64 + at as u64 + i as u64;
        disk.write_at(region.chunk, PAGE * page, body)?;
    }
    disk.sync()
}

/// Opens `count` gates from block `at` on, and syncs. A stop at any moment leaves each of these blocks closed, or open with
/// the body that stands there. A write for each gate.
pub fn open_gates<D: Disk>(
    disk: &mut D,
    region: &Region,
    at: u32,
    count: u32,
) -> Result<(), DiskFault>
    requires fits { at + count ≤ region.now.count }
    requires lies { region.now.first + region.now.count ≤ D.size disk.old region.now.chunk }
    // A stop leaves the bodies that a read gives.
    requires stable { (x : Image) → D.can_leave disk.old x → (k : ℕ) → Within at count k → body region.now k x ≡ body region.now k (D.image disk.old) }

    ensures any_moment { Leaves D.now D.can_leave D.left_at disk.old disk.new (Opening region.now at count) }
    ensures shown { Opening region.now at count (D.image disk.old) (D.image disk.new) }
    ensures opened { OnOk result (D.tells → (k : ℕ) → Within at count k → block region.now k (D.image disk.new) ≡ Some (body region.now k (D.image disk.old))) }
    ensures durable { OnOk result (Only (D.image disk.new) (D.can_leave disk.new)) }
    ensures sizes { (j : ℕ) → D.size disk.new j ≡ D.size disk.old j }
    ensures cause { HasCause (D.fault_count disk.old) (D.fault_count disk.new) result }
{
    laws::started::<D, Brand>();
    laws::torn::<D, Brand>();
    laws::stays::<D, Brand>();
    laws::seen_as::<D, Brand, Brand>();
    for k in 0..count {
        let page = region.first as u64 + at as u64 + k as u64;
        disk.write_at(region.chunk, PAGE * page + GATE, &[OPEN])?;
    }
    disk.sync()
}

/// Closes the gates of a region that are open, each by a zero byte, and syncs. A read for each block.
pub fn clear<D: Disk>(disk: &mut D, region: &Region) -> Result<(), DiskFault>
    requires lies { region.now.first + region.now.count ≤ D.size disk.old region.now.chunk }
    // A gate that reads open is open whatever a stop leaves.
    requires stable { (x : Image) → D.can_leave disk.old x → (k : ℕ) → k < region.now.count → block region.now k x ≡ None → block region.now k (D.image disk.old) ≡ None }

    ensures any_moment { Leaves D.now D.can_leave D.left_at disk.old disk.new (Closing region.now 0 region.now.count) }
    ensures shown { D.tells → Closing region.now 0 region.now.count (D.image disk.old) (D.image disk.new) }
    ensures closed { OnOk result (D.tells → (k : ℕ) → k < region.now.count → block region.now k (D.image disk.new) ≡ None) }
    ensures zeroed { OnOk result (D.tells → (k : ℕ) → k < region.now.count → gate region.now k (D.image disk.new) ≡ shut (gate region.now k (D.image disk.old))) }
    ensures durable { OnOk result (Only (D.image disk.new) (D.can_leave disk.new)) }
    ensures sizes { (j : ℕ) → D.size disk.new j ≡ D.size disk.old j }
    ensures cause { HasCause (D.fault_count disk.old) (D.fault_count disk.new) result }
{
    clear_some(disk, region, 0, region.count)
}

/// Closes those of `count` gates from block `at` on that are open, each by a zero byte, and syncs. A stop at any moment leaves
/// each of these blocks closed or as it was. A read for each block, and a write for each open gate.
pub fn clear_some<D: Disk>(
    disk: &mut D,
    region: &Region,
    at: u32,
    count: u32,
) -> Result<(), DiskFault>
    requires fits { at + count ≤ region.now.count }
    requires lies { region.now.first + region.now.count ≤ D.size disk.old region.now.chunk }
    // A gate that reads open is open whatever a stop leaves.
    requires stable { (x : Image) → D.can_leave disk.old x → (k : ℕ) → Within at count k → block region.now k x ≡ None → block region.now k (D.image disk.old) ≡ None }

    ensures any_moment { Leaves D.now D.can_leave D.left_at disk.old disk.new (Closing region.now at count) }
    ensures shown { D.tells → Closing region.now at count (D.image disk.old) (D.image disk.new) }
    ensures closed { OnOk result (D.tells → (k : ℕ) → Within at count k → block region.now k (D.image disk.new) ≡ None) }
    ensures zeroed { OnOk result (D.tells → (k : ℕ) → Within at count k → gate region.now k (D.image disk.new) ≡ shut (gate region.now k (D.image disk.old))) }
    ensures durable { OnOk result (Only (D.image disk.new) (D.can_leave disk.new)) }
    ensures sizes { (j : ℕ) → D.size disk.new j ≡ D.size disk.old j }
    ensures cause { HasCause (D.fault_count disk.old) (D.fault_count disk.new) result }
{
    laws::started::<D, Brand>();
    laws::stays::<D, Brand>();
    laws::then::<D, Brand, Brand, Brand>();
    laws::seen_as::<D, Brand, Brand>();
    for k in 0..count {
        close_gate(disk, region, at + k)?;
    }
    disk.sync()
}

/// Reads a block into `into`, and answers whether it is open. The body is read of a closed block too.
pub fn read_open<D: Disk>(
    disk: &mut D,
    region: &Region,
    at: u32,
    into: &mut [u8; 2047],
) -> Result<bool, DiskFault>
    requires fits { at < region.now.count }
    requires lies { region.now.first + region.now.count ≤ D.size disk.old region.now.chunk }

    ensures block { IfOk result (λ is_open. D.tells → block region.now at (D.image disk.old) ≡ (if is_open then Some into.new else None)) }
    ensures body { OnOk result (D.tells → into.new ≡ body region.now at (D.image disk.old)) }
    ensures same { D.image disk.new ≡ D.image disk.old }
    ensures stop { AreAmong (D.can_leave disk.new) (D.can_leave disk.old) }
    ensures any_moment { Leaves D.now D.can_leave D.left_at disk.old disk.new (λ x y. y ≡ x) }
    ensures sizes { (j : ℕ) → D.size disk.new j ≡ D.size disk.old j }
    ensures cause { HasCause (D.fault_count disk.old) (D.fault_count disk.new) result }
{
    laws::started::<D, Brand>();
    laws::stays::<D, Brand>();
    let page = region.first as u64 + at as u64;
    disk.read(region.chunk, PAGE * page, into)?;
    let mut gate = [0];
    disk.read(region.chunk, PAGE * page + GATE, &mut gate)?;
    Ok(gate[0] == OPEN)
}

// Closes a gate where it is open.
fn close_gate<D: Disk>(disk: &mut D, region: &Region, at: u32) -> Result<(), DiskFault>
    requires fits { at < region.now.count }
    requires lies { region.now.first + region.now.count ≤ D.size disk.old region.now.chunk }

    ensures any_moment { Leaves D.now D.can_leave D.left_at disk.old disk.new (SameBut (OpenGate region.now at (D.image disk.old))) }
    ensures shown { D.tells → SameBut (OpenGate region.now at (D.image disk.old)) (D.image disk.old) (D.image disk.new) }
    ensures closed { OnOk result (D.tells → ¬ (gate region.now at (D.image disk.new) ≡ 165)) }
    ensures zeroed { OnOk result (D.tells → gate region.now at (D.image disk.new) ≡ shut (gate region.now at (D.image disk.old))) }
    ensures sizes { (j : ℕ) → D.size disk.new j ≡ D.size disk.old j }
    ensures cause { HasCause (D.fault_count disk.old) (D.fault_count disk.new) result }
{
    laws::started::<D, Brand>();
    laws::stays::<D, Brand>();
    laws::goes_on::<D, Brand>();
    let offset = PAGE * (region.first as u64 + at as u64) + GATE;
    let mut gate = [0];
    disk.read(region.chunk, offset, &mut gate)?;
    if gate[0] != OPEN {
        return Ok(());
    }
    disk.write_at(region.chunk, offset, &[0])
}
