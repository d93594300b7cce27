//! The identity page, by its bytes:
//!
//! | Bytes | Field |
//! |---|---|
//! | 0 to 4 | `IDSR` |
//! | 4 to 6 | format, 1 |
//! | 6 to 10, 10 to 14, 14 to 18 | `phys`, `logs`, `log_size` |
//! | 18 to 22, 22 to 26, 26 to 30 | `chunks`, `data_pages`, `root` |
//! | 30 to 2047 | zero |
//!
//! Numbers have the high byte first; byte 2047 is the gate.
ghost use Rattle.std.specs.Prelude.{◌≡◌, ◌≤◌, ◌↔◌, ℕ, take, codes, Err, None, IsTrue, IsNone, IfOk, IfErr, IfSome, OnOk};
ghost use Rattle.ids_outside.specs.Counts.{HasCause, Rose};
ghost use Rattle.ids_outside.specs.Images.{Image};
ghost use Rattle.ids_outside.specs.Stops.{AreAmong, Only, Leaves};
ghost use Rattle.chunk_map.specs.Layouts.{IsLayout, HasPages, identity_body};
ghost use Rattle.chunk_map.specs.Checkpoints.{root_block, NoCheckpoint};
ghost use Rattle.chunk_map.specs.Formatted.{IsFormatted, HasLayout, IdentityFault, NamesIdentity};
ghost use Rattle.chunk_map.specs.Rewrites.{Rewrites};
ghost use Rattle.chunk_map.specs.declared.layout.Layout.{Layout};

use crate::bytes::{put, u32_at};
use crate::{Layout, MapFault, root_page};
use ids_base::status::Place;
use ids_outside::{Disk, DiskFault, laws};
use std::marker::Brand;

const MARK: [u8; 4] = *b"IDSR";

const FORMAT: u16 = 1;

/// The layout that a disk's identity page says. Reads the identity and both checkpoint pages.
pub fn read_identity<D: Disk>(disk: &mut D) -> Result<Layout, MapFault>
    ensures layout { IfOk result (λ l. D.tells → IsFormatted (D.image disk.old) × HasLayout l (D.image disk.old)) }
    ensures fault { IfErr result (λ e. D.tells → IdentityFault (D.image disk.old) e) }
    // Also on a disk that does not tell its bytes.
    ensures in_range { IfOk result IsLayout }
    ensures lies { IfOk result (λ l. HasPages (D.size disk.old) l) }
    ensures place { IfErr result NamesIdentity }
    ensures same { D.image disk.new ≡ D.image disk.old }
    ensures stop { AreAmong (D.can_leave disk.new) (D.can_leave disk.old) }
    ensures any_moment { Leaves D.now D.can_leave D.left_at disk.old disk.new (λ x y. y ≡ x) }
    ensures sizes { (j : ℕ) → D.size disk.new j ≡ D.size disk.old j }
    ensures counted { D.fault_count disk.old ≤ D.fault_count disk.new }
    ensures cause { result ≡ Err MapFault.Disk → Rose (D.fault_count disk.old) (D.fault_count disk.new) }
{
    laws::then::<D, Brand, Brand, Brand>();
    let mut body = [0; 2047];
    let is_open = root_page::read(disk, 0, &mut body)?;
    let has_checkpoint = has_checkpoint(disk)?;
    if !is_open || !has_mark(&body) || !has_checkpoint {
        return Err(MapFault::NotFormatted);
    }
    let Some(layout) = layout_of(&body) else {
        return Err(MapFault::Damaged(Place::Identity));
    };
    if has_pages(disk, &layout) {
        Ok(layout)
    } else {
        Err(MapFault::Damaged(Place::Identity))
    }
}

/// Writes the identity page of a layout: its gate is closed first, and opened behind the body. A stop at any moment leaves
/// the page as it was, closed, or with this layout.
pub fn write_identity<D: Disk>(disk: &mut D, layout: &Layout) -> Result<(), DiskFault>
    requires ranges { IsLayout layout.now }
    requires lies { HasPages (D.size disk.old) layout.now }
    // If the page reads open, it is open whatever a stop leaves.
    requires stable { (x : Image) → D.can_leave disk.old x → root_block 0 x ≡ None → root_block 0 (D.image disk.old) ≡ None }

    ensures any_moment { Leaves D.now D.can_leave D.left_at disk.old disk.new (Rewrites 0 (identity_body layout.now)) }
    ensures shown { D.tells → Rewrites 0 (identity_body layout.now) (D.image disk.old) (D.image disk.new) }
    ensures written { OnOk result (D.tells → HasLayout layout.now (D.image disk.new)) }
    ensures durable { OnOk result (Only (D.image disk.new) (D.can_leave disk.new)) }
    ensures sizes { (j : ℕ) → D.size disk.new j ≡ D.size disk.old j }
    ensures cause { HasCause (D.fault_count disk.old) (D.fault_count disk.new) result }
{
    root_page::rewrite(disk, 0, &identity_bytes(layout))
}

// Whether a checkpoint page is open.
fn has_checkpoint<D: Disk>(disk: &mut D) -> Result<bool, DiskFault>
    ensures found { IfOk result (λ b. D.tells → (IsTrue b ↔ ¬ NoCheckpoint (D.image disk.old))) }
    ensures same { D.image disk.new ≡ D.image disk.old }
    ensures stop { AreAmong (D.can_leave disk.new) (D.can_leave disk.old) }
    ensures any_moment { Leaves D.now D.can_leave D.left_at disk.old disk.new (λ x y. y ≡ x) }
    ensures sizes { (j : ℕ) → D.size disk.new j ≡ D.size disk.old j }
    ensures cause { HasCause (D.fault_count disk.old) (D.fault_count disk.new) result }
{
    laws::then::<D, Brand, Brand, Brand>();
    let mut body = [0; 2047];
    let first = root_page::read(disk, 1, &mut body)?;
    let second = root_page::read(disk, 2, &mut body)?;
    Ok(first || second)
}

// The bytes of a layout's identity page.
fn identity_bytes(layout: &Layout) -> [u8; 2047]
    ensures { result ≡ identity_body layout.now }
{
    let mut body = [0; 2047];
    put(&mut body, 0, &MARK);
    put(&mut body, 4, &FORMAT.to_be_bytes());
    put(&mut body, 6, &layout.phys.to_be_bytes());
    put(&mut body, 10, &layout.logs.to_be_bytes());
    put(&mut body, 14, &layout.log_size.to_be_bytes());
    put(&mut body, 18, &layout.chunks.to_be_bytes());
    put(&mut body, 22, &layout.data_pages.to_be_bytes());
    put(&mut body, 26, &layout.root.to_be_bytes());
    body
}

// The layout that a body says, if it says one in its ranges. Each byte counts.
fn layout_of(body: &[u8; 2047]) -> Option<Layout>
    ensures some { IfSome result (λ l. IsLayout l × (body.now ≡ identity_body l)) }
    ensures none { IsNone result → (l : Layout) → IsLayout l → ¬ (body.now ≡ identity_body l) }
{
    let layout = Layout {
        phys: u32_at(body, 6),
        logs: u32_at(body, 10),
        log_size: u32_at(body, 14),
        chunks: u32_at(body, 18),
        data_pages: u32_at(body, 22),
        root: u32_at(body, 26),
    };
    if layout.is_in_range() && identity_bytes(&layout) == *body {
        Some(layout)
    } else {
        None
    }
}

// Whether a body begins as an identity page does.
fn has_mark(body: &[u8; 2047]) -> bool
    ensures { IsTrue result ↔ (take 4 body.now ≡ codes "IDSR") }
{
    body[0..4] == MARK[0..4]
}

/// Whether a disk's chunks have the pages that a layout names.
pub fn has_pages<D: Disk>(disk: &D, layout: &Layout) -> bool
    requires { IsLayout layout.now }
    ensures { IsTrue result ↔ HasPages (D.size disk.now) layout.now }
{
    if disk.pages(0) < layout.root {
        return false;
    }
    for chunk in 1..=layout.chunks {
        if disk.pages(chunk) < layout.data_pages {
            return false;
        }
    }
    true
}
