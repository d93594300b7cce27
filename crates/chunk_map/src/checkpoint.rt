//! The checkpoint pages, by their bytes:
//!
//! | Bytes | Field |
//! |---|---|
//! | 0 to 8 | number, at least 1 |
//! | 8 | 0 quiet, 1 with a checkpoint record |
//! | 9 to 17 | block of the start, at least 1 |
//! | 17 to 19 | index of the start; 0 where quiet |
//! | 19 to 2047 | zero |
//!
//! Number n stands on page 1 of the root where n is odd, on page 2 where n is even. The open page with the greater number is
//! the newest.
ghost use Rattle.std.specs.Prelude.{◌≡◌, ◌≤◌, ◌↔◌, ℕ, Err, IsTrue, IsNone, IfOk, IfErr, IfSome, OnOk};
ghost use Rattle.ids_outside.specs.Counts.{HasCause, Rose};
ghost use Rattle.ids_outside.specs.Images.{Image};
ghost use Rattle.ids_outside.specs.Stops.{AreAmong, Only, Leaves};
ghost use Rattle.chunk_map.specs.Layouts.{IsLayout, HasPages};
ghost use Rattle.chunk_map.specs.Checkpoints.{IsCheckpoint, FitsPage, IsNewest, IsNext, page_of, checkpoint_body};
ghost use Rattle.chunk_map.specs.Found.{StandsOn, MayStandOn};
ghost use Rattle.chunk_map.specs.Formatted.{NewestFault, NamesPages};
ghost use Rattle.chunk_map.specs.Rewrites.{SamePages, Renews};

use crate::bytes::{put, u16_at, u64_at};
use crate::{Layout, MapFault, root_page};
use ids_base::position::LogPos;
use ids_base::status::Place;
use ids_outside::{Disk, DiskFault, laws};
use std::marker::Brand;

/// What a checkpoint page says.
#[derive(Clone, Copy, Debug, Drop, PartialEq, Eq)]
pub struct CheckpointPage {
    /// Its number, from 1.
    pub number: u64,
    /// No transaction is open, and the log's tail begins with record 0 of the start block. Otherwise the start is a
    /// checkpoint record, and the tail begins behind it.
    pub quiet: bool,
    /// Where the start stands.
    pub start: LogPos,
}

impl CheckpointPage {
    ghost use Rattle.chunk_map.specs.declared.checkpoint.CheckpointPage.{CheckpointPage};

    // Whether the numbers are in their ranges.
    fn is_in_range(&self) -> bool
        ensures { IsTrue result ↔ IsCheckpoint self.now }
    {
        let (number, block, index) = (self.number, self.start.block, self.start.index);
        number >= 1 && block >= 1 && (!self.quiet || index == 0)
    }

    // The bytes of its page.
    fn bytes(&self) -> [u8; 2047]
        ensures body { result ≡ checkpoint_body self.now }
        ensures fits { FitsPage self.now }
    {
        let (number, block, index) = (self.number, self.start.block, self.start.index);
        let mut body = [0; 2047];
        put(&mut body, 0, &number.to_be_bytes());
        let kind = if self.quiet { 0 } else { 1 };
        put(&mut body, 8, &[kind]);
        put(&mut body, 9, &block.to_be_bytes());
        put(&mut body, 17, &index.to_be_bytes());
        body
    }

    // The checkpoint that a body says, if it says one in its ranges. Each byte counts.
    fn of(body: &[u8; 2047]) -> Option<CheckpointPage>
        ensures some { IfSome result (λ p. IsCheckpoint p × (body.now ≡ checkpoint_body p)) }
        ensures none { IsNone result → (p : CheckpointPage) → IsCheckpoint p → ¬ (body.now ≡ checkpoint_body p) }
    {
        let page = CheckpointPage {
            number: u64_at(body, 0),
            quiet: body[8] == 0,
            start: LogPos {
                block: u64_at(body, 9),
                index: u16_at(body, 17),
            },
        };
        if page.is_in_range() && page.bytes() == *body {
            Some(page)
        } else {
            None
        }
    }
}

// What stands on a checkpoint page.
#[derive(Clone, Copy, Drop)]
enum Found {
    Closed,
    Damaged,
    Page(CheckpointPage),
}

/// The newest checkpoint page, of the two that the root has. Reads both.
pub fn newest<D: Disk>(disk: &mut D, layout: &Layout) -> Result<CheckpointPage, MapFault>
    requires ranges { IsLayout layout.now }
    requires lies { HasPages (D.size disk.old) layout.now }

    ensures newest { IfOk result (λ p. D.tells → IsNewest p (D.image disk.old)) }
    ensures fault { IfErr result (λ e. D.tells → NewestFault (D.image disk.old) e) }
    // Also on a disk that does not tell its bytes.
    ensures in_range { IfOk result IsCheckpoint }
    ensures place { IfErr result NamesPages }
    ensures same { D.image disk.new ≡ D.image disk.old }
    ensures stop { AreAmong (D.can_leave disk.new) (D.can_leave disk.old) }
    ensures any_moment { Leaves D.now D.can_leave D.left_at disk.old disk.new (λ x y. y ≡ x) }
    ensures sizes { (j : ℕ) → D.size disk.new j ≡ D.size disk.old j }
    ensures counted { D.fault_count disk.old ≤ D.fault_count disk.new }
    ensures cause { result ≡ Err MapFault.Disk → Rose (D.fault_count disk.old) (D.fault_count disk.new) }
{
    laws::then::<D, Brand, Brand, Brand>();
    let first = look_at(disk, 1)?;
    let second = look_at(disk, 2)?;
    newer(first, second)
}

/// Writes the checkpoint page that comes next, over the older of the two: its gate is closed first, and opened behind the
/// body. A stop at any moment leaves the old newest page or this one, and the other page as it was.
pub fn write_next<D: Disk>(
    disk: &mut D,
    layout: &Layout,
    page: &CheckpointPage,
) -> Result<(), DiskFault>
    requires ranges { IsLayout layout.now }
    requires lies { HasPages (D.size disk.old) layout.now }
    requires block { 1 ≤ page.now.start.block }
    requires index { IsTrue page.now.quiet → page.now.start.index ≡ 0 }
    // The two pages are the same whatever a stop leaves.
    requires stable { (x : Image) → D.can_leave disk.old x → SamePages (D.image disk.old) x }
    requires next { D.tells → IsNext page.now.number (D.image disk.old) }

    ensures any_moment { Leaves D.now D.can_leave D.left_at disk.old disk.new (Renews page.now) }
    ensures shown { D.tells → Renews page.now (D.image disk.old) (D.image disk.new) }
    ensures newest { OnOk result (D.tells → IsNewest page.now (D.image disk.new)) }
    ensures durable { OnOk result (Only (D.image disk.new) (D.can_leave disk.new)) }
    ensures sizes { (j : ℕ) → D.size disk.new j ≡ D.size disk.old j }
    ensures cause { HasCause (D.fault_count disk.old) (D.fault_count disk.new) result }
{
    laws::seen_as::<D, Brand, Brand>();
    gate_blocks::laws::apart();
    let body = page.bytes();
    root_page::rewrite(disk, page_of(page.number), &body)
}

// What stands on page 1 or 2.
fn look_at<D: Disk>(disk: &mut D, page: u32) -> Result<Found, DiskFault>
    ensures found { IfOk result (λ f. D.tells → StandsOn page f (D.image disk.old)) }
    ensures in_range { IfOk result (λ f. MayStandOn page f) }
    ensures same { D.image disk.new ≡ D.image disk.old }
    ensures stop { AreAmong (D.can_leave disk.new) (D.can_leave disk.old) }
    ensures any_moment { Leaves D.now D.can_leave D.left_at disk.old disk.new (λ x y. y ≡ x) }
    ensures sizes { (j : ℕ) → D.size disk.new j ≡ D.size disk.old j }
    ensures cause { HasCause (D.fault_count disk.old) (D.fault_count disk.new) result }
{
    let mut body = [0; 2047];
    if !root_page::read(disk, page, &mut body)? {
        return Ok(Found::Closed);
    }
    let Some(found) = CheckpointPage::of(&body) else {
        return Ok(Found::Damaged);
    };
    if page_of(found.number) == page {
        Ok(Found::Page(found))
    } else {
        Ok(Found::Damaged)
    }
}

// Where a number stands.
fn page_of(number: u64) -> u32
    ensures { result ≡ page_of number }
{
    if number % 2 == 1 { 1 } else { 2 }
}

// The newer of what stands on pages 1 and 2.
fn newer(first: Found, second: Found) -> Result<CheckpointPage, MapFault>
    requires first { MayStandOn 1 first }
    requires second { MayStandOn 2 second }
    ensures newest { IfOk result (λ p. (x : Image) → StandsOn 1 first x → StandsOn 2 second x → IsNewest p x) }
    ensures fault { IfErr result (λ e. (x : Image) → StandsOn 1 first x → StandsOn 2 second x → NewestFault x e) }
    ensures in_range { IfOk result IsCheckpoint }
    ensures place { IfErr result NamesPages }
    ensures other { ¬ (result ≡ Err MapFault.Disk) }
{
    match first {
        Found::Damaged => Err(MapFault::Damaged(Place::Checkpoint(1))),
        Found::Closed => match second {
            Found::Damaged => Err(MapFault::Damaged(Place::Checkpoint(2))),
            Found::Closed => Err(MapFault::NotFormatted),
            Found::Page(two) => Ok(two),
        },
        Found::Page(one) => match second {
            Found::Damaged => Err(MapFault::Damaged(Place::Checkpoint(2))),
            Found::Closed => Ok(one),
            Found::Page(two) => {
                if one.number < two.number {
                    Ok(two)
                } else {
                    Ok(one)
                }
            }
        },
    }
}
