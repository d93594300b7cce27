//! Laws of the map's pages, for the proofs above. Each is the contract of a function that does nothing.
ghost use Rattle.std.specs.Prelude.{◌≡◌, ◌<◌, ◌-◌, ℕ};
ghost use Rattle.ids_outside.specs.Images.{Image, SameBut};
ghost use Rattle.gate_blocks.specs.Gates.{RegionPlaces, Apart};
ghost use Rattle.gate_blocks.specs.declared.region.Region.{Region};
ghost use Rattle.chunk_map.specs.Checkpoints.{root_page, IsPage, IsNewest, NoCheckpoint, page_of};
ghost use Rattle.chunk_map.specs.Formatted.{HasLayout};
ghost use Rattle.chunk_map.specs.Rewrites.{SamePages};
ghost use Rattle.chunk_map.specs.declared.checkpoint.CheckpointPage.{CheckpointPage};
ghost use Rattle.chunk_map.specs.declared.layout.Layout.{Layout};

/// An image has one layout, one checkpoint on a page, and one newest checkpoint.
pub fn one_of_each()
    ensures layout { (l m : Layout) (x : Image) → HasLayout l x → HasLayout m x → l ≡ m }
    ensures page { (c : ℕ) (p q : CheckpointPage) (x : Image) → IsPage c p x → IsPage c q x → p ≡ q }
    ensures newest { (p q : CheckpointPage) (x : Image) → IsNewest p x → IsNewest q x → p ≡ q }
{}

/// Where the two pages are the same, the newest checkpoint is; and a change in a region apart from them leaves them the same.
pub fn same_pages()
    ensures newest { (p : CheckpointPage) (x y : Image) → SamePages x y → IsNewest p x → IsNewest p y }
    ensures none { (x y : Image) → SamePages x y → NoCheckpoint x → NoCheckpoint y }
    ensures apart { (r : Region) (x y : Image) → Apart r (root_page 1) → Apart r (root_page 2) → SameBut (RegionPlaces r) x y → SamePages x y }
{
    gate_blocks::laws::apart();
}
