//! Laws of regions and blocks, for the proofs above. Each is the contract of a function that does nothing.
ghost use Rattle.std.specs.Prelude.{◌≡◌, ◌<◌, ◌≤◌, ◌+◌, ℕ, length, Some, None};
ghost use Rattle.ids_outside.specs.Images.{Image, SameBut};
ghost use Rattle.gate_blocks.specs.Gates.{gate, body, block, Within, Staged, Opening, Closing, RegionPlaces, Apart, Inside};
ghost use Rattle.gate_blocks.specs.declared.region.Region.{Region};

/// A change in one region leaves each block of a region apart from it.
pub fn apart()
    ensures blocks { (r s : Region) (x y : Image) → Apart r s → SameBut (RegionPlaces r) x y → (k : ℕ) → k < s.count → block s k y ≡ block s k x }
    ensures bodies { (r s : Region) (x y : Image) → Apart r s → SameBut (RegionPlaces r) x y → (k : ℕ) → k < s.count → body s k y ≡ body s k x }
    ensures turned { (r s : Region) → Apart r s → Apart s r }
    ensures inside { (r s t : Region) → Inside r s → Apart s t → Apart r t }
{}

/// What the writing calls leave is a change in the region alone.
pub fn elsewhere()
    ensures staged { (r : Region) (at n : ℕ) (x y : Image) → at + n ≤ r.count → Staged r at n x y → SameBut (RegionPlaces r) x y }
    ensures opening { (r : Region) (at n : ℕ) (x y : Image) → at + n ≤ r.count → Opening r at n x y → SameBut (RegionPlaces r) x y }
    ensures closing { (r : Region) (at n : ℕ) (x y : Image) → at + n ≤ r.count → Closing r at n x y → SameBut (RegionPlaces r) x y }
{}

/// Changes in a region: none, one after another, and one in a region inside it.
pub fn changes()
    ensures none { (r : Region) (x : Image) → SameBut (RegionPlaces r) x x }
    ensures both { (r : Region) (x y z : Image) → SameBut (RegionPlaces r) x y → SameBut (RegionPlaces r) y z → SameBut (RegionPlaces r) x z }
    ensures inside { (r s : Region) (x y : Image) → Inside r s → SameBut (RegionPlaces r) x y → SameBut (RegionPlaces s) x y }
{}

/// A block counts where its gate is 0xA5, and its body has 2047 bytes.
pub fn gates()
    ensures open { (r : Region) (k : ℕ) (x : Image) → gate r k x ≡ 165 → block r k x ≡ Some (body r k x) }
    ensures closed { (r : Region) (k : ℕ) (x : Image) → ¬ (gate r k x ≡ 165) → block r k x ≡ None }
    ensures whole { (r : Region) (k : ℕ) (x : Image) → length (body r k x) ≡ 2047 }
{}

/// A page stands for the same as a block of each region that it lies in.
pub fn pages()
    ensures blocks { (r s : Region) (k m : ℕ) (x : Image) → r.chunk ≡ s.chunk → r.first + k ≡ s.first + m → block r k x ≡ block s m x }
    ensures bodies { (r s : Region) (k m : ℕ) (x : Image) → r.chunk ≡ s.chunk → r.first + k ≡ s.first + m → body r k x ≡ body s m x }
{}

/// Bodies change by `write_bodies` alone, and there only those that are written.
pub fn bodies()
    ensures staged { (r : Region) (at n : ℕ) (x y : Image) → Staged r at n x y → (k : ℕ) → ¬ Within at n k → body r k y ≡ body r k x }
    ensures opening { (r : Region) (at n : ℕ) (x y : Image) → Opening r at n x y → (k : ℕ) → body r k y ≡ body r k x }
    ensures closing { (r : Region) (at n : ℕ) (x y : Image) → Closing r at n x y → (k : ℕ) → body r k y ≡ body r k x }
{}
