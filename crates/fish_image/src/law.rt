//! Laws of images. The functions do nothing; their contracts are the laws.

ghost use Rattle.std.specs.Prelude.{◌≡◌, ◌≢◌, ◌*◌, ◌^◌, ◌<◌, ℕ, List, length, slice_index};
ghost use Rattle.fish_catalog.specs.declared.commit.Checked.{Checked};
ghost use Rattle.fish_catalog.specs.declared.commit.Commit.{Commit};
ghost use Rattle.fish_catalog.specs.declared.entry.Entry.{Entry};
ghost use Rattle.fish_image.specs.Checking.{HasChecked};
ghost use Rattle.fish_image.specs.Log.{Agrees, IsDamaged, StandsFor};
ghost use Rattle.fish_image.specs.Newest.{IsAmong, IsNewestPlace};
ghost use Rattle.fish_image.specs.Reached.{Reached, head_of};

/// Words that were checked stand for a log, and for one alone.
pub fn checked_is_one_log()
    ensures some { (c : Commit) (w : List ℕ) (checked : Checked) → HasChecked c w checked
        → (log : List Entry) × StandsFor c w log }
    ensures one { (c : Commit) (w : List ℕ) (log other : List Entry) → StandsFor c w log → StandsFor c w other
        → log ≡ other }
{}

/// Words that are damaged stand for no log.
pub fn damaged_is_no_log()
    ensures { (c : Commit) (w : List ℕ) (k : ℕ) (log : List Entry) → IsDamaged c w k → StandsFor c w log → ⊥ }
{}

/// Which log words stand for doesn't depend on the format of the slot that tells the commit.
pub fn log_is_of_any_format()
    ensures { (c : Commit) (format : ℕ) (w : List ℕ) (log : List Entry) → StandsFor c w log
        → StandsFor (record c { format = format }) w log }
{}

/// They are damaged after one number of entries alone.
pub fn damage_is_one()
    ensures { (c : Commit) (w : List ℕ) (k n : ℕ) → IsDamaged c w k → IsDamaged c w n → k ≡ n }
{}

/// The head of a bucket is its newest key entry: the greatest place of one that was read. All of them lie
/// below what comes next.
pub fn heads_are_newest()
    ensures newest { (c : Commit) (w : List ℕ) (k : ℕ) (s : Reached) → Agrees c w k s
        → (b : ℕ) → IsNewestPlace s.places b (head_of s.places b) }
    ensures lower { (c : Commit) (w : List ℕ) (k : ℕ) (s : Reached) → Agrees c w k s
        → (b p : ℕ) → IsAmong s.places b p → p < 4 * s.line }
{}

/// The heads that are answered are as many as there are buckets, and each is 0 or lies within the lines.
pub fn checked_heads_are_older()
    ensures size { (c : Commit) (w : List ℕ) (checked : Checked) → HasChecked c w checked
        → length checked.heads ≡ 2 ^ c.bucket_bits }
    ensures older { (c : Commit) (w : List ℕ) (checked : Checked) → HasChecked c w checked
        → (b : ℕ) → slice_index checked.heads b ≢ 0 → slice_index checked.heads b < 4 * c.lines }
{}
