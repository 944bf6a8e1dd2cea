//! What an image stands for, and why it isn't opened. The functions do nothing; their contracts are the laws.

ghost use Rattle.std.specs.Prelude.{◌≡◌, ℕ, List, []};
ghost use Rattle.fish_catalog.specs.declared.commit.Commit.{Commit};
ghost use Rattle.fish_catalog.specs.declared.entry.Entry.{Entry};
ghost use Rattle.fish_image.specs.Stands.{Stands};
ghost use Rattle.fish_recover.specs.Opening.{IsImageFound, IsOfStore, IsOpenCause, IsOtherShape};
ghost use Rattle.fish_recover.specs.Stores.{IsStoreCause};
ghost use Rattle.fish_recover.specs.declared.finding.Found.{Found};
ghost use Rattle.fish_recover.specs.declared.refusal.Asked.{Asked};
ghost use Rattle.fish_recover.specs.declared.refusal.OpenRefusal.{OpenRefusal};

/// An image gives one answer: two causes are never there for two refusals that speak of the store, and none is there
/// where something is found.
pub fn causes_exclude()
    ensures one { (image : List ℕ) (asked : Asked) (e f : OpenRefusal) → IsOfStore e → IsOfStore f
        → IsOpenCause image asked e → IsOpenCause image asked f → e ≡ f }
    ensures found { (image : List ℕ) (asked : Asked) (found : Found) (e : OpenRefusal) → IsOfStore e
        → IsImageFound image asked found → IsOpenCause image asked e → ⊥ }
{}

/// An image stands for one log at most; where it stands for one of the shape that is asked for, no refusal that speaks
/// of the store has a cause, nor where it is empty.
pub fn stores_open()
    ensures one { (image : List ℕ) (c d : Commit) (log other : List Entry) → Stands c image log → Stands d image other
        → (c ≡ d) × (log ≡ other) }
    ensures opens { (image : List ℕ) (asked : Asked) (c : Commit) (log : List Entry) (e : OpenRefusal) → IsOfStore e
        → Stands c image log → (IsOtherShape asked c → ⊥) → IsOpenCause image asked e → ⊥ }
    ensures makes { (asked : Asked) (e : OpenRefusal) → IsOfStore e → IsStoreCause [] asked e → ⊥ }
{}
