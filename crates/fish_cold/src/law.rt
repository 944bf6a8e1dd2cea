//! Laws of what is below the base. The functions do nothing; their contracts are the laws.

ghost use Rattle.std.specs.Prelude.{◌≡◌, ◌≢◌, ◌%◌, ◌<◌, ◌∷◌, ◌++◌, ℕ, List, Option, Result};
ghost use Rattle.fish_catalog.specs.declared.entry.Entry.{Entry};
ghost use Rattle.fish_image.specs.Newest.{IsAmong};
ghost use Rattle.fish_image.specs.Reached.{Reached, head_of};
ghost use Rattle.fish_layout.specs.declared.parts.BodyParts.{BodyParts};
ghost use Rattle.fish_layout.specs.declared.parts.KeyPart.{KeyPart};
ghost use Rattle.fish_rule.specs.declared.view.Key.{Key};
ghost use Rattle.fish_cold.specs.Carries.{CarriesTable, IsCarried, IsEntryAnswer, IsEntryOf, IsPrior};
ghost use Rattle.fish_cold.specs.Chains.{IsKeyAt, IsLink, Splits};
ghost use Rattle.fish_cold.specs.Answers.{AnswersEntry};
ghost use Rattle.fish_cold.specs.Cached.{HasNodeOn};
ghost use Rattle.fish_cold.specs.declared.refusal.ColdRefusal.{ColdRefusal};
ghost use Rattle.fish_cold.specs.declared.cold.Cold.{Cold as Older};

/// On a disk that carries its table each number below the base is led to, and its words are the entry of the log
/// for which the disk stands; what is answered for such words is that entry, and never damaged.
pub fn entries_are_carried()
    ensures carried { (content : Option (List ℕ)) (k : Key) (cold : Older) (h : CarriesTable content k cold) (n : ℕ)
        → n < k.number → IsCarried cold h.image h.end n }
    ensures answered { (number : ℕ) (rest : List ℕ) (entry : Entry) (result : Result Entry ColdRefusal) → IsEntryOf rest
        entry → AnswersEntry number rest result → IsEntryAnswer entry result }
{}

/// Heads and previous nodes lead down exactly the key entries of a bucket: before the newest of those that are left
/// there is none of the bucket, and its previous node is the newest of those after it.
pub fn chains_lead_down()
    ensures newest { (places : List (ℕ × ℕ)) (b : ℕ) → head_of places b ≢ 0 → Splits places b }
    ensures links { (image : List ℕ) (n : ℕ) (end : Reached) (prior : IsPrior image n end) (b place : ℕ)
        (taken behind : List (ℕ × ℕ)) → end.places ≡ taken ++ (b, place) ∷ behind → IsLink prior b place behind }
    ensures all { (image : List ℕ) (n : ℕ) (end : Reached) (prior : IsPrior image n end) (b place m : ℕ) (p : BodyParts)
        (j : ℕ) (k : KeyPart) → IsKeyAt prior b place m p j k → IsAmong end.places b place }
{}

/// On a disk that carries its table a key entry of a number below the base is on its page.
pub fn keys_are_carried()
    ensures { (content : Option (List ℕ)) (k : Key) (cold : Older) (h : CarriesTable content k cold) (b place n : ℕ)
        (p : BodyParts) (j : ℕ) (key : KeyPart) (at : IsKeyAt h.prior b place n p j key)
        → HasNodeOn cold h.image place (at.stored.at.line % 32768) p j key }
{}
