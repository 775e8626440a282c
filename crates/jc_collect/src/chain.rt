//! What holds of deliveries one after the other.

ghost use Rattle.std.specs.Prelude.{List, Option, Some, ℕ, map};
ghost use Rattle.jc_base.specs.declared.limits.Limits.{Limits};
ghost use Rattle.jc_base.specs.Journal.{Journal};
ghost use Rattle.jc_upload.specs.declared.answer.Answer.{Answer};
ghost use Rattle.jc_collect.specs.Chain.{AreTaken, IsChain, Turn};
ghost use Rattle.jc_collect.specs.Each.{CollectsEach, HasAcknowledged, IsKnownChain, KeepsCollected, KeepsEach, StoresEach};

use jc_upload::one_saying;

/// Of deliveries one after the other, whoever made them, exactly the accepted ones are acknowledged, and before each
/// position there are stored the entries of the start and of the accepted uploads so far. Does nothing.
pub fn chain_stored()
    ensures { (limits : Limits) (start : Journal) (turns : List Turn) →
        IsChain limits start turns → AreTaken limits start turns }
{
    // Does nothing: from its contract the proof has that no upload says two things.
    one_saying();
}

/// A run over deliveries with known bytes is such a chain. Does nothing.
pub fn known_chain()
    ensures { (limits : Limits) (uploads : List (List ℕ)) (start last : Journal) (answers : List Answer) →
        CollectsEach limits (map (λ u. Some u) uploads) start answers last → IsKnownChain limits uploads start answers last }
{}

/// Whether bytes are known or not, there is a reading for each acknowledgement, and the journal is what these make of the
/// first one. So it is of what a crash leaves. Does nothing.
pub fn each_stored()
    ensures stored { (limits : Limits) (known : List (Option (List ℕ))) (start last : Journal) (answers : List Answer) →
        CollectsEach limits known start answers last → StoresEach start answers last }
    ensures kept { (limits : Limits) (known : List (Option (List ℕ))) (start found : Journal) (answers : List Answer) →
        KeepsCollected limits known start answers found → KeepsEach start answers found }
{
    // Does nothing: from its contract the proof has that no upload says two things.
    one_saying();
}

/// What is acknowledged is in the journal at the end, and in one that a crash left. Does nothing.
pub fn acknowledged_stored()
    ensures stored { (start last : Journal) (answers : List Answer) → StoresEach start answers last → HasAcknowledged start answers last }
    ensures found { (start found : Journal) (answers : List Answer) → KeepsEach start answers found → HasAcknowledged start answers found }
{}
