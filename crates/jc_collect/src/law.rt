//! What holds of the definitions of a run.

ghost use Rattle.std.specs.Prelude.{◌≡◌, Bool, List, ℕ};
ghost use Rattle.jc_base.specs.declared.limits.Limits.{Limits};
ghost use Rattle.jc_base.specs.Journal.{Journal};
ghost use Rattle.jc_upload.specs.declared.answer.Answer.{Answer};
ghost use Rattle.jc_collect.specs.Accepted.{AreAccepted, IsStoredBefore};
ghost use Rattle.jc_collect.specs.Answer.{IsAnswerTo};

use jc_upload::one_saying;

/// Over the same journal and uploads, if the same ones were set aside, no two sets of positions are the accepted ones. Does nothing.
pub fn one_set_accepted()
    ensures { (limits : Limits) (start : Journal) (uploads : List (List ℕ)) (aside p q : List Bool) →
        AreAccepted limits start uploads aside p → AreAccepted limits start uploads aside q → p ≡ q }
{}

/// What is stored before a position is one journal. Does nothing.
pub fn one_journal_stored()
    ensures { (limits : Limits) (start : Journal) (uploads : List (List ℕ)) (accepted : List Bool) (i : ℕ)
        (m n : Journal) → IsStoredBefore limits start uploads accepted i m
        → IsStoredBefore limits start uploads accepted i n → m ≡ n }
{}

/// Over a journal no upload has two answers. Does nothing.
pub fn one_answer()
    ensures { (limits : Limits) (upload : List ℕ) (journal : Journal) (a b : Answer) →
        IsAnswerTo limits upload journal a → IsAnswerTo limits upload journal b → a ≡ b }
{
    one_saying();
    jc_upload::one_head();
}
