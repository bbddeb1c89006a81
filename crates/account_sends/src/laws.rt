//! What holds of any turns of an account.
ghost use Rattle.account_sends.specs.Dots.{DotsEndSubmissions};
ghost use Rattle.account_sends.specs.Once.{FormsAreSentOnce};

/// States that no form is submitted again once its message was taken, or may have been. It does nothing.
#[tactic(auto, using(crate::proofs::OnceLemmas::sent_once))]
pub fn forms_are_sent_once()
    ensures { FormsAreSentOnce }
{}

/// States that a submission whose dot was said ends with a message that was taken, or may have been, or that was refused. It does nothing.
pub fn dots_end_submissions()
    ensures { DotsEndSubmissions }
{}
