//! No form is sent twice.
ghost use Rattle.account_core.specs.Events.{CallsSendOnce};

/// States that of any logins and asks, in any order, none submits a form again once its message was taken, or may have been. It does nothing.
#[tactic(auto, using(crate::proofs::CallLemmas::calls_send_once))]
pub fn forms_are_sent_once()
    ensures { CallsSendOnce }
{}
