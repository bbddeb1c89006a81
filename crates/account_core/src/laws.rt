//! Which commands an ask takes if nothing stops it, and that it is answered then.
ghost use Rattle.std.specs.Prelude.{◌≡◌, ℕ, List, Some};
ghost use Rattle.account_pictures.specs.declared.records.Address.{Address};
ghost use Rattle.site_asks.specs.declared.Draft.{Draft};
ghost use Rattle.site_asks.specs.declared.asks.Ask.TheVariants as ask;
ghost use Rattle.account_script.specs.declared.steps.Step.{Step};
ghost use Rattle.account_script.specs.Asks.{address_of};
ghost use Rattle.account_turns.specs.Turns.{Errand};
ghost use Rattle.account_core.specs.Laws.{AnswersAll, CatchesUp, CopiesMessage, FetchesBody, ListsFolders, LogsIn, TriesConnection};

/// A login dials, and says LOGIN, CAPABILITY, ENABLE and LIST. It does nothing.
#[tactic(auto, using(crate::proofs::ScriptLaws::logs_in))]
pub fn members_are_logged_in()
    ensures { (e : Errand) (more : List Step) → LogsIn e more }
{}

/// The list of folders takes a LIST and nothing else. It does nothing.
#[tactic(auto, using(crate::proofs::ScriptLaws::lists_folders))]
pub fn folders_are_listed()
    ensures { (e : Errand) → e.ask ≡ ask.Folders → ListsFolders e }
{}

/// A folder is caught up by NOOP or SELECT, a fetch of the new rows, and one of the changes. It does nothing.
#[tactic(auto, using(crate::proofs::ScriptLaws::catches_up))]
pub fn folders_are_caught_up()
    ensures { (e : Errand) (more : List Step) → CatchesUp e more }
{}

/// A message that is there and isn't too long is fetched by its UID, and then the script is at its end. It does nothing.
#[tactic(auto, using(crate::proofs::ScriptLaws::fetches_body))]
pub fn messages_are_fetched()
    ensures { (e : Errand) (at : Address) → address_of e.ask ≡ Some at → FetchesBody e at }
{}

/// Before a form is sent, the connection is tried by NOOP and nothing else. It does nothing.
#[tactic(auto, using(crate::proofs::ScriptLaws::tries_connection))]
pub fn connections_are_tried()
    ensures { (e : Errand) (key : List ℕ) (fields : Draft) → TriesConnection e key fields }
{}

/// A message that was sent is copied by an APPEND, if there is a folder of sent messages, and by nothing else. It does nothing.
#[tactic(auto, using(crate::proofs::ScriptLaws::copies_message))]
pub fn messages_are_copied()
    ensures { (e : Errand) → CopiesMessage e }
{}

/// An ask whose script came to its end is answered 200 if what it asks for was told. It does nothing.
#[tactic(auto, using(crate::proofs::AnswerLaws::answers_all))]
pub fn asks_are_answered()
    ensures { AnswersAll }
{}
