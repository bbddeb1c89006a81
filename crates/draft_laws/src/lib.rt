//! Laws of the messages and the recipients of drafts, each the contract of a function that does nothing.
#![tactic(auto)]

ghost use Rattle.compose_drafts.specs.Drafts.{parties_of, saved_parties_of};
ghost use Rattle.draft_laws.specs.Envelopes.{FaultsAreShared, RecipientsAreAddresses, RecipientsAreRead, RecipientsAreWritten, SendersAreAddresses};
ghost use Rattle.draft_laws.specs.HeaderLines.{HeadersAreNarrow};
ghost use Rattle.draft_laws.specs.OneText.{MessagesAreOneText};

/// Proves that the tree of a built message is one part, which is decoded and read as the paragraphs of the draft's text.
pub fn messages_are_one_text()
    ensures sent { MessagesAreOneText parties_of }
    ensures saved { MessagesAreOneText saved_parties_of }
{}

/// Proves that the recipients of a draft are the boxes of its message's To and Cc, that readers find their addresses there and no others, and
/// that a draft without recipients has no message, for the same reason.
pub fn recipients_are_written()
    ensures boxes { RecipientsAreWritten }
    ensures read { RecipientsAreRead }
    ensures faults { FaultsAreShared }
{}

/// Proves that the sender and the recipients of a message are addresses, as a mail server's commands take them: each one `local@domain`.
pub fn envelopes_have_addresses()
    ensures sender { SendersAreAddresses }
    ensures recipients { RecipientsAreAddresses }
{}

/// Proves that no line of a built header has more than 998 bytes, but for those of From, To, Cc and Subject.
pub fn headers_are_narrow()
    ensures sent { HeadersAreNarrow parties_of }
    ensures saved { HeadersAreNarrow saved_parties_of }
{}
