//! One member's account.
ghost use Rattle.std.specs.Prelude.{◌≡◌, false, true, [], None, Some, Ok, Err, IsSome, IsSomeAnd, IfOk, OnOk, OnErr, IfSome, IfNone};
ghost use Rattle.mail_talk.specs.States.{nothing_told};
ghost use Rattle.account_sends.specs.Outboxes.{outbox};
ghost use Rattle.account_sends.specs.Once.{IsQuiet};
ghost use Rattle.account_core.specs.Events.{DoesEvent};
ghost use Rattle.account_core.specs.Logins.{LoggedIn};
ghost use Rattle.account_core.specs.Served.{Turned, is_served};

use crate::asks::serve;
use crate::faults::LoginFault;
use crate::logins::{log_in, take_down};
use account_answers::Answer;
use account_mail::MailSide;
use account_pictures::Address;
use account_sends::Outbox;
use mail_io::Link;
use mail_values::{Memory, Text};
use record_io::Keeper;
use site_asks::Ask;
use std::alloc::Global;
use std::marker::Model;

/// One member's account: its side of the mail server, and its link to the post server with the keeper of its records.
#[derive(Drop)]
pub struct Account<L: Link, K: Keeper> {
    mail: MailSide<L>,
    outbox: Outbox<L, K>,
    domain: Text,
}

impl<L: Link, K: Keeper> Model for Account<L, K> {
    ghost use Rattle.account_core.specs.Accounts.{AccountState, IsOwned};

    ghost Value = { AccountState };

    ghost view = { λ s. record { mail = s.mail; outbox = s.outbox; domain = s.domain } };

    ghost invariant = { λ s. IsOwned s.mail.who s.outbox.adopted };
}

impl<L: Link, K: Keeper> Account<L, K> {
    /// An account that nobody logged in to yet, of a site with this domain.
    pub fn new(alloc: Global, mail: L, post: L, keeper: K, domain: Text) -> Self
        ensures talk { result.mail.talk ≡ L.talk mail }
        ensures nobody { result.mail.who ≡ None }
        ensures down { result.mail.up ≡ false }
        ensures fresh { result.mail.fresh ≡ true }
        ensures untold { result.mail.ear ≡ record { told = nothing_told; rest = []; at = 0; from = 0 } }
        ensures outbox { result.outbox ≡ outbox (L.talk post) (L.faults post) (K.records keeper) (K.adopted keeper) (K.faults keeper) }
        ensures domain { result.domain ≡ domain }
    {
        Account {
            mail: MailSide::new(alloc, mail),
            outbox: Outbox::new(post, keeper),
            domain,
        }
    }

    /// Returns the user who logged in last, if anybody did.
    pub fn user(&self) -> Option<&Text>
        ensures some { IfSome result (λ user. IsSomeAnd self.now.mail.who (λ who. who.user ≡ user.now)) }
        ensures none { IfNone result (self.now.mail.who ≡ None) }
    {
        match self.mail.who() {
            Some(who) => Some(&who.user),
            None => None,
        }
    }

    /// Whether a message is held: none is, between two asks. A message is fetched whenever it is asked for.
    pub fn held(&self, _at: &Address) -> bool
        ensures { result ≡ false }
    {
        false
    }

    /// Logs a user in by a new connection, and lets the keeper adopt them. After a fault the account is down: the next ask logs in, with what
    /// was kept before, unless the connection forgot what was told for another user. Then the account has no user.
    pub fn login(&mut self, alloc: Global, user: &Text, password: &Text) -> Result<(), LoginFault>
        ensures logged_in { LoggedIn user.now password.now self.old self.new result }
        ensures user { OnOk result (self.new.mail.who ≡ Some (record { user = user.now; password = password.now })) }
        ensures down { OnErr result (self.new.mail.up ≡ false) }
        ensures quiet { IsQuiet self.old.outbox self.new.outbox }
        ensures keeps_records { self.new.outbox.records ≡ self.old.outbox.records }
    {
        match log_in(alloc, &mut self.mail, &mut self.outbox, user, password) {
            Ok(()) => Ok(()),
            Err(fault) => {
                take_down(&mut self.mail, &fault);
                Err(fault)
            }
        }
    }

    /// Answers an ask. If the account is down, it logs in before anything is said for the ask. Out of memory, it is down, and the next
    /// connection forgets what was told. `key` is the form key that the answer's forms carry, and `now` the moment, in seconds since 1970: the
    /// date of a message that is sent.
    pub fn handle(
        &mut self,
        alloc: Global,
        key: &Text,
        ask: &Ask,
        now: i64,
    ) -> Result<Answer, Memory>
        requires known { IsSome self.old.mail.who }
        requires served { is_served ask.now ≡ true }
        ensures turned { IfSome self.old.mail.who (λ who. Turned who ask.now key.now now self.old self.new result) }
        ensures event { IfSome self.old.mail.who (λ who. DoesEvent who ask.now self.old.outbox self.new.outbox) }
        ensures same_user { self.new.mail.who ≡ self.old.mail.who }
        ensures keeps_adopted { self.new.outbox.adopted ≡ self.old.outbox.adopted }
        ensures memory { OnErr result ((self.new.mail.up ≡ false) × (self.new.mail.fresh ≡ true)) }
    {
        match serve(
            alloc,
            &mut self.mail,
            &mut self.outbox,
            &self.domain,
            key,
            ask,
            now,
        ) {
            Ok(answer) => Ok(answer),
            Err(memory) => {
                self.mail.forget();
                Err(memory)
            }
        }
    }
}
