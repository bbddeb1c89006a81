//! An account's side of its mail server.
ghost use Rattle.std.specs.Prelude.{◌≡◌, [], true, false, Some, None, IsSome, IfOk, OnErr, IfSome, IfNone};
ghost use Rattle.mail_talk.specs.States.{nothing_told};
ghost use Rattle.account_script.specs.Asks.{copy_steps, script_with};
ghost use Rattle.account_turns.specs.Exchanges.{IsCausedBy};
ghost use Rattle.account_mail.specs.Turned.{IsKeptUser, LoggedIn, Turned, TurnedBy, login_errand, who_without_login};

use crate::turns::{credentials, follow_ask, follow_copy, forgets, log_in};
use account_turns::{Credentials, Ending};
use mail_io::Link;
use mail_talk::{Listener, Told};
use mail_values::{Memory, Text};
use site_asks::Ask;
use std::alloc::Global;
use std::marker::Model;

/// An account's side of its mail server: the link, and what was told on it.
#[derive(Drop)]
pub struct MailSide<L: Link> {
    link: L,
    listener: Listener,
    who: Option<Credentials>,
    up: bool,
    fresh: bool,
}

impl<L: Link> Model for MailSide<L> {
    ghost use Rattle.account_mail.specs.Sides.{SideState, IsKept, IsSteady};

    ghost Value = { SideState };

    ghost view = { λ s. record { talk = L.talk s.link; faults = L.faults s.link; ear = s.listener; who = s.who; up = s.up; fresh = s.fresh } };

    ghost invariant = { λ s. IsSteady s.up s.fresh s.listener × IsKept (L.talk s.link) s.fresh s.listener };
}

impl<L: Link> MailSide<L> {
    /// Nothing was dialled yet, and nobody logged in.
    pub fn new(alloc: Global, link: L) -> Self
        ensures { result ≡ record { talk = L.talk link; faults = L.faults link; ear = record { told = nothing_told; rest = []; at = 0; from = 0 }; who = None; up = false; fresh = true } }
    {
        MailSide {
            link,
            listener: Listener::new(alloc),
            who: None,
            up: false,
            fresh: true,
        }
    }

    /// What was told.
    pub fn told(&self) -> &Told
        ensures { result.now ≡ self.now.ear.told }
    {
        self.listener.told()
    }

    /// Who logged in last, if anybody did.
    pub fn who(&self) -> Option<&Credentials>
        ensures some { IfSome result (λ who. self.now.who ≡ Some who.now) }
        ensures none { IfNone result (self.now.who ≡ None) }
    {
        self.who.as_ref()
    }

    /// Takes the account down, and lets the next dial forget what was told.
    pub fn forget(&mut self)
        ensures { self.new ≡ record self.old { up = false; fresh = true } }
    {
        self.up = false;
        self.fresh = true;
    }

    /// Takes the account down: the next ask logs in.
    pub fn shut(&mut self)
        ensures { self.new ≡ record self.old { up = false } }
    {
        self.up = false;
    }

    /// Copies whom a login of `user` that is taken back leaves: who is kept, or nobody if its dial forgets what was told.
    pub fn who_without_login(
        &self,
        alloc: Global,
        user: &Text,
    ) -> Result<Option<Credentials>, Memory>
        ensures { IfOk result (λ who. who ≡ who_without_login user.now self.now.who self.now.fresh) }
    {
        if forgets(self.fresh, &self.who, user) {
            return Ok(None);
        }
        match &self.who {
            Some(who) => Ok(Some(credentials(alloc, &who.user, &who.password)?)),
            None => Ok(None),
        }
    }

    /// Keeps other credentials than those of the last login.
    pub fn restore(&mut self, who: Option<Credentials>)
        ensures { self.new ≡ record self.old { who = who } }
    {
        self.who = who;
    }

    /// Carries out an ask in one turn. If the account isn't logged in, it logs in first. Out of memory, it is down, and the next dial forgets
    /// what was told.
    pub fn carry_out(&mut self, alloc: Global, ask: &Ask) -> Result<Ending, Memory>
        requires who { IsSome self.old.who }
        ensures turned { IfSome self.old.who (λ who. Turned (record { who = who; ask = ask.now; message = [] }) self.old.up self.old.fresh self.old self.new result) }
        ensures same_user { self.new.who ≡ self.old.who }
        ensures fault { IfOk result (λ ending. IsCausedBy ending self.old.faults self.new.faults) }
        ensures memory { OnErr result ((self.new.up ≡ false) × (self.new.fresh ≡ true)) }
    {
        let Some(who) = &self.who else {
            return Err(Memory);
        };
        match follow_ask(
            alloc,
            &mut self.link,
            &mut self.listener,
            &mut self.fresh,
            &mut self.up,
            who,
            ask,
        ) {
            Ok(ending) => Ok(ending),
            Err(error) => {
                self.up = false;
                self.fresh = true;
                Err(error)
            }
        }
    }

    /// Copies a message to the folder of sent messages, if there is one, in one turn for the same ask. If the account isn't logged in, it logs in
    /// first. Out of memory, it is down, and the next dial forgets what was told.
    pub fn copy(&mut self, alloc: Global, ask: &Ask, message: &[u8]) -> Result<Ending, Memory>
        requires who { IsSome self.old.who }
        ensures turned { IfSome self.old.who (λ who. TurnedBy (script_with copy_steps self.old.up) (record { who = who; ask = ask.now; message = message.now }) self.old.up self.old.fresh self.old self.new result) }
        ensures same_user { self.new.who ≡ self.old.who }
        ensures fault { IfOk result (λ ending. IsCausedBy ending self.old.faults self.new.faults) }
        ensures memory { OnErr result ((self.new.up ≡ false) × (self.new.fresh ≡ true)) }
    {
        let Some(who) = &self.who else {
            return Err(Memory);
        };
        match follow_copy(
            alloc,
            &mut self.link,
            &mut self.listener,
            &mut self.fresh,
            &mut self.up,
            who,
            ask,
            message,
        ) {
            Ok(ending) => Ok(ending),
            Err(error) => {
                self.up = false;
                self.fresh = true;
                Err(error)
            }
        }
    }

    /// Logs a user in, by a new connection: also if the account is logged in. A connection for another user than the one that is kept
    /// forgets what was told, and so does the first after want of memory. Out of memory, the account is down, and the next dial forgets
    /// what was told.
    pub fn login(&mut self, alloc: Global, user: &Text, password: &Text) -> Result<Ending, Memory>
        ensures logged_in { LoggedIn (login_errand user.now password.now) self.old self.new result }
        ensures fault { IfOk result (λ ending. IsCausedBy ending self.old.faults self.new.faults) }
        ensures memory { OnErr result ((self.new.up ≡ false) × (self.new.fresh ≡ true)) }
        ensures user { IfOk result (λ ending. IsKeptUser ending user.now password.now self.new.who) }
        ensures same_user_on_err { OnErr result (self.new.who ≡ self.old.who) }
    {
        match log_in(
            alloc,
            &mut self.link,
            &mut self.listener,
            &mut self.who,
            &mut self.fresh,
            &mut self.up,
            user,
            password,
        ) {
            Ok(ending) => Ok(ending),
            Err(error) => {
                self.up = false;
                self.fresh = true;
                Err(error)
            }
        }
    }
}
