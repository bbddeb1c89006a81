//! A session of a member.
ghost use Rattle.std.specs.Prelude.{◌≡◌, IfOk, not, false, true};
ghost use Rattle.site_sessions.specs.Sessions.{has_live_token, is_idle, is_of, kept};
ghost use Rattle.std.specs.Str.{bytes_eq};

use mail_values::Text;
use std::alloc::{AllocError, Global};
use std::marker::Model;
use turn_desk::{DeskTable, Names, Pass};

/// A session of a member. Its pass is of its account's desk.
#[derive(Drop)]
pub struct Session<N: Names> {
    pub account: u32,
    pub user: Text,
    /// The value of the session's cookie.
    pub token: Text,
    /// The key that each form of the session's pages has.
    pub key: Text,
    /// The moment of its last ask, in seconds since 1970.
    pub last: i64,
    pub pass: Pass<N>,
}

impl<N: Names> Model for Session<N> {
    ghost use Rattle.std.specs.Prelude.{◌≡◌};
    ghost use Rattle.site_sessions.specs.Sessions.{SessionValue};

    ghost Value = { SessionValue };

    ghost view = { λ s. record { account = s.account; user = s.user; token = s.token; key = s.key; last = s.last; pass = s.pass } };

    ghost invariant = { λ s. s.pass.desk ≡ s.account };
}

/// Seconds that a session lives after its last ask.
const IDLE_LIMIT: i128 = 1_800;

impl<N: Names> Session<N> {
    pub fn is_idle(&self, now: i64) -> bool
        ensures { result ≡ is_idle now self.now }
    {
        (self.last as i128) + IDLE_LIMIT < now as i128
    }

    pub fn has_token(&self, token: &[u8]) -> bool
        ensures { result ≡ bytes_eq self.now.token token.now }
    {
        self.token.as_str().as_bytes() == token
    }

    pub fn is_of(&self, user: &Text) -> bool
        ensures { result ≡ bytes_eq self.now.user user.now }
    {
        self.user == *user
    }

    /// Another session that is the same. `table` is that of its account's desk.
    pub fn copy(&mut self, alloc: Global, table: &DeskTable<N>) -> Result<Session<N>, AllocError>
        requires one_desk { table.now ≡ self.old.account }
        ensures unchanged { self.new ≡ self.old }
        ensures equals { IfOk result (λ s. s ≡ self.old) }
    {
        let user = Text::from_text(alloc, self.user.as_str())?;
        let token = Text::from_text(alloc, self.token.as_str())?;
        let key = Text::from_text(alloc, self.key.as_str())?;
        let pass = self.pass.copy(table);
        Ok(Session {
            account: self.account,
            user,
            token,
            key,
            last: self.last,
            pass,
        })
    }

    /// Takes in what a pass has seen, if the token is the session's and the pass is of its account's desk. `table` is that desk's.
    #[tactic(auto, unfolding(crate::specs::Sessions::kept))]
    pub fn keep(&mut self, table: &DeskTable<N>, token: &Text, now: i64, pass: Pass<N>)
        requires one_desk { table.now ≡ self.old.account }
        ensures { self.new ≡ kept token.now now pass self.old }
    {
        if self.token == *token && self.account == pass.desk() {
            self.last = self.last.max(now);
            self.pass.meet(table, pass);
        }
    }
}
