//! A small account: it says each word that it is given, and counts nothing.
ghost use Rattle.std.specs.Prelude.{◌≡◌, ◌++◌, ◌∷◌, [], Some, OnOk, IfOk};
ghost use Rattle.account_pictures.specs.Story.{story_of};
ghost use Rattle.account_pictures.specs.declared.talk.Piece.TheVariants.{Said};
ghost use Rattle.turn_desk.specs.Views.{MakesTurn};

use account_pictures::Piece;
use mail_values::{Bytes, Memory, Text};
use std::alloc::Global;
use std::marker::Model;
use std::sync::Wait;
use turn_desk::{Desk, Names, Pass, Storied, Work};

/// An account that was never dialled.
#[derive(Drop)]
pub struct Account {
    user: Text,
    talk: Vec<Piece>,
}

impl Model for Account {
    ghost use Rattle.std.specs.Prelude.{[], Some, None, true, false};
    ghost use Rattle.account_pictures.specs.declared.pictures.AccountPicture.{AccountPicture};

    ghost Value = { AccountPicture };

    ghost view = { λ a. record { domain = []; mail_talk = Some a.talk.items; post_talk = None; records = None; mail_faults = 0; post_faults = 0; keeper_faults = 0; held = []; user = Some a.user; password = None; is_down = true; dials_fresh = true } };
}

impl Storied for Account {
    ghost use Rattle.account_pictures.specs.declared.pictures.Picture.TheVariants.{Account};

    ghost picture = { λ account. Account account };
}

impl Account {
    pub fn new(alloc: Global, user: &str) -> Result<Self, Memory>
        ensures { IfOk result (λ account. account.mail_talk ≡ Some []) }
    {
        Ok(Account {
            user: Text::from_text(alloc, user)?,
            talk: Vec::new(alloc),
        })
    }
}

/// The work that says a word. Its output is the number of words said.
#[derive(Drop)]
pub struct Saying {
    pub word: Bytes,
}

impl Work<Account> for Saying {
    ghost use Rattle.std.specs.Prelude.{◌≡◌, ◌++◌, ◌∷◌, [], OnOk};
    ghost use Rattle.account_pictures.specs.Story.{story_of};
    ghost use Rattle.account_pictures.specs.declared.talk.Piece.TheVariants.{Said};

    type Out = Result<usize, Memory>;

    ghost does = { λ work opened closed out. OnOk out (story_of closed ≡ story_of opened ++ Said work.word ∷ []) };

    fn run(self, inner: &mut Account) -> Result<usize, Memory> {
        let Saying { word } = self;
        inner.talk.push(Piece::Said(word))?;
        Ok(inner.talk.len())
    }
}

/// One turn that says a word: the pass has then seen the word just after all that was said before.
pub fn say<N: Names>(
    rt: &impl Wait,
    desk: &Desk<Account, N>,
    pass: &mut Pass<N>,
    word: Bytes,
) -> Result<u64, Memory>
    requires desk { pass.old.desk ≡ desk.now }
    ensures desk { pass.new.desk ≡ pass.old.desk }
    ensures makes_turn { IfOk result (λ n. MakesTurn pass.old pass.new n) }
    ensures says { OnOk result (pass.new.story ≡ story_of pass.new.opened ++ Said word ∷ []) }
{
    let (said, turn) = desk.turn(rt, pass, Saying { word });
    said?;
    Ok(turn)
}
