//! The turn of a login.
ghost use Rattle.std.specs.Prelude.{◌≡◌, true, false, Some, Ok, Err, IfOk, OnOk, OnErr};
ghost use Rattle.account_mail.specs.Turned.{who_without_login};
ghost use Rattle.account_sends.specs.Once.{IsQuiet};
ghost use Rattle.account_core.specs.Accounts.{IsOwned};
ghost use Rattle.account_core.specs.Logins.{AdoptEnd, LoginTurn, left_after};

use crate::faults::LoginFault;
use account_mail::MailSide;
use account_sends::Outbox;
use account_turns::{Credentials, Ending};
use mail_io::Link;
use mail_values::Text;
use record_io::{KeepFault, Keeper};
use std::alloc::Global;

/// Lets the keeper adopt a user who has logged in. If it fails, these credentials are kept instead.
fn adopt<L: Link, K: Keeper>(
    alloc: Global,
    mail: &mut MailSide<L>,
    outbox: &mut Outbox<L, K>,
    user: &Text,
    kept: Option<Credentials>,
) -> Result<(), LoginFault>
    ensures user { OnOk result (mail.new.who ≡ mail.old.who) }
    ensures ends { AdoptEnd user.now kept mail.old mail.new outbox.new.adopted outbox.old.keeper_faults outbox.new.keeper_faults result }
    ensures keeps { outbox.new ≡ record outbox.old { adopted = outbox.new.adopted; keeper_faults = outbox.new.keeper_faults } }
    ensures adopted_on_err { OnErr result (outbox.new.adopted ≡ outbox.old.adopted) }
    ensures kept_on_err { OnErr result (mail.new.who ≡ kept) }
{
    match outbox.adopt(alloc, user) {
        Ok(()) => Ok(()),
        Err(KeepFault::Failed) => {
            mail.restore(kept);
            Err(LoginFault::Unkept)
        }
        Err(KeepFault::Memory) => {
            mail.restore(kept);
            Err(LoginFault::Memory)
        }
    }
}

/// Logs a user in. After a fault, `mail` is still to be taken down.
pub fn log_in<L: Link, K: Keeper>(
    alloc: Global,
    mail: &mut MailSide<L>,
    outbox: &mut Outbox<L, K>,
    user: &Text,
    password: &Text,
) -> Result<(), LoginFault>
    ensures turn { LoginTurn user.now password.now mail.old mail.new outbox.new.adopted outbox.old.keeper_faults outbox.new.keeper_faults result }
    ensures user { OnOk result (mail.new.who ≡ Some (record { user = user.now; password = password.now })) }
    ensures keeps { outbox.new ≡ record outbox.old { adopted = outbox.new.adopted; keeper_faults = outbox.new.keeper_faults } }
    ensures quiet { IsQuiet outbox.old outbox.new }
    ensures owned { IsOwned mail.old.who outbox.old.adopted → IsOwned mail.new.who outbox.new.adopted }
{
    let kept = mail.who_without_login(alloc, user)?;
    match mail.login(alloc, user, password)? {
        Ending::Done => adopt(alloc, mail, outbox, user, kept),
        Ending::Stopped(cause) => Err(LoginFault::Stopped(cause)),
        Ending::Failed => Err(LoginFault::Unreachable),
    }
}

/// Takes an account down after a fault of its login.
pub fn take_down<L: Link>(mail: &mut MailSide<L>, fault: &LoginFault)
    ensures { mail.new ≡ left_after fault.now mail.old }
{
    match fault {
        LoginFault::Memory => mail.forget(),
        _ => mail.shut(),
    }
}
