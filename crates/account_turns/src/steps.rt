//! Goes through the steps of a script.
ghost use Rattle.std.specs.Prelude.{◌≡◌, ◌∷◌, [], List, true, false, IfOk};
ghost use Rattle.account_script.specs.declared.steps.Step.{Step as StepValue};
ghost use Rattle.account_turns.specs.Exchanges.{IsCausedBy, IsUnheard, Spoken};
ghost use Rattle.account_turns.specs.Steps.{IsFirst, IsReadyAfter, IsUpAfter, Matches, MayTake, is_unsteady};
ghost use Rattle.account_turns.specs.Turns.{Continues, Turn};

use crate::endings::Ending;
use crate::exchange::{dial, exchange};
use account_script::{Act, Credentials, Progress, Step, act_with, progress_at};
use mail_io::Link;
use mail_talk::Listener;
use mail_values::Memory;
use site_asks::Ask;
use std::alloc::Global;

/// The progress on a new connection.
const DOWN: Progress = Progress { up: false, mark: 0 };

/// Goes through the steps of a script, up to the first that stops.
///
/// `message` is the one that a script copies. `fresh` says that the next dial forgets all that was told, and `progress.up` whether the account is logged in. If it isn't, or if the
/// next dial is fresh, a dial comes first. Out of memory, nothing is said of `listener`, and the next dial has to be fresh.
pub fn follow<L: Link>(
    alloc: Global,
    link: &mut L,
    listener: &mut Listener,
    fresh: &mut bool,
    progress: &mut Progress,
    who: &Credentials,
    ask: &Ask,
    message: &[u8],
    steps: &[Step],
) -> Result<Ending, Memory>
    requires first { IsFirst (is_unsteady fresh.old listener.old) steps.now }
    requires up { progress.old.up ≡ true → is_unsteady fresh.old listener.old ≡ false }
    ensures turn { (t : Turn) → Matches (record { who = who.now; ask = ask.now; message = message.now }) steps.now fresh.old progress.old listener.old t →
        Continues (L.talk link.old) (L.talk link.new) t (λ u. IfOk result (λ ending. Spoken (record { who = who.now; ask = ask.now; message = message.now }) ending [] fresh.new progress.new listener.new u)) }
    ensures fault { IfOk result (λ ending. IsCausedBy ending (L.faults link.old) (L.faults link.new)) }
    ensures unheard { IfOk result (λ ending. fresh.new ≡ true → IsUnheard fresh.old listener.old listener.new) }
    ensures steady { IfOk result (λ ending. IsUpAfter ending progress.new.up (is_unsteady fresh.new listener.new)) }
{
    for step in steps {
        match take(
            alloc, link, listener, fresh, progress, who, ask, message, *step,
        )? {
            Ending::Done => {}
            Ending::Stopped(cause) => return Ok(Ending::Stopped(cause)),
            Ending::Failed => return Ok(Ending::Failed),
        }
    }
    Ok(Ending::Done)
}

/// Takes one step.
fn take<L: Link>(
    alloc: Global,
    link: &mut L,
    listener: &mut Listener,
    fresh: &mut bool,
    progress: &mut Progress,
    who: &Credentials,
    ask: &Ask,
    message: &[u8],
    step: Step,
) -> Result<Ending, Memory>
    requires may { MayTake (is_unsteady fresh.old listener.old) step }
    ensures turn { (t : Turn) (more : List StepValue) → Matches (record { who = who.now; ask = ask.now; message = message.now }) (step ∷ more) fresh.old progress.old listener.old t →
        Continues (L.talk link.old) (L.talk link.new) t (λ u. IfOk result (λ ending. Spoken (record { who = who.now; ask = ask.now; message = message.now }) ending more fresh.new progress.new listener.new u)) }
    ensures fault { IfOk result (λ ending. IsCausedBy ending (L.faults link.old) (L.faults link.new)) }
    ensures unheard { IfOk result (λ ending. fresh.new ≡ true → IsUnheard fresh.old listener.old listener.new) }
    ensures steady { IfOk result (λ ending. IsReadyAfter ending (is_unsteady fresh.new listener.new)) }
{
    let act = act_with(alloc, message, step, who, ask, listener.told(), *progress)?;
    *progress = progress_at(step, ask, listener.told(), *progress);
    match act {
        Act::Skip => Ok(Ending::Done),
        Act::Dial => {
            *progress = DOWN;
            dial(alloc, link, listener, fresh)
        }
        Act::Say(command) => exchange(alloc, link, listener, &command),
        Act::Stop(cause) => Ok(Ending::Stopped(cause)),
    }
}
