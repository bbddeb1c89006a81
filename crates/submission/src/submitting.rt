//! Says the steps of a submission, and hears the replies.
ghost use Rattle.std.specs.Prelude.{◌≡◌, ◌<◌, ℕ, false, All, OnErr, OnOk, length};
ghost use Rattle.mail_io.specs.Causes.{HasCause};
ghost use Rattle.mail_io.specs.Talks.{AppendsPiece};
ghost use Rattle.submission.specs.declared.steps.Step.{Step as StepValue};
ghost use Rattle.submission.specs.declared.steps.Opening.TheVariants.{Say};
ghost use Rattle.submission.specs.Replies.{dialled, is_awaiting};
ghost use Rattle.submission.specs.Script.{dot_line, dotted, script};
ghost use Rattle.submission.specs.Stops.{IsEndCaused, IsSayable, IsStopCaused, StepsTo, ending_seen, finished, followed};
ghost use Rattle.submission.specs.Submits.{Delivers, EndsMessage, Follows, GrowsBy, Hears, IsCaused, IsExchange, IsUnopened, Quits, Submits, SubmitsOrNothing, doubted, hearing_after, judged, onward, opens};

use crate::Envelope;
use crate::fault::{Stop, SubmitFault};
use crate::inbox::Inbox;
use crate::message::dotted;
use crate::replies::Verdict;
use crate::steps::{Opening, Step, Wanted, script};
use mail_io::{Failed, Link};
use mail_values::Bytes;
use std::alloc::Global;

/// Dials, or says a line.
fn open<L: Link>(link: &mut L, inbox: &mut Inbox, opening: &Opening) -> Result<(), Failed>
    requires sayable { IsSayable opening.now }
    ensures opens { OnOk result (AppendsPiece (L.talk link.old) (L.talk link.new) (opens opening.now)) }
    ensures awaits { OnOk result (inbox.new ≡ hearing_after opening.now inbox.old) }
    ensures unopened { OnErr result (GrowsBy (L.talk link.old) (L.talk link.new) (IsUnopened opening.now)) }
    ensures cause { HasCause (L.faults link.old) (L.faults link.new) result }
{
    match opening {
        Opening::Dial => {
            link.redial(false)?;
            inbox.dial();
        }
        Opening::Say(line) => {
            link.send(line.as_slice())?;
            inbox.begin_next();
        }
    }
    Ok(())
}

/// Receives bytes until a reply is there.
fn hear_out<L: Link>(link: &mut L, inbox: &mut Inbox) -> Result<(), Failed>
    ensures hears { GrowsBy (L.talk link.old) (L.talk link.new) (λ pieces. Hears inbox.old pieces (ending_seen result inbox.new)) }
    ensures done { OnOk result (is_awaiting inbox.new ≡ false) }
    ensures cause { HasCause (L.faults link.old) (L.faults link.new) result }
{
    while inbox.is_awaiting() {
        inbox.receive(link)?;
    }
    Ok(())
}

/// Begins a step, and hears its reply.
fn exchange<L: Link>(link: &mut L, inbox: &mut Inbox, opening: &Opening) -> Result<(), Failed>
    requires sayable { IsSayable opening.now }
    ensures exchanges { GrowsBy (L.talk link.old) (L.talk link.new) (λ pieces. IsExchange opening.now inbox.old pieces (ending_seen result inbox.new)) }
    ensures done { OnOk result (is_awaiting inbox.new ≡ false) }
    ensures cause { HasCause (L.faults link.old) (L.faults link.new) result }
{
    open(link, inbox, opening)?;
    hear_out(link, inbox)
}

/// Returns whether a reply lets a step go on.
fn judge(inbox: &Inbox, wanted: Wanted) -> Result<(), Stop>
    requires done { is_awaiting inbox.now ≡ false }
    ensures equals { followed result inbox.now ≡ judged inbox.now.reading.verdict wanted inbox.now }
    ensures cause { (count : ℕ) → IsStopCaused count count result }
{
    match inbox.verdict() {
        Verdict::Awaited => Err(Stop::Link),
        Verdict::Whole(code) => {
            if wanted.accepts(code) {
                Ok(())
            } else {
                Err(Stop::Refused { code })
            }
        }
        Verdict::Wrong => Err(Stop::Damaged),
    }
}

/// Goes through a step.
fn take_step<L: Link>(link: &mut L, inbox: &mut Inbox, step: &Step) -> Result<(), Stop>
    requires sayable { IsSayable step.now.opening }
    ensures steps { GrowsBy (L.talk link.old) (L.talk link.new) (λ pieces. StepsTo step.now inbox.old pieces (followed result inbox.new)) }
    ensures cause { IsStopCaused (L.faults link.old) (L.faults link.new) result }
{
    match exchange(link, inbox, &step.opening) {
        Ok(()) => judge(inbox, step.wanted),
        Err(_) => Err(Stop::Link),
    }
}

/// Goes through steps, up to the first that is refused.
fn follow<L: Link>(link: &mut L, inbox: &mut Inbox, steps: &[Step]) -> Result<(), Stop>
    requires sayable { All (λ (step : StepValue). IsSayable step.opening) steps.now }
    ensures follows { GrowsBy (L.talk link.old) (L.talk link.new) (λ pieces. Follows steps.now inbox.old pieces (followed result inbox.new)) }
    ensures cause { IsStopCaused (L.faults link.old) (L.faults link.new) result }
{
    for step in steps {
        take_step(link, inbox, step)?;
    }
    Ok(())
}

/// Returns what the reply to the dot says.
fn judge_dot(inbox: &Inbox) -> Result<(), Stop>
    ensures equals { followed result inbox.now ≡ doubted (judged inbox.now.reading.verdict Wanted.Done inbox.now) }
    ensures cause { (count : ℕ) → IsEndCaused count count result }
{
    match inbox.verdict() {
        Verdict::Whole(250) => Ok(()),
        Verdict::Whole(code) => Err(Stop::Refused { code }),
        _ => Err(Stop::Doubt),
    }
}

/// Says QUIT if the message was taken.
fn close<L: Link>(link: &mut L, inbox: &Inbox) -> Result<(), Stop>
    ensures closes { GrowsBy (L.talk link.old) (L.talk link.new) (λ pieces. onward (doubted (judged inbox.now.reading.verdict Wanted.Done inbox.now)) Quits pieces (finished result inbox.now)) }
    ensures cause { IsEndCaused (L.faults link.old) (L.faults link.new) result }
{
    judge_dot(inbox)?;
    let _ = link.send(b"QUIT\r\n");
    Ok(())
}

/// Says the dot, and hears its reply.
fn end_message<L: Link>(link: &mut L, inbox: &mut Inbox, dot: &Opening) -> Result<(), Stop>
    requires dot { dot.now ≡ Say dot_line }
    ensures ends { GrowsBy (L.talk link.old) (L.talk link.new) (λ pieces. EndsMessage inbox.old pieces (finished result inbox.new)) }
    ensures cause { IsEndCaused (L.faults link.old) (L.faults link.new) result }
{
    match exchange(link, inbox, dot) {
        Ok(()) => close(link, inbox),
        Err(_) => Err(Stop::Doubt),
    }
}

/// Says a message, and ends it.
fn deliver<L: Link>(link: &mut L, inbox: &mut Inbox, body: &[u8], dot: &Opening) -> Result<(), Stop>
    requires nonempty { 0 < length body.now }
    requires dot { dot.now ≡ Say dot_line }
    ensures delivers { GrowsBy (L.talk link.old) (L.talk link.new) (λ pieces. Delivers body.now inbox.old pieces (finished result inbox.new)) }
    ensures cause { IsEndCaused (L.faults link.old) (L.faults link.new) result }
{
    match link.send(body) {
        Ok(()) => end_message(link, inbox, dot),
        Err(_) => Err(Stop::Link),
    }
}

/// Goes through the steps, and delivers the message.
fn converse<L: Link>(
    link: &mut L,
    inbox: &mut Inbox,
    steps: &[Step],
    body: &[u8],
    dot: &Opening,
) -> Result<(), Stop>
    requires new { inbox.old ≡ dialled }
    requires sayable { All (λ (step : StepValue). IsSayable step.opening) steps.now }
    requires nonempty { 0 < length body.now }
    requires dot { dot.now ≡ Say dot_line }
    ensures submits { GrowsBy (L.talk link.old) (L.talk link.new) (λ pieces. Submits steps.now body.now pieces (finished result inbox.new)) }
    ensures cause { IsEndCaused (L.faults link.old) (L.faults link.new) result }
{
    follow(link, inbox, steps)?;
    deliver(link, inbox, body, dot)
}

/// Submits a message over a link that it dials.
///
/// The user and the password have no U+0000, the addresses of the envelope are `local@domain`, and the message is lines that end with CR LF:
/// they are said as they are. All memory is taken before the link is dialled.
pub fn submit<L: Link>(
    alloc: Global,
    link: &mut L,
    user: &str,
    password: &str,
    envelope: &Envelope,
    message: &[u8],
) -> Result<(), SubmitFault>
    requires nonempty { 0 < length message.now }
    ensures submits { GrowsBy (L.talk link.old) (L.talk link.new) (λ pieces. SubmitsOrNothing (script user.now password.now envelope.now.from envelope.now.to.items) (dotted message.now) pieces result) }
    ensures cause { IsCaused (L.faults link.old) (L.faults link.new) result }
{
    let steps = script(alloc, user, password, envelope.from.as_str(), &envelope.to)?;
    let body = dotted(alloc, message)?;
    let dot = Opening::Say(Bytes::from_slice(alloc, b".\r\n")?);
    let mut inbox = Inbox::new(alloc)?;
    match converse(link, &mut inbox, &steps, &body, &dot) {
        Ok(()) => Ok(()),
        Err(stop) => Err(inbox.into_fault(stop)),
    }
}
