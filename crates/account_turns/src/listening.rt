//! Hears a server as long as an answer is awaited.
ghost use Rattle.std.specs.Prelude.{◌≡◌, ◌+◌, ◌<◌, ◌≤◌, length, true, false, IfOk};
ghost use Rattle.mail_talk.specs.Units.{heard_count, heard_limit};
ghost use Rattle.account_turns.specs.Causes.{is_open};
ghost use Rattle.account_turns.specs.Exchanges.{Hearing, HasStayed};
ghost use Rattle.account_turns.specs.Turns.{Continues, Turn};

use mail_io::Link;
use mail_talk::Listener;
use mail_values::Memory;

/// The bytes that are received at once.
const ROOM: usize = 16_384;

/// The greatest number of bytes that are heard for one command.
const LIMIT: u64 = 33_554_432;

/// Whether an answer is awaited, and more may be heard.
pub fn is_open(listener: &Listener) -> bool
    ensures { result ≡ is_open listener.now }
{
    listener.told().phase().is_listening() && !listener.has_reached_limit()
}

/// Returns how many bytes may be received.
fn room_len(listener: &Listener) -> usize
    requires open { is_open listener.now ≡ true }
    ensures some { 0 < result }
    ensures bound { result ≤ 16384 }
    ensures within { heard_count listener.now + result ≤ heard_limit }
{
    let left = LIMIT - listener.heard_count();
    left.min(ROOM as u64) as usize
}

/// Receives bytes and hears them. Returns false if the link failed.
fn hear_more<L: Link>(
    link: &mut L,
    listener: &mut Listener,
    room: &mut [u8],
) -> Result<bool, Memory>
    requires open { is_open listener.old ≡ true }
    requires some { 0 < length room.old }
    requires within { heard_count listener.old + length room.old ≤ heard_limit }
    ensures turn { (t u : Turn) → Hearing t listener.old u → Continues (L.talk link.old) (L.talk link.new) u (λ w. IfOk result (λ heard. Hearing t listener.new w)) }
    ensures progresses { IfOk result (λ heard. heard ≡ true → is_open listener.new ≡ true → heard_count listener.old < heard_count listener.new) }
    ensures same_number { IfOk result (λ heard. listener.new.told.view.number ≡ listener.old.told.view.number) }
    ensures fault { IfOk result (λ heard. HasStayed heard (L.faults link.old) (L.faults link.new)) }
{
    match link.receive(room) {
        Ok(count) => {
            listener.hear(&room[..count])?;
            Ok(true)
        }
        Err(_) => Ok(false),
    }
}

/// Hears as long as an answer is awaited. Returns false if the link failed.
pub fn listen<L: Link>(link: &mut L, listener: &mut Listener) -> Result<bool, Memory>
    ensures turn { (t : Turn) → Hearing t listener.old t → Continues (L.talk link.old) (L.talk link.new) t (λ u. IfOk result (λ heard. Hearing t listener.new u)) }
    ensures closed { IfOk result (λ heard. heard ≡ true → is_open listener.new ≡ false) }
    ensures same_number { IfOk result (λ heard. listener.new.told.view.number ≡ listener.old.told.view.number) }
    ensures fault { IfOk result (λ heard. HasStayed heard (L.faults link.old) (L.faults link.new)) }
{
    let mut room = [0; ROOM];
    while is_open(listener) {
        let len = room_len(listener);
        if !hear_more(link, listener, &mut room[..len])? {
            return Ok(false);
        }
    }
    Ok(true)
}
