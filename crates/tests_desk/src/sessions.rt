//! Sessions of a roster with two accounts.
ghost use Rattle.std.specs.Prelude.{◌≡◌};

use crate::account::Account;
use mail_values::{Memory, Text};
use site_sessions::{EnterFault, Roster, Slot};
use std::alloc::Global;
use std::marker::Brand;
use std::process::Abort;
use std::test::*;
use turn_desk::{Blank, Desk, Names};

#[test]
fn enter_find_keep_and_end(rt: HostRuntime) -> Result<(), Fail> {
    let alloc: Global = rt.alloc();
    let first = Blank::new(alloc, 0)?;
    let second = Blank::new(alloc, 1)?;
    use_roster::<Brand, _>(&rt, alloc, first, second)
}

/// Users enter a roster of two desks, are found by their tokens, and leave.
fn use_roster<N: Names, R: Abort>(
    rt: &R,
    alloc: Global,
    first: Blank,
    second: Blank,
) -> Result<(), Fail>
    requires first { N.table first.number ≡ first.table_id }
    requires second { N.table second.number ≡ second.table_id }
    requires numbers { (first.number ≡ 0) × (second.number ≡ 1) }
{
    let mut roster = make_roster::<N>(alloc, first, second)?;
    fill(rt, alloc, &mut roster)?;
    find_and_end(rt, alloc, &mut roster)?;
    Ok(())
}

/// A roster of two desks.
fn make_roster<N: Names>(alloc: Global, first: Blank, second: Blank) -> Result<Roster<N>, Memory>
    requires first { N.table first.number ≡ first.table_id }
    requires second { N.table second.number ≡ second.table_id }
    requires numbers { (first.number ≡ 0) × (second.number ≡ 1) }
{
    let (ann, ann_pass) = Desk::<Account, N>::new(first, Account::new(alloc, "ann")?);
    let (bob, bob_pass) = Desk::<Account, N>::new(second, Account::new(alloc, "bob")?);
    let mut slots = Vec::new(alloc);
    slots.push(Slot::new(ann_pass, ann.table().try_clone()?))?;
    slots.push(Slot::new(bob_pass, bob.table().try_clone()?))?;
    Roster::new(alloc, slots)
}

/// Eight sessions of a user, no ninth one, and one of another user; then no account is left.
fn fill<N: Names>(rt: &impl Abort, alloc: Global, roster: &mut Roster<N>) -> Result<(), Memory> {
    for place in 0..8 {
        let entered = enter(alloc, roster, "ann", "t", 1_000)?;
        assert_eq!(rt; entered, Ok(place));
    }
    let ninth = enter(alloc, roster, "ann", "t", 1_000)?;
    assert_eq!(rt; ninth, Err((2, 8)));
    let other = enter(alloc, roster, "bob", "u", 1_000)?;
    assert_eq!(rt; other, Ok(8));
    let third = enter(alloc, roster, "cy", "v", 1_000)?;
    assert_eq!(rt; third, Err((3, 9)));
    Ok(())
}

/// The place of a new session, or the number of the fault among `EnterFault`'s and its count.
fn enter<N: Names>(
    alloc: Global,
    roster: &mut Roster<N>,
    user: &str,
    token: &str,
    now: i64,
) -> Result<Result<u32, (u8, u32)>, Memory> {
    let user = Text::from_text(alloc, user)?;
    let token = Text::from_text(alloc, token)?;
    let key = Text::from_text(alloc, "key")?;
    match roster.enter(alloc, &user, &token, &key, now) {
        Ok(place) => Ok(Ok(place)),
        Err(EnterFault::Full { live }) => Ok(Err((1, live))),
        Err(EnterFault::AccountFull { live }) => Ok(Err((2, live))),
        Err(EnterFault::NoSlot { live }) => Ok(Err((3, live))),
        Err(EnterFault::Memory) => Err(Memory),
    }
}

/// Bob's session is found, kept for another half an hour, and ended; then the idle ones are gone, and another user enters.
fn find_and_end<N: Names>(
    rt: &impl Abort,
    alloc: Global,
    roster: &mut Roster<N>,
) -> Result<(), Memory> {
    assert_eq!(rt; roster.find(b"u", 2_800), Some(8));
    assert_eq!(rt; roster.find(b"u", 2_801), None);
    let token = Text::from_text(alloc, "u")?;
    keep_found(rt, alloc, roster, &token)?;
    assert_eq!(rt; roster.find(b"u", 3_800), Some(8));
    end(rt, alloc, roster, &token)?;
    let third = enter(alloc, roster, "cy", "v", 2_801)?;
    assert_eq!(rt; third, Ok(0));
    Ok(())
}

/// The session at place 8 ends by its own token alone.
fn end<N: Names>(
    rt: &impl Abort,
    alloc: Global,
    roster: &mut Roster<N>,
    token: &Text,
) -> Result<(), Memory> {
    let other = Text::from_text(alloc, "t")?;
    roster.end(8, &other);
    assert_eq!(rt; roster.find(b"u", 3_800), Some(8));
    roster.end(8, token);
    assert_eq!(rt; roster.find(b"u", 3_800), None);
    Ok(())
}

/// Keeps a copy of the session of a token at the moment 2,000.
fn keep_found<N: Names>(
    rt: &impl Abort,
    alloc: Global,
    roster: &mut Roster<N>,
    token: &Text,
) -> Result<(), Memory> {
    let found = roster.find(token.as_str().as_bytes(), 1_500);
    assert!(rt; found.is_some());
    if let Some(place) = found {
        let session = roster.session(alloc, place)?;
        assert_eq!(rt; session.account, 1);
        assert_eq!(rt; session.last, 1_000);
        roster.keep(place, token, 2_000, session.pass);
    }
    Ok(())
}
