//! The records of accounts in memory, call by call.
ghost use Rattle.std.specs.Prelude.{◌≡◌, IsSome, OnOk};

use mail_values::Memory;
use record_io::{Identity, KeepFault, Keeper, MemoryKeeper, SendState, Text};
use std::alloc::Global;
use std::test::*;

/// What a reader sees of an account: its identities as one text, and the states of the forms 1, 2 and 3.
fn read<K: Keeper>(alloc: Global, keeper: &mut K) -> Result<String, KeepFault>
    requires { IsSome (K.adopted keeper.old) }
    ensures { K.adopted keeper.new ≡ K.adopted keeper.old }
{
    let mut seen = String::new(alloc);
    for (number, identity) in keeper.identities(alloc)? {
        let line = format!(in alloc;
            "{number} {} {};",
            identity.name.as_str(),
            identity.address.as_str()
        )?;
        seen.push_str(&line)?;
    }
    seen.push_str(state_name(&keeper.send_state(alloc, 1)?))?;
    seen.push_str(state_name(&keeper.send_state(alloc, 2)?))?;
    seen.push_str(state_name(&keeper.send_state(alloc, 3)?))?;
    Ok(seen)
}

fn state_name(state: &Option<SendState>) -> &'static str {
    match state {
        Some(SendState::Started) => " started",
        Some(SendState::Done) => " done",
        Some(SendState::Doubt) => " doubt",
        None => " -",
    }
}

fn identity(alloc: Global, name: &str, address: &str) -> Result<Identity, Memory> {
    Ok(Identity {
        name: Text::from_text(alloc, name)?,
        address: Text::from_text(alloc, address)?,
    })
}

/// Adopts an account, and puts in an identity and the state of form 1. These are three calls.
fn begin<K: Keeper>(alloc: Global, keeper: &mut K) -> Result<(), KeepFault>
    ensures { OnOk result (IsSome (K.adopted keeper.new)) }
{
    keeper.adopt(alloc, "ann")?;
    keeper.put_identity(alloc, 3, &identity(alloc, "Ann", "ann@c.example")?)?;
    keeper.set_send(alloc, 1, Some(SendState::Started))
}

/// Makes one call of a kind.
fn call<K: Keeper>(alloc: Global, keeper: &mut K, kind: u8) -> Result<(), KeepFault>
    requires { IsSome (K.adopted keeper.old) }
    ensures { IsSome (K.adopted keeper.new) }
{
    match kind {
        0 => keeper.adopt(alloc, "bob"),
        1 => keeper.put_identity(alloc, 3, &identity(alloc, "Bea", "bea@c.example")?),
        2 => keeper.put_identity(alloc, 1, &identity(alloc, "", "a@c.example")?),
        3 => keeper.set_send(alloc, 1, Some(SendState::Done)),
        4 => keeper.set_send(alloc, 2, Some(SendState::Doubt)),
        _ => keeper.set_send(alloc, 1, None),
    }
}

/// What is read after the call of a kind that succeeds, or fails once before.
fn read_after(alloc: Global, kind: u8, failing: u64) -> Result<String, KeepFault> {
    let mut keeper = MemoryKeeper::new(alloc, Vec::from_slice(alloc, &[failing])?);
    begin(alloc, &mut keeper)?;
    let first = call(alloc, &mut keeper, kind);
    let mut seen = read(alloc, &mut keeper)?;
    if first.is_err() {
        seen.push_str(" failed")?;
    }
    Ok(seen)
}

#[test]
fn calls_change_one_thing(rt: HostRuntime) -> Result<(), Fail> {
    let alloc: Global = rt.alloc();
    let ann = "3 Ann ann@c.example; started - -";
    for (kind, wanted) in [
        (0, " - - -"),
        (1, "3 Bea bea@c.example; started - -"),
        (2, "1  a@c.example;3 Ann ann@c.example; started - -"),
        (3, "3 Ann ann@c.example; done - -"),
        (4, "3 Ann ann@c.example; started doubt -"),
        (5, "3 Ann ann@c.example; - - -"),
    ] {
        let after = read_after(alloc, kind, 0);
        assert_eq!(rt; after.as_deref(), Ok(wanted), "call {kind}");
        let after = read_after(alloc, kind, 4);
        assert_eq!(rt;
            after.as_deref().map(|seen| seen.strip_suffix(" failed")),
            Ok(Some(ann)),
            "failed call {kind}"
        );
    }
    Ok(())
}

/// What is read where two reads fail, and of two accounts in turn.
fn use_accounts(alloc: Global) -> Result<String, KeepFault> {
    let mut keeper = MemoryKeeper::new(alloc, Vec::from_slice(alloc, &[5, 6])?);
    let mut seen = String::new(alloc);
    begin(alloc, &mut keeper)?;
    push_read(alloc, &mut keeper, &mut seen)?;
    push_read(alloc, &mut keeper, &mut seen)?;
    push_read(alloc, &mut keeper, &mut seen)?;
    call(alloc, &mut keeper, 0)?;
    push_read(alloc, &mut keeper, &mut seen)?;
    call(alloc, &mut keeper, 4)?;
    push_read(alloc, &mut keeper, &mut seen)?;
    keeper.adopt(alloc, "ann")?;
    push_read(alloc, &mut keeper, &mut seen)?;
    Ok(seen)
}

/// Appends what is read and a bar, or only the bar if the read fails.
fn push_read<K: Keeper>(alloc: Global, keeper: &mut K, seen: &mut String) -> Result<(), Memory>
    requires { IsSome (K.adopted keeper.old) }
    ensures { K.adopted keeper.new ≡ K.adopted keeper.old }
{
    match read(alloc, keeper) {
        Ok(text) => seen.push_str(text.as_str())?,
        Err(_) => {}
    }
    seen.push('|')
}

#[test]
fn reads_fail_and_accounts_stay_apart(rt: HostRuntime) -> Result<(), Fail> {
    let alloc: Global = rt.alloc();
    let seen = use_accounts(alloc);
    let ann = "3 Ann ann@c.example; started - -|";
    let wanted = format!(in alloc; "||{ann} - - -| - doubt -|{ann}")?;
    assert_eq!(rt; seen.as_deref(), Ok(wanted.as_str()));
    Ok(())
}
