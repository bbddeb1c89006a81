//! A caller that is generic in its keeper.
ghost use Rattle.std.specs.Prelude.{◌≡◌, IsSome};
ghost use Rattle.record_io.specs.Keepers.{HasKeepCause};

use record_io::{KeepFault, Keeper, MemoryKeeper, SendState};
use std::alloc::Global;
use std::test::*;

/// Takes note that a form is being sent, unless it has a state already.
fn begin_send<K: Keeper>(alloc: Global, keeper: &mut K, form: u64) -> Result<bool, KeepFault>
    requires { IsSome (K.adopted keeper.old) }
    ensures cause { HasKeepCause (K.faults keeper.old) (K.faults keeper.new) result }
    ensures adopted { K.adopted keeper.new ≡ K.adopted keeper.old }
{
    if keeper.send_state(alloc, form)?.is_some() {
        return Ok(false);
    }
    keeper.set_send(alloc, form, Some(SendState::Started))?;
    Ok(true)
}

#[test]
fn a_form_is_begun_once(rt: HostRuntime) -> Result<(), Fail> {
    let alloc: Global = rt.alloc();
    let mut keeper = MemoryKeeper::new(alloc, vec![in alloc; 3]?);
    assert_eq!(rt; keeper.adopt(alloc, "ann"), Ok(()));
    assert_eq!(rt; begin_send(alloc, &mut keeper, 42), Err(KeepFault::Failed));
    assert_eq!(rt; begin_send(alloc, &mut keeper, 42), Ok(true));
    assert_eq!(rt; begin_send(alloc, &mut keeper, 42), Ok(false));
    assert_eq!(rt; begin_send(alloc, &mut keeper, 43), Ok(true));
    Ok(())
}
