//! Takes one unit of what was heard.
ghost use Rattle.std.specs.Prelude.{◌≡◌, true, is_some, IfOk, OnOk};
ghost use Rattle.imap_grammar.specs.Response.{response_of};
ghost use Rattle.mail_talk.specs.States.{is_listening};
ghost use Rattle.mail_talk.specs.Taking.{unit_told, TakesUnit};

use crate::Told;
use imap_framing::UnitReader;
use imap_grammar::read_response;
use mail_values::Memory;
use std::alloc::Global;

/// What stands at the front of what was heard.
#[derive(Clone, Copy)]
pub enum Taken {
    /// A response of that many bytes, which was applied.
    Response(u64),
    /// An incomplete unit.
    Incomplete,
    /// A unit that is no response, or has a literal that is too long.
    Damage,
}

/// Applies a unit at an offset. Returns whether it is a response.
fn tell_unit(alloc: Global, told: &mut Told, unit: &[u8], at: u64) -> Result<bool, Memory>
    ensures is_response { IfOk result (λ is. is ≡ is_some (response_of unit.now)) }
    ensures tells { OnOk result (told.new ≡ unit_told (response_of unit.now) at told.old) }
{
    match read_response(alloc, unit)? {
        Some(response) => {
            told.hear(&response, at)?;
            Ok(true)
        }
        None => {
            told.damage();
            Ok(false)
        }
    }
}

/// Takes the unit at the front of what was heard, whose offset is `at`.
pub fn take_unit(
    alloc: Global,
    told: &mut Told,
    units: &mut UnitReader,
    at: u64,
) -> Result<Taken, Memory>
    requires { is_listening told.old.phase ≡ true }
    ensures { TakesUnit told.old units.old.rest at result told.new units.new.rest }
{
    match units.advance() {
        Ok(true) => {
            let len = units.unit().len() as u64;
            if tell_unit(alloc, told, units.unit(), at)? {
                Ok(Taken::Response(len))
            } else {
                Ok(Taken::Damage)
            }
        }
        Ok(false) => Ok(Taken::Incomplete),
        Err(_) => {
            told.damage();
            Ok(Taken::Damage)
        }
    }
}
