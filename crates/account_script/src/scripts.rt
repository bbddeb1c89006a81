//! The steps of an ask.
ghost use Rattle.std.specs.Prelude.{◌≡◌, ◌++◌, IfOk, OnOk};
ghost use Rattle.account_script.specs.Asks.{ask_steps, copy_steps, script_of, script_with};

use crate::steps::Step;
use mail_values::Memory;
use site_asks::Ask;
use std::alloc::Global;

const LOGIN: [Step; 6] = [
    Step::Dial,
    Step::LogIn,
    Step::AskCapabilities,
    Step::Enable,
    Step::List,
    Step::Admit,
];

const CATCH_UP: [Step; 5] = [
    Step::Find,
    Step::Need,
    Step::Enter,
    Step::FetchNew,
    Step::FetchChanged,
];

const READ_MESSAGE: [Step; 4] = [
    Step::Check,
    Step::CheckSize,
    Step::FetchBody,
    Step::NeedBody,
];

/// Returns the steps of an ask of an account that is up, or down.
pub fn script(alloc: Global, ask: &Ask, up: bool) -> Result<Vec<Step>, Memory>
    ensures { IfOk result (λ steps. steps.items ≡ script_of ask.now up) }
{
    let mut steps = Vec::new(alloc);
    if !up {
        steps.extend_from_slice(&LOGIN)?;
    }
    push_steps(&mut steps, ask)?;
    Ok(steps)
}

/// Returns the steps that copy a message to the folder of sent messages.
pub fn copy_script(alloc: Global, up: bool) -> Result<Vec<Step>, Memory>
    ensures { IfOk result (λ steps. steps.items ≡ script_with copy_steps up) }
{
    let mut steps = Vec::new(alloc);
    if !up {
        steps.extend_from_slice(&LOGIN)?;
    }
    steps.push(Step::Copy)?;
    Ok(steps)
}

fn push_steps(steps: &mut Vec<Step>, ask: &Ask) -> Result<(), Memory>
    ensures { OnOk result (steps.new.items ≡ steps.old.items ++ ask_steps ask.now) }
{
    match ask {
        Ask::Folders => steps.push(Step::List)?,
        Ask::List { .. } => steps.extend_from_slice(&CATCH_UP)?,
        Ask::Show { .. } | Ask::Part { .. } => {
            steps.extend_from_slice(&CATCH_UP)?;
            steps.extend_from_slice(&READ_MESSAGE)?;
        }
        Ask::SendDraft { .. } => steps.push(Step::Noop)?,
        _ => {}
    }
    Ok(())
}
