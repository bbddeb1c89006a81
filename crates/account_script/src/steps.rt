//! The steps of a script, and what they come to.
ghost use Rattle.std.specs.Prelude.{◌≡◌, IfOk};
ghost use Rattle.imap_commands.specs.declared.command.Command.TheVariants as commands;
ghost use Rattle.account_script.specs.declared.steps.Act.TheVariants as acts;
ghost use Rattle.mailbox_view.specs.Selections.{box_named};
ghost use Rattle.account_script.specs.Asks.{address_of, folder_of};
ghost use Rattle.account_script.specs.Script.{act_of, act_with, body_act, body_of, check_act, check_size_act, checked, enter_act, fetch_body_act, fetch_changed_act, fetch_new_act, find_act, need_act, progress_of, row_act, row_of, size_act, validity_of, IsFit};

use crate::cause::Cause;
use crate::copies::copy;
use crate::folders::{
    address_of, body_of, folder_of, has_folder, is_selected, known_of, mark_of, next_uid, row_of,
    validity_of,
};
use account_pictures::Address;
use imap_commands::Command;
use mail_talk::Told;
use mail_values::{Memory, Text};
use site_asks::Ask;
use std::alloc::Global;

/// The greatest message that is read, in bytes.
const MESSAGE_LIMIT: u64 = 26_214_400;

/// Who logs in.
#[derive(Drop)]
pub struct Credentials {
    pub user: Text,
    pub password: Text,
}

/// A step of a script. The folder and the message are those of the ask.
#[derive(Clone, Copy, Debug, PartialEq, Eq)]
pub enum Step {
    /// Makes the connection.
    Dial,
    LogIn,
    AskCapabilities,
    Enable,
    /// Lists all folders.
    List,
    /// The account is up from here on.
    Admit,
    /// Lists all folders if the folder isn't told.
    Find,
    /// Stops if the folder isn't told.
    Need,
    /// Selects the folder, or asks for news of it if it is selected.
    Enter,
    /// Fetches the rows after the greatest UID that is kept.
    FetchNew,
    /// Fetches the changes since the mark that was known before the new rows.
    FetchChanged,
    /// Stops if the folder was renewed, or has no such message.
    Check,
    /// Stops if the message is too long to be read.
    CheckSize,
    /// Fetches the message.
    FetchBody,
    /// Stops if no body came.
    NeedBody,
    /// Asks for nothing: the server answers if the connection is there.
    Noop,
    /// Appends the message to the folder of sent messages, if there is one.
    Copy,
}

/// What the steps of a script remember.
#[derive(Clone, Copy, Debug, PartialEq, Eq)]
pub struct Progress {
    /// The account is logged in.
    pub up: bool,
    /// The folder's mark before its new rows were fetched.
    pub mark: u64,
}

/// What a step comes to, after what was told.
#[derive(Drop)]
pub enum Act {
    Skip,
    Dial,
    Say(Command),
    Stop(Cause),
}

/// Returns what a step comes to, in a script that copies no message.
pub fn act_at(
    alloc: Global,
    step: Step,
    who: &Credentials,
    ask: &Ask,
    told: &Told,
    progress: Progress,
) -> Result<Act, Memory>
    ensures equals { IfOk result (λ act. act ≡ act_of step who.now ask.now told.now progress) }
    ensures fits { IfOk result (λ act. IsFit act) }
{
    match step {
        Step::Dial => Ok(Act::Dial),
        Step::LogIn => log_in(alloc, who),
        Step::AskCapabilities => Ok(Act::Say(Command::Capability)),
        Step::Enable => Ok(Act::Say(Command::Enable)),
        Step::List => Ok(Act::Say(Command::List)),
        Step::Admit => Ok(Act::Skip),
        Step::Find => Ok(find(folder_of(ask), told)),
        Step::Need => Ok(need(folder_of(ask), told)),
        Step::Enter => enter(alloc, folder_of(ask), told),
        Step::FetchNew => Ok(fetch_new(folder_of(ask), told)),
        Step::FetchChanged => Ok(fetch_changed(progress.mark)),
        Step::Check => Ok(check(ask, told)),
        Step::CheckSize => Ok(check_size(ask, told)),
        Step::FetchBody => Ok(fetch_body(ask)),
        Step::NeedBody => Ok(need_body(told)),
        Step::Noop => Ok(Act::Say(Command::Noop)),
        Step::Copy => Ok(Act::Skip),
    }
}

/// Returns what a step comes to, in a script that copies `message`.
pub fn act_with(
    alloc: Global,
    message: &[u8],
    step: Step,
    who: &Credentials,
    ask: &Ask,
    told: &Told,
    progress: Progress,
) -> Result<Act, Memory>
    ensures equals { IfOk result (λ act. act ≡ act_with message.now step who.now ask.now told.now progress) }
    ensures fits { IfOk result (λ act. IsFit act) }
{
    match step {
        Step::Copy => copy(alloc, message, told),
        _ => act_at(alloc, step, who, ask, told, progress),
    }
}

/// Returns what a step lets the later ones remember.
pub fn progress_at(step: Step, ask: &Ask, told: &Told, progress: Progress) -> Progress
    ensures { result ≡ progress_of step ask.now told.now progress }
{
    match step {
        Step::Admit => Progress {
            up: true,
            mark: progress.mark,
        },
        Step::FetchNew => Progress {
            up: progress.up,
            mark: mark_of(told, folder_of(ask)),
        },
        _ => progress,
    }
}

fn log_in(alloc: Global, who: &Credentials) -> Result<Act, Memory>
    ensures equals { IfOk result (λ act. act ≡ acts.Say (commands.Login who.now.user who.now.password)) }
    ensures fits { IfOk result (λ act. IsFit act) }
{
    Ok(Act::Say(Command::Login {
        user: Text::from_text(alloc, who.user.as_str())?,
        password: Text::from_text(alloc, who.password.as_str())?,
    }))
}

fn find(folder: &str, told: &Told) -> Act
    ensures { result ≡ find_act folder.now told.now }
{
    if has_folder(told.view().folders(), folder) {
        Act::Skip
    } else {
        Act::Say(Command::List)
    }
}

fn need(folder: &str, told: &Told) -> Act
    ensures { result ≡ need_act folder.now told.now }
{
    if has_folder(told.view().folders(), folder) {
        Act::Skip
    } else {
        Act::Stop(Cause::NoFolder)
    }
}

fn enter(alloc: Global, folder: &str, told: &Told) -> Result<Act, Memory>
    ensures equals { IfOk result (λ act. act ≡ enter_act folder.now told.now) }
    ensures fits { IfOk result (λ act. IsFit act) }
{
    if is_selected(told, folder) {
        return Ok(Act::Say(Command::Noop));
    }
    Ok(Act::Say(Command::Select {
        folder: Text::from_text(alloc, folder)?,
        known: known_of(told, folder),
    }))
}

fn fetch_new(folder: &str, told: &Told) -> Act
    ensures equals { result ≡ fetch_new_act folder.now told.now }
    ensures fits { IsFit result }
{
    Act::Say(Command::FetchNew {
        from: next_uid(told, folder),
    })
}

fn fetch_changed(mark: u64) -> Act
    ensures equals { result ≡ fetch_changed_act mark }
    ensures fits { IsFit result }
{
    if mark == 0 {
        Act::Skip
    } else {
        Act::Say(Command::FetchChanged { mark })
    }
}

fn check(ask: &Ask, told: &Told) -> Act
    ensures equals { result ≡ check_act (address_of ask.now) told.now }
    ensures fits { IsFit result }
{
    match address_of(ask) {
        Some(at) => check_message(at, told),
        None => Act::Skip,
    }
}

fn check_message(at: &Address, told: &Told) -> Act
    ensures equals { result ≡ checked at.now (box_named at.now.folder told.now.view.boxes) }
    ensures fits { IsFit result }
{
    let validity = validity_of(told, at.folder.as_str());
    if at.validity != validity {
        return Act::Stop(Cause::Renewed {
            asked: at.validity,
            told: validity,
        });
    }
    match row_of(told, at) {
        Some(_) => Act::Skip,
        None => Act::Stop(Cause::NoMessage),
    }
}

fn check_size(ask: &Ask, told: &Told) -> Act
    ensures equals { result ≡ check_size_act (address_of ask.now) told.now }
    ensures fits { IsFit result }
{
    match address_of(ask) {
        Some(at) => check_size_of(at, told),
        None => Act::Skip,
    }
}

fn check_size_of(at: &Address, told: &Told) -> Act
    ensures equals { result ≡ size_act (row_of at.now.uid (box_named at.now.folder told.now.view.boxes)) }
    ensures fits { IsFit result }
{
    match row_of(told, at) {
        Some(row) if row.size > MESSAGE_LIMIT => Act::Stop(Cause::LongMessage { size: row.size }),
        _ => Act::Skip,
    }
}

fn fetch_body(ask: &Ask) -> Act
    ensures equals { result ≡ fetch_body_act (address_of ask.now) }
    ensures fits { IsFit result }
{
    match address_of(ask) {
        Some(at) => fetch_body_of(at.uid),
        None => Act::Skip,
    }
}

fn fetch_body_of(uid: u32) -> Act
    ensures equals { result ≡ acts.Say (commands.FetchBody uid) }
    ensures fits { IsFit result }
{
    Act::Say(Command::FetchBody { uid })
}

fn need_body(told: &Told) -> Act
    ensures equals { result ≡ body_act (body_of told.now.results.message) }
    ensures fits { IsFit result }
{
    match body_of(told) {
        Some(_) => Act::Skip,
        None => Act::Stop(Cause::NoMessage),
    }
}
