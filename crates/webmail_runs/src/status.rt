//! The statuses of the program.
ghost use Rattle.std.specs.Prelude.{◌≡◌};
ghost use Rattle.webmail_runs.specs.Outcomes.{status_text};

/// The exit status of the process.
pub type Status = u8;

/// The whole page was written.
pub const DONE: Status = 0;

/// The words of the command line have no form that the program knows.
pub const WRONG_WORDS: Status = 2;

/// The source of the message failed.
pub const READ_FAULT: Status = 3;

/// The sink of the page failed; a prefix of the page was written.
pub const WRITE_FAULT: Status = 4;

pub const OUT_OF_MEMORY: Status = 5;

/// The message is longer than the limit.
pub const TOO_LONG: Status = 6;

/// What was requested isn't built. No run ends so today.
pub const NOT_BUILT: Status = 7;

/// The message has no text of that section.
pub const NO_SUCH_PART: Status = 8;

/// The line that is written to standard error at a status: none at success, and none at an unknown status.
#[tactic(auto, unfolding(crate::specs::Outcomes::status_text, crate::specs::Outcomes::line_among))]
pub fn status_line(status: Status) -> &'static str
    ensures { result.now ≡ status_text status }
{
    match status {
        WRONG_WORDS => "webmail: wrong words",
        READ_FAULT => "webmail: read fault",
        WRITE_FAULT => "webmail: write fault",
        OUT_OF_MEMORY => "webmail: out of memory",
        TOO_LONG => "webmail: message too long",
        NOT_BUILT => "webmail: not built",
        NO_SUCH_PART => "webmail: no such part",
        _ => "",
    }
}
