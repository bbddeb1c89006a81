//! Why a caller's bytes are no ask.
ghost use Rattle.std.specs.Prelude.{◌≡◌};
ghost use Rattle.http_front.specs.Faults.{IsHeadFault, route_fault};

use http_heads::HeadFault;
use http_routes::RouteFault;
use mail_io::Failed;
use mail_values::Text;
use std::alloc::{AllocError, Global};

/// Why a caller's bytes are no ask.
#[derive(Drop)]
pub enum AskFault {
    /// The caller's count of faults rose before its request was whole.
    Cut,
    /// No continuation of the first 16,384 bytes is the head of a request, and they don't end within its target.
    NotHttp,
    /// The head has more than 16,384 bytes, or more than 64 fields.
    Head,
    /// The head has a Transfer-Encoding.
    Coding,
    /// A field is missing, occurs twice, or its value doesn't read: Content-Length, or a field of the route.
    Field { name: Text },
    /// The body is longer than 1,048,576 bytes.
    Body { bytes: u64 },
    /// No route has the method and the path.
    NoRoute,
    Memory,
}

impl From<AllocError> for AskFault {
    ghost use Rattle.http_front.specs.declared.faults.AskFault.TheVariants.{Memory};

    ghost from_gives = { λ _ e. e ≡ Memory };

    fn from(_: AllocError) -> Self {
        AskFault::Memory
    }
}

impl From<Failed> for AskFault {
    ghost use Rattle.http_front.specs.declared.faults.AskFault.TheVariants.{Cut};

    ghost from_gives = { λ _ e. e ≡ Cut };

    fn from(_: Failed) -> Self {
        AskFault::Cut
    }
}

/// Returns the fault of a head that is refused.
pub fn head_fault(alloc: Global, fault: HeadFault) -> AskFault
    ensures { IsHeadFault fault result }
{
    match fault {
        HeadFault::TooLarge => AskFault::Head,
        HeadFault::Coding => AskFault::Coding,
        HeadFault::Length => match Text::from_text(alloc, "Content-Length") {
            Ok(name) => AskFault::Field { name },
            Err(_) => AskFault::Memory,
        },
        HeadFault::Body { bytes } => AskFault::Body { bytes },
    }
}

/// Returns the fault of a request without a route, or with a faulty field.
pub fn route_fault(fault: RouteFault) -> AskFault
    ensures { result ≡ route_fault fault }
{
    match fault {
        RouteFault::NoRoute => AskFault::NoRoute,
        RouteFault::Field { name } => AskFault::Field { name },
        RouteFault::Memory => AskFault::Memory,
    }
}
