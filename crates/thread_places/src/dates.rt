//! The order of messages by the date of sending.
ghost use Rattle.std.specs.Prelude.{◌≡◌, ◌<◌, IfOk, length};
ghost use Rattle.std.specs.List.{All};
ghost use Rattle.thread_places.specs.Dates.{dates_from, date_order};

use crate::facts::Facts;
use std::alloc::{AllocError, Global};

/// Returns when each message was sent, and its place.
fn dates(alloc: Global, facts: &[Facts]) -> Result<Vec<(i64, usize)>, AllocError>
    ensures { IfOk result (λ dates. dates.items ≡ dates_from 0 facts.now) }
{
    let mut dates = Vec::with_capacity(alloc, facts.len())?;
    for place in 0..facts.len() {
        dates.push((facts[place].sent, place))?;
    }
    Ok(dates)
}

/// Returns the places of messages in the order of their dates.
pub fn date_order(alloc: Global, facts: &[Facts]) -> Result<Vec<usize>, AllocError>
    ensures order { IfOk result (λ order. order.items ≡ date_order facts.now) }
    ensures inside { IfOk result (λ order. All (λ place. place < length facts.now) order.items) }
{
    let mut dates = dates(alloc, facts)?;
    dates.sort()?;
    let mut order = Vec::with_capacity(alloc, dates.len())?;
    for date in &dates {
        order.push(date.1)?;
    }
    Ok(order)
}
