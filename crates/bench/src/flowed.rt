//! Text of `format=flowed`.

use flowed_text::{Memory, Para, read_flowed, write_flowed};
use mail_values::Text;
use std::alloc::Global;

pub fn count_paragraphs(alloc: Global, input: &str, del_sp: bool) -> Result<usize, Memory> {
    Ok(read_flowed(alloc, input, del_sp)?.len())
}

/// Length in bytes of the input written as one paragraph of this quote depth.
pub fn written_len(alloc: Global, input: &str, depth: u32) -> Result<usize, Memory> {
    let text = Text::from_text(alloc, input)?;
    Ok(write_flowed(alloc, &[Para { depth, text }])?.len())
}
