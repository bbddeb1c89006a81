//! What a view keeps of a server's answer, if it is heard in pieces.
use imap_commands::Command;
use mail_talk::Listener;
use mail_values::Text;
use std::alloc::{AllocError, Global};

/// The number of rows that a folder has after the answer to a fetch of all was heard, which begins with `A2`.
pub fn count_rows(alloc: Global, answer: &[u8], piece: usize) -> Result<usize, AllocError> {
    let mut listener = select_folder(alloc)?;
    listener.said(&Command::FetchNew { from: 1 })?;
    for piece in answer.chunks(piece.max(1)) {
        listener.hear(piece)?;
    }
    Ok(
        listener
            .told()
            .view()
            .selected()
            .map_or(0, |folder| folder.rows().len()),
    )
}

/// A talk in which a folder was selected.
fn select_folder(alloc: Global) -> Result<Listener, AllocError> {
    let mut listener = Listener::new(alloc);
    listener.dialled(true);
    listener.hear(b"* OK hi\r\n")?;
    listener.said(&Command::Select {
        folder: Text::from_text(alloc, "INBOX")?,
        known: None,
    })?;
    listener.hear(b"* OK [UIDVALIDITY 8] x\r\nA1 OK x\r\n")?;
    Ok(listener)
}
