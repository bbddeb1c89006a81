//! The kinds of work, by their names on the command line.

use crate::washing::Choice;
use crate::{
    asks, codings, drafts, flowed, hearing, parts, references, responses, threads, tokens, washing,
};
use std::alloc::{AllocError, Global};
use std::str::from_utf8;
use transfer_codings::Coding;

#[derive(Clone, Copy)]
pub enum Work {
    Decode(Coding),
    EncodeBase64,
    EncodeQuoted,
    Tree,
    /// Addresses, one a line, below a long base or without one.
    Refer { below_base: bool },
    /// Responses of a stream that comes in pieces of this many bytes.
    Responses { piece: usize },
    /// The answer to a fetch of all messages of a folder, heard in pieces of this many bytes.
    Hear { piece: usize },
    ReadFlowed { del_sp: bool },
    WriteFlowed { depth: u32 },
    Build,
    /// A request that comes in pieces of this many bytes.
    Asks { piece: usize },
    Spans,
    Tags,
    Tokens,
    PrintTokens,
    Wash(Choice),
    PrintWash,
    ReadFacts,
    Threads,
    ListThreads,
    AddThreads,
    AddAllThreads,
    PrintThreads,
}

/// The input as bytes and, if it is UTF-8, as text; the text of other input is empty.
#[derive(Drop)]
pub struct Input<'a> {
    pub bytes: &'a [u8],
    pub text: &'a str,
}

impl<'a> Input<'a> {
    pub fn new(bytes: &'a [u8]) -> Self {
        Input {
            bytes,
            text: from_utf8(bytes).unwrap_or(""),
        }
    }
}

pub fn work_named(word: &str) -> Option<Work> {
    match word {
        "decode-base64" => Some(Work::Decode(Coding::Base64)),
        "decode-quoted" => Some(Work::Decode(Coding::Quoted)),
        "encode-base64" => Some(Work::EncodeBase64),
        "encode-quoted" => Some(Work::EncodeQuoted),
        "tree" => Some(Work::Tree),
        "refer" => Some(Work::Refer { below_base: false }),
        "refer-below" => Some(Work::Refer { below_base: true }),
        "responses" => Some(Work::Responses { piece: usize::MAX }),
        "responses-4096" => Some(Work::Responses { piece: 4096 }),
        "responses-64" => Some(Work::Responses { piece: 64 }),
        "responses-1" => Some(Work::Responses { piece: 1 }),
        "hear" => Some(Work::Hear { piece: usize::MAX }),
        "hear-65536" => Some(Work::Hear { piece: 65_536 }),
        "hear-64" => Some(Work::Hear { piece: 64 }),
        "hear-1" => Some(Work::Hear { piece: 1 }),
        "read-flowed" => Some(Work::ReadFlowed { del_sp: false }),
        "read-flowed-del-sp" => Some(Work::ReadFlowed { del_sp: true }),
        "write-flowed" => Some(Work::WriteFlowed { depth: 0 }),
        "write-flowed-quoted" => Some(Work::WriteFlowed { depth: 80 }),
        "build" => Some(Work::Build),
        "asks" => Some(Work::Asks { piece: usize::MAX }),
        "asks-1" => Some(Work::Asks { piece: 1 }),
        "spans" => Some(Work::Spans),
        "tags" => Some(Work::Tags),
        "tokens" => Some(Work::Tokens),
        "print-tokens" => Some(Work::PrintTokens),
        "wash" => Some(Work::Wash(Choice {
            images: false,
            below_base: false,
        })),
        "wash-images" => Some(Work::Wash(Choice {
            images: true,
            below_base: false,
        })),
        "wash-below" => Some(Work::Wash(Choice {
            images: false,
            below_base: true,
        })),
        "print-wash" => Some(Work::PrintWash),
        "read-facts" => Some(Work::ReadFacts),
        "threads" => Some(Work::Threads),
        "list-threads" => Some(Work::ListThreads),
        "add-threads" => Some(Work::AddThreads),
        "add-all-threads" => Some(Work::AddAllThreads),
        "print-threads" => Some(Work::PrintThreads),
        _ => None,
    }
}

/// Does the work once, and returns how many bytes, parts, references, responses, rows, paragraphs, spans, attributes, tokens, facts, roots of threads, asks or bytes of a page or a message came of it.
pub fn perform(alloc: Global, work: Work, input: &Input<'_>) -> Result<usize, AllocError> {
    match work {
        Work::Decode(_) | Work::EncodeBase64 | Work::EncodeQuoted => {
            Ok(codings::result_of(alloc, work, input.bytes)?.len())
        }
        Work::Tree => parts::count_parts(alloc, input.bytes),
        Work::Refer { below_base } => references::count_references(alloc, input.text, below_base),
        Work::Responses { piece } => responses::count_responses(alloc, input.bytes, piece),
        Work::Hear { piece } => hearing::count_rows(alloc, input.bytes, piece),
        Work::ReadFlowed { del_sp } => flowed::count_paragraphs(alloc, input.text, del_sp),
        Work::WriteFlowed { depth } => flowed::written_len(alloc, input.text, depth),
        Work::Build => Ok(drafts::built(alloc, input.text)?.len()),
        Work::Asks { piece } => asks::count_asks(alloc, input.bytes, piece),
        Work::Spans => Ok(tokens::count_spans(input.text)),
        Work::Tags => Ok(tokens::count_attributes(input.text)),
        Work::Tokens => tokens::count_tokens(alloc, input.text),
        Work::PrintTokens => Ok(tokens::print_tokens(alloc, input.text)?.len()),
        Work::Wash(choice) => washing::washed_len(alloc, input.text, choice),
        Work::PrintWash => Ok(washing::print_pages(alloc, input.text)?.len()),
        Work::ReadFacts => threads::count_facts(alloc, input.text),
        Work::Threads => threads::count_roots(alloc, input.text),
        Work::ListThreads => threads::count_rows(alloc, input.text),
        Work::AddThreads => threads::count_added(alloc, input.text),
        Work::AddAllThreads => threads::count_added_at_once(alloc, input.text),
        Work::PrintThreads => Ok(threads::list_threads(alloc, input.text)?.len()),
    }
}

/// Does the work once, and returns its result as bytes: a listing, or a count if nothing more is to be seen.
pub fn result_of(alloc: Global, work: Work, input: &Input<'_>) -> Result<Vec<u8>, AllocError> {
    match work {
        Work::Decode(_) | Work::EncodeBase64 | Work::EncodeQuoted => {
            codings::result_of(alloc, work, input.bytes)
        }
        Work::Tree => Ok(parts::list_parts(alloc, input.bytes)?.into_bytes()),
        Work::Responses { piece } => {
            Ok(responses::list_counts(alloc, input.bytes, piece)?.into_bytes())
        }
        Work::Build => drafts::built(alloc, input.text),
        Work::PrintTokens => Ok(tokens::print_tokens(alloc, input.text)?.into_bytes()),
        Work::PrintWash => washing::print_pages(alloc, input.text),
        Work::PrintThreads => Ok(threads::list_threads(alloc, input.text)?.into_bytes()),
        Work::Refer { .. }
        | Work::ReadFlowed { .. }
        | Work::WriteFlowed { .. }
        | Work::Asks { .. }
        | Work::Spans
        | Work::Tags
        | Work::Tokens
        | Work::Wash(_)
        | Work::Hear { .. }
        | Work::ReadFacts
        | Work::Threads
        | Work::AddThreads
        | Work::AddAllThreads
        | Work::ListThreads => {
            let count = perform(alloc, work, input)?;
            Ok(format!(in alloc; "{count}\n")?.into_bytes())
        }
    }
}
