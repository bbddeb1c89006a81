//! The routes of the site.
ghost use Rattle.std.specs.Prelude.{◌≡◌, IfOk, Some, None, find, map, option_map};
ghost use Rattle.std.specs.List.{list_all};
ghost use Rattle.std.specs.Option.{option_copied};
ghost use Rattle.http_routes.specs.Routes.{fits, is_nonempty, row_of, row_seen, texts_seen, words_of};

use std::alloc::{AllocError, Global};

/// What a route is for.
#[derive(Clone, Copy)]
pub enum Route {
    Folders,
    List,
    Threads,
    Search,
    Show,
    Part,
    Compose,
    Identities,
    LoginPage,
    Sheet,
    Login,
    Logout,
    Flag,
    Move,
    Delete,
    SaveDraft,
    SendDraft,
    SetIdentity,
}

/// A route: its method, the first word of its path, the names of the path's other words, and the names of its fields.
#[derive(Clone, Copy)]
pub struct Row {
    pub method: &'static str,
    pub word: &'static str,
    pub parameters: &'static [&'static str],
    pub fields: &'static [&'static str],
    pub route: Route,
}

/// The fields of a draft.
const DRAFT: [&str; 11] = [
    "key", "form", "identity", "to", "cc", "subject", "text", "refs", "f", "v", "u",
];

const ROUTES: [Row; 18] = [
    Row {
        method: "GET",
        word: "",
        parameters: &[],
        fields: &[],
        route: Route::Folders,
    },
    Row {
        method: "GET",
        word: "list",
        parameters: &[],
        fields: &["f", "p"],
        route: Route::List,
    },
    Row {
        method: "GET",
        word: "threads",
        parameters: &[],
        fields: &["f", "p"],
        route: Route::Threads,
    },
    Row {
        method: "GET",
        word: "search",
        parameters: &[],
        fields: &["f", "p", "q"],
        route: Route::Search,
    },
    Row {
        method: "GET",
        word: "show",
        parameters: &["v", "u"],
        fields: &["f", "images", "part"],
        route: Route::Show,
    },
    Row {
        method: "GET",
        word: "part",
        parameters: &["v", "u", "s"],
        fields: &["f"],
        route: Route::Part,
    },
    Row {
        method: "GET",
        word: "compose",
        parameters: &[],
        fields: &["f", "v", "u", "how"],
        route: Route::Compose,
    },
    Row {
        method: "GET",
        word: "identities",
        parameters: &[],
        fields: &[],
        route: Route::Identities,
    },
    Row {
        method: "GET",
        word: "login",
        parameters: &[],
        fields: &[],
        route: Route::LoginPage,
    },
    Row {
        method: "GET",
        word: "site.css",
        parameters: &[],
        fields: &[],
        route: Route::Sheet,
    },
    Row {
        method: "POST",
        word: "login",
        parameters: &[],
        fields: &["user", "password"],
        route: Route::Login,
    },
    Row {
        method: "POST",
        word: "logout",
        parameters: &[],
        fields: &["key"],
        route: Route::Logout,
    },
    Row {
        method: "POST",
        word: "flag",
        parameters: &[],
        fields: &["key", "f", "v", "u", "flag", "on"],
        route: Route::Flag,
    },
    Row {
        method: "POST",
        word: "move",
        parameters: &[],
        fields: &["key", "f", "v", "u", "to"],
        route: Route::Move,
    },
    Row {
        method: "POST",
        word: "delete",
        parameters: &[],
        fields: &["key", "f", "v", "u"],
        route: Route::Delete,
    },
    Row {
        method: "POST",
        word: "draft",
        parameters: &[],
        fields: &DRAFT,
        route: Route::SaveDraft,
    },
    Row {
        method: "POST",
        word: "send",
        parameters: &[],
        fields: &DRAFT,
        route: Route::SendDraft,
    },
    Row {
        method: "POST",
        word: "identities",
        parameters: &[],
        fields: &["key", "number", "name", "address"],
        route: Route::SetIdentity,
    },
];

/// Returns the words between the slashes of a path.
pub fn words_of(alloc: Global, path: &str) -> Result<Vec<&str>, AllocError>
    ensures { IfOk result (λ words. texts_seen words.items ≡ words_of path.now) }
{
    path.split('/').collect(alloc)
}

fn is_nonempty(word: &str) -> bool
    ensures { result ≡ is_nonempty word.now }
{
    !word.is_empty()
}

/// Whether each word has a byte.
fn are_nonempty(words: &[&str]) -> bool
    ensures { result ≡ list_all is_nonempty (texts_seen words.now) }
{
    let mut rest = words;
    while let [word, more @ ..] = rest {
        if !is_nonempty(word) {
            return false;
        }
        rest = more;
    }
    true
}

/// Whether a request has the method and the path of a row.
fn fits(method: &[u8], words: &[&str], row: &Row) -> bool
    ensures { result ≡ fits method.now (texts_seen words.now) (row_seen row.now) }
{
    match words {
        [first, word, parameters @ ..] if first.is_empty() => {
            row.method.as_bytes() == method
                && row.word == *word
                && parameters.len() == row.parameters.len()
                && are_nonempty(parameters)
        }
        _ => false,
    }
}

/// Returns the first of the rows that a request has.
fn row_among(rows: &'static [Row], method: &[u8], words: &[&str]) -> Option<&'static Row>
    ensures { option_map row_seen (option_copied result) ≡ find (fits method.now (texts_seen words.now)) (map row_seen rows.now) }
{
    let mut rest = rows;
    while let [row, more @ ..] = rest {
        if fits(method, words, row) {
            return Some(row);
        }
        rest = more;
    }
    None
}

/// Returns the row of a request.
#[tactic(auto, unfolding(crate::specs::Routes::routes))]
pub fn row_of(method: &[u8], words: &[&str]) -> Option<&'static Row>
    ensures { option_map row_seen (option_copied result) ≡ row_of method.now (texts_seen words.now) }
{
    row_among(&ROUTES, method, words)
}
