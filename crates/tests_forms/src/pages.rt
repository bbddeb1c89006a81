//! Pages with forms.
use account_pictures::Identity;
use draft_sources::new_draft;
use form_pages::{PageBytes, compose_page, fault_page, identity_page, login_page};
use mail_values::{Memory, Text};
use std::alloc::Global;
use std::test::Fail;

/// What every page begins with, up to its title.
const HEAD: &str = "<!DOCTYPE html>\n<html lang=\"en\"><head><meta charset=\"utf-8\"><title>";

const BODY: &str = "</title><link rel=\"stylesheet\" href=\"/site.css\"></head>\n<body>";

/// The links of a page of a session.
const NAV: &str =
    "<p class=\"nav\"><a href=\"/\">Folders</a> <a href=\"/compose\">Compose</a> <a href=\"/identities\">Identities</a></p>\n";

const END: &str = "\n</body></html>\n";

/// The fields of an empty draft.
const FIELDS: &str =
    "<input type=\"hidden\" name=\"key\" value=\"k\"><input type=\"hidden\" name=\"form\" value=\"000000000000002a\"><input type=\"hidden\" name=\"refs\" value=\"\"><input type=\"text\" name=\"identity\" value=\"1\"><input type=\"text\" name=\"to\" value=\"\"><input type=\"text\" name=\"cc\" value=\"\"><input type=\"text\" name=\"subject\" value=\"\"><textarea name=\"text\" rows=\"20\" cols=\"76\">\n</textarea>";

/// Joins the pieces of a page.
fn joined(alloc: Global, pieces: &[&str]) -> Result<String, Memory> {
    let mut page = String::new(alloc);
    for piece in pieces {
        page.push_str(*piece)?;
    }
    Ok(page)
}

/// Whether a page has these bytes. A page without long texts has one piece.
fn is_page(page: &PageBytes, want: &str) -> bool {
    let (segments, tail) = page.parts();
    segments.is_empty() && tail == want.as_bytes()
}

#[test]
fn writes_a_draft(rt: HostRuntime) -> Result<(), Fail> {
    let alloc: Global = rt.alloc();
    let key = Text::from_text(alloc, "k")?;
    let page = compose_page(alloc, &key, &new_draft(alloc, 42, 1))?;
    let want = joined(
        alloc,
        &[
            HEAD,
            "Compose",
            BODY,
            NAV,
            "<h1>Compose</h1>\n<form method=\"post\" action=\"/send\">",
            FIELDS,
            "<button>Send</button></form><form method=\"post\" action=\"/draft\">",
            FIELDS,
            "<button>Save draft</button></form>",
            END,
        ],
    )?;
    assert!(rt; is_page(&page, &want));
    Ok(())
}

#[test]
fn writes_identities(rt: HostRuntime) -> Result<(), Fail> {
    let alloc: Global = rt.alloc();
    let key = Text::from_text(alloc, "k")?;
    let ann = Identity {
        name: Text::from_text(alloc, "<Ann>")?,
        address: Text::from_text(alloc, "ann@c.example")?,
    };
    let kept = vec![in alloc; (1, ann)]?;
    let page = identity_page(alloc, &key, &kept)?;
    let want = joined(
        alloc,
        &[
            HEAD,
            "Identities",
            BODY,
            NAV,
            "<h1>Identities</h1>\n<form method=\"post\" action=\"/identities\"><input type=\"hidden\" name=\"key\" value=\"k\"><input type=\"hidden\" name=\"number\" value=\"1\"><input type=\"text\" name=\"name\" value=\"&lt;Ann&gt;\"><input type=\"text\" name=\"address\" value=\"ann@c.example\"><button>Save</button></form>",
            "<form method=\"post\" action=\"/identities\"><input type=\"hidden\" name=\"key\" value=\"k\"><input type=\"hidden\" name=\"number\" value=\"2\"><input type=\"text\" name=\"name\" value=\"\"><input type=\"text\" name=\"address\" value=\"\"><button>Save</button></form>",
            END,
        ],
    )?;
    assert!(rt; is_page(&page, &want));
    Ok(())
}

#[test]
fn writes_a_login(rt: HostRuntime) -> Result<(), Fail> {
    let alloc: Global = rt.alloc();
    let page = login_page(alloc)?;
    let want = joined(
        alloc,
        &[
            HEAD,
            "Login",
            BODY,
            "<h1>Login</h1>\n<form method=\"post\" action=\"/login\"><input type=\"text\" name=\"user\" value=\"\"><input type=\"password\" name=\"password\" value=\"\"><button>Log in</button></form>",
            END,
        ],
    )?;
    assert!(rt; is_page(&page, &want));
    Ok(())
}

#[test]
fn writes_faults(rt: HostRuntime) -> Result<(), Fail> {
    let alloc: Global = rt.alloc();
    let page = fault_page(alloc, 404, "No such folder.", true)?;
    let want = joined(
        alloc,
        &[
            HEAD,
            "404",
            BODY,
            NAV,
            "<h1>404</h1>\n<p class=\"fault\">No such folder.</p>",
            END,
        ],
    )?;
    assert!(rt; is_page(&page, &want));
    Ok(())
}
