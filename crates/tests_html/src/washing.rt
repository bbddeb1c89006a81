// Whole messages that are washed, from the message and the HTML of its part to the bytes of the page.
ghost use Rattle.std.specs.Prelude.{◌≡◌, [], ◌∷◌, codes, OnOk};

use html_syntax::Attributes;
use html_wash::wash;
use mail_io::MemorySink;
use mail_values::Text;
use mime_tree::tree;
use page_writer::{Memory, PageBytes, PageOut, WRITE_ROOM, write_page};
use std::alloc::Global;
use std::process::Abort;
use std::test::Fail;
use wash_attributes::Place;

/// A message with an HTML page and a picture, the part 2.2, that the page refers to.
const MESSAGE: &[u8] = b"Content-Type: multipart/mixed; boundary=m\n\n\
--m\nContent-Type: text/plain\n\nx\n\
--m\nContent-Type: multipart/related; boundary=r\n\n\
--r\nContent-Type: text/html\nContent-Location: http://e.example/a/index.html\n\n<img src=cid:top@n>\n\
--r\nContent-Type: image/png\nContent-ID: <top@n>\nContent-Location: top.png\n\nx\n--r--\n\
--m--\n";

/// The Content-Location of its page.
const BASE: &str = "http://e.example/a/index.html";

/// Texts, and what they are washed to if remote pictures aren't asked for.
static TEXTS: [&str; 28] = [
    "",
    "",
    "plain text & &lt;references&gt; &hellip;\r\n\0",
    "plain text &amp; &lt;references&gt; \u{2026}\n\u{FFFD}",
    "a &lt;b&gt; &amp;amp; &quot;",
    "a &lt;b&gt; &amp;amp; &quot;",
    r#"<img src=x onerror=alert(1)><IMG SRC="cid:top%40n" src="http://e.example/">"#,
    r#"<img><img src="/part/0/0/2.2?f=">"#,
    r#"<img src=top.png alt="a&quot;b" width=" 12 ">"#,
    r#"<img src="/part/0/0/2.2?f=" alt="a&quot;b" width="12">"#,
    r#"<a href="../b?c&amp;d" target=_top onclick=x>e</a>"#,
    r#"<a href="http://e.example/b?c&amp;d" rel="noopener noreferrer" target="_blank">e</a>"#,
    r#"<a href=MAILTO:a@e.example>f"#,
    r#"<a href="mailto:a@e.example" rel="noopener noreferrer" target="_blank">f</a>"#,
    "<a href=javascript:alert(1)>g</a><a href=\"java\tscript:x\">h</a>",
    "<a>g</a><a>h</a>",
    "<a href=data:text/html,x>i</a>",
    "<a>i</a>",
    r#"<p style="color:red;position:fixed;background:url(http://e.example/x)">j</p>"#,
    r#"<p style="color: red">j</p>"#,
    "<p style='font-family:&quot;A B&quot;'>k<p style='behavior:url(x)'>l",
    r#"<p style="font-family: 'A B'">k</p><p>l</p>"#,
    "</div></div><td>m</table><script>n</script>o",
    "<td>mo</td>",
    "<table><tr><td>p<td>q<tr><td>r</table>s",
    "<table><tr><td>p</td><td>q</td></tr><tr><td>r</td></tr></table>s",
    "<base href=//x><meta http-equiv=refresh><form action=x><input>t</form><svg/onload=x>",
    "t",
];

/// Texts with remote pictures, and what they are washed to if these aren't asked for.
static UNASKED: [&str; 4] = [
    r#"<img src="http://e.example/x.png" alt=a>"#,
    r#"<img alt="a">"#,
    "<img src=b.png>",
    "<img>",
];

/// The same if they are.
static ASKED: [&str; 4] = [
    r#"<img src="http://e.example/x.png" alt=a>"#,
    r#"<img src="http://e.example/x.png" alt="a">"#,
    "<img src=b.png>",
    r#"<img src="http://e.example/a/b.png">"#,
];

/// Texts with style elements, and what they are washed to.
static SHEETS: [&str; 16] = [
    r#"<style>P.x{color:red} .x{color:blue;margin:0} p{color:green} p b{color:red}</style><p class="y x">t</p>"#,
    r#"<p style="margin: 0; color: red">t</p>"#,
    "<p>a</p><style>@media x{p{color:red}}p{color:url(x)}p{width:1px}</style><p>b</p>",
    r#"<p>a</p><p style="width: 1px">b</p>"#,
    r#"<html><head><style>p{color:red}</style></head><body><p class="x" style="color:#333;margin:0 0 10px">Caf&eacute;</p>"#,
    "<p style=\"color: red; color: #333; margin: 0 0 10px\">Caf\u{E9}</p>",
    "<style>p{\r\ncolor:\rred}\0</style><p title=a>b",
    r#"<p title="a" style="color: red">b</p>"#,
    "<style media=print>p{color:red}</style><style media=' SCREEN'>p{margin:0}</style><p>a<p style=x dir=ltr>b",
    r#"<p style="margin: 0">a</p><p style="margin: 0" dir="ltr">b</p>"#,
    "<style>a{color:red}</style><a href=http://e.example/ class=&quot;>b",
    r#"<a href="http://e.example/" style="color: red" rel="noopener noreferrer" target="_blank">b</a>"#,
    "<style>.a\u{E9}{color:red}.b{font-family:'\u{E9}';margin:0}</style><i class='\u{E9} b'>c",
    r#"<i style="margin: 0">c</i>"#,
    "a<style>p{color:red}<p>b",
    "a",
];

#[tactic(auto, unfolding(page_writer::specs::Writing::literals))]
fn open_div(alloc: Global, out: &mut PageOut) -> Result<(), Memory>
    requires { out.old.opened ≡ [] }
    ensures { OnOk result (out.new.opened ≡ codes "div" ∷ []) }
{
    out.start(alloc, "div", &Attributes::new(alloc))
}

#[tactic(auto, unfolding(page_writer::specs::Writing::literals))]
fn write_washed(alloc: Global, html: &str, images: bool, out: &mut PageOut) -> Result<(), Memory>
    requires { out.old.opened ≡ codes "div" ∷ [] }
    ensures { OnOk result (out.new.opened ≡ []) }
{
    let read = tree(alloc, MESSAGE)?;
    let place = Place {
        prefix: Text::from_text(alloc, "/part/0/0/")?,
        suffix: Text::from_text(alloc, "?f=")?,
    };
    wash(alloc, html, &read, Some(BASE), &place, images, out)?;
    out.end()
}

fn page_of(alloc: Global, html: &str, images: bool) -> Result<PageBytes, Memory> {
    let mut out = PageOut::new(alloc);
    open_div(alloc, &mut out)?;
    write_washed(alloc, html, images, &mut out)?;
    Ok(out.finish())
}

/// The bytes of the page that a text is washed to.
fn washed(alloc: Global, html: &str, images: bool) -> Result<Vec<u8>, Memory> {
    let page = page_of(alloc, html, images)?;
    let mut room = Vec::with_capacity(alloc, WRITE_ROOM)?;
    let mut sink = MemorySink::new(alloc, 1000, Vec::new(alloc))?;
    let _ = write_page(&mut sink, &page, &mut room);
    Vec::from_slice(alloc, sink.taken())
}

fn assert_washed(rt: &impl Abort, alloc: Global, table: &[&str], images: bool) -> Result<(), Fail> {
    for row in table.chunks(2) {
        match row {
            [text, inside] => {
                let page = format!(in alloc; "<div>{inside}</div>")?;
                assert_eq!(rt;
                    washed(alloc, *text, images)?.as_slice(),
                    page.as_bytes(),
                    "of {text:?}"
                );
            }
            _ => return Err("a text without what it is washed to".into()),
        }
    }
    Ok(())
}

#[test]
fn washes_whole_messages(rt: HostRuntime) -> Result<(), Fail> {
    assert_washed(&rt, rt.alloc(), &TEXTS, false)
}

#[test]
fn writes_remote_pictures_that_are_asked_for(rt: HostRuntime) -> Result<(), Fail> {
    assert_washed(&rt, rt.alloc(), &UNASKED, false)?;
    assert_washed(&rt, rt.alloc(), &ASKED, true)
}

#[test]
fn acts_on_style_elements(rt: HostRuntime) -> Result<(), Fail> {
    assert_washed(&rt, rt.alloc(), &SHEETS, false)
}
