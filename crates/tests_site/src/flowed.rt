//! Runs of `show` on flowed text: what is shown of a message.
use crate::mails::{push_times, run_on};
use mail_io::Memory;
use std::alloc::Global;
use std::test::Fail;
use webmail_runs::DONE;

/// Quoted lines that flow, a deeper one, plain lines that flow, a stuffed one, and a signature.
const LETTER: &str =
    "> quoted one \r\n> goes on\r\n>> deep\r\nplain \r\ntext\r\n stuffed\r\n-- \r\nsig\r\n";

/// A message of one flowed text with this coding.
fn flowed_message(
    alloc: Global,
    parameters: &str,
    coding: &str,
    text: &str,
) -> Result<String, Memory> {
    let mut message = String::from_str(alloc, "Content-Type: text/plain; format=flowed")?;
    message.push_str(parameters)?;
    message.push_str("\r\nContent-Transfer-Encoding: ")?;
    message.push_str(coding)?;
    message.push_str("\r\n\r\n")?;
    message.push_str(text)?;
    Ok(message)
}

#[test]
fn shows_paragraphs(rt: HostRuntime) -> Result<(), Fail> {
    let alloc = rt.alloc();
    for (parameters, coding, text, want) in [
        (
            "",
            "7bit",
            LETTER,
            "<blockquote><div>quoted one goes on</div><blockquote><div>deep</div></blockquote></blockquote><div>plain text</div><div>stuffed</div><div>-- </div><div>sig</div>",
        ),
        (
            "; delsp=yes",
            "7bit",
            LETTER,
            "<blockquote><div>quoted onegoes on</div><blockquote><div>deep</div></blockquote></blockquote><div>plaintext</div><div>stuffed</div><div>-- </div><div>sig</div>",
        ),
        ("", "7bit", "", ""),
        (
            "",
            "7bit",
            "a\n\n> \r>\n",
            "<div>a</div><div><br></div><blockquote><div><br></div><div><br></div></blockquote>",
        ),
        (
            "",
            "7bit",
            ">>>a\n>b\n>>c",
            "<blockquote><blockquote><blockquote><div>a</div></blockquote></blockquote><div>b</div><blockquote><div>c</div></blockquote></blockquote>",
        ),
        (
            "",
            "8bit",
            "<script>x</script> \n</div>&\0\"",
            "<div>&lt;script&gt;x&lt;/script&gt; &lt;/div&gt;&amp;\u{FFFD}&quot;</div>",
        ),
        (
            "; charset=iso-8859-1",
            "quoted-printable",
            "> caf=E9=20\r\n> cr=\r\n=E8me\r\n",
            "<blockquote><div>caf\u{E9} cr\u{E8}me</div></blockquote>",
        ),
        (
            "; charset=utf-8",
            "base64",
            "PiB4",
            "<blockquote><div>x</div></blockquote>",
        ),
        (
            "; charset=koi8-r",
            "7bit",
            "x",
            "<p>Charset koi8-r is not read here; part 1 is offered below.</p>",
        ),
    ] {
        let message = flowed_message(alloc, parameters, coding, text)?;
        let run = run_on(alloc, &["show"], message)?;
        assert_eq!(rt; run.status, DONE, "{text}");
        assert_eq!(rt; run.mail.as_str(), want);
    }
    Ok(())
}

/// Lines of these depths, one after another.
fn lines_of_depths(alloc: Global, depths: &[usize]) -> Result<String, Memory> {
    let mut text = String::new(alloc);
    for depth in depths {
        push_times(&mut text, ">", *depth)?;
        text.push_str("x\n")?;
    }
    Ok(text)
}

#[test]
fn shows_sixteen_quotes_at_most(rt: HostRuntime) -> Result<(), Fail> {
    let alloc = rt.alloc();
    let text = lines_of_depths(alloc, &[15, 16, 17, 1000, 0])?;
    let mut want = String::new(alloc);
    push_times(&mut want, "<blockquote>", 15)?;
    want.push_str("<div>x</div><blockquote><div>x</div><div>x</div><div>x</div>")?;
    push_times(&mut want, "</blockquote>", 16)?;
    want.push_str("<div>x</div>")?;
    for words in [
        ["show", "--part", "1"].as_slice(),
        ["show", "--images"].as_slice(),
    ] {
        let message = flowed_message(alloc, "", "7bit", &text)?;
        let run = run_on(alloc, words, message)?;
        assert_eq!(rt; run.status, DONE);
        assert_eq!(rt; run.mail.as_str(), want.as_str());
    }
    Ok(())
}
