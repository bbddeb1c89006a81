//! The results of all kinds of work on fixed inputs, so that the stored run of this program shows that each driver works.

use crate::work::{Input, result_of, work_named};
use std::io::{self, Write};

const CASES: [(&str, &str); 12] = [
    ("decode-quoted", "caf=c3=a9 =3d 1=\r\n0\n"),
    ("encode-base64", "one line of text"),
    (
        "tree",
        "Content-Type: multipart/alternative; boundary=a\n\n--a\n\nhi\n--a\nContent-Type: text/html; charset=UTF-8; name=\"a b\"\nContent-Transfer-Encoding: base64\n\nPGI+\n--a--\n",
    ),
    (
        "refer-below",
        "cid:part999@n\n7.png\nx:y\nhttp://e.example\n",
    ),
    (
        "responses-1",
        "* OK hi\r\n* 1 FETCH (UID 7 BODY[] {5}\r\na\r\n)b)\r\n* 2 FETCH (UID 8 FLAGS (\\Seen))\r\n* 3 FETCH (UID x)\r\n* OK late\r\n",
    ),
    (
        "read-flowed",
        "> quoted one \n> goes on\n>> deep\nplain \ntext\n stuffed\n-- \nsig\n",
    ),
    ("write-flowed", "a short text"),
    (
        "build",
        "bob@d.example\0\0Caf\u{e9}\0<a@x> <b@y>\0Ann\0ann@c.example\0Hello",
    ),
    ("tokens", "<p>a &amp; b</p><!-- c --><br/>"),
    ("print-tokens", "<a b=&lt c>&copy;\n====\n"),
    ("wash", "<p>a<script>b</script><p>c"),
    (
        "print-wash",
        "<img src=x onerror=y><IMG SRC=cid:part7%40n width=9>\n====\n<a href=7.png>b\n====\n",
    ),
];

pub fn write_results(rt: &HostRuntime) -> io::Result<()> {
    for (name, input) in CASES {
        println!(rt; "{name}")?;
        if let Some(work) = work_named(name) {
            let result = result_of(rt.alloc(), work, &Input::new(input.as_bytes()))?;
            rt.stdout().write_all(result.as_slice())?;
        }
    }
    Ok(())
}
