use std::test::Fail;
use transfer_codings::{
    Charset, Coding, charset_of, decode, encode_base64, encode_quoted, text_of,
};

// The test vectors of RFC 4648 §10.
const VECTORS: [(&str, &str); 6] = [
    ("f", "Zg=="),
    ("fo", "Zm8="),
    ("foo", "Zm9v"),
    ("foob", "Zm9vYg=="),
    ("fooba", "Zm9vYmE="),
    ("foobar", "Zm9vYmFy"),
];

#[test]
fn each_call_with_ample_memory(rt: HostRuntime) -> Result<(), Fail> {
    let alloc = rt.alloc();
    for (plain, encoded) in VECTORS {
        let bytes = decode(alloc, Coding::Base64, encoded.as_bytes())?;
        assert_eq!(rt; bytes.as_slice(), plain.as_bytes());
        let text = encode_base64(alloc, plain.as_bytes())?;
        assert_eq!(rt;
            text.as_slice().strip_suffix(b"\r\n"),
            Some(encoded.as_bytes())
        );
    }

    let part = decode(alloc, Coding::Quoted, b"caf=e9 =3d 1=\r\n0")?;
    let charset = charset_of(b"ISO-8859-1").ok_or("no charset")?;
    assert_eq!(rt; charset, Charset::Latin1);
    assert_eq!(rt;
        text_of(alloc, charset, part.as_slice())?.as_str(),
        "caf\u{e9} = 10"
    );
    assert_eq!(rt;
        text_of(alloc, Charset::Ascii, part.as_slice())?.as_str(),
        "caf\u{fffd} = 10"
    );
    assert_eq!(rt;
        text_of(alloc, Charset::Utf8, part.as_slice())?.as_str(),
        "caf\u{fffd} = 10"
    );

    let rows = encode_quoted(alloc, b"caf\xc3\xa9 = 10 \r\n.")?;
    assert_eq!(rt; rows.as_slice(), b"caf=C3=A9 =3D 10=20\r\n.".as_slice());
    let kept = decode(alloc, Coding::Plain, b"a=\r\n")?;
    assert_eq!(rt; kept.as_slice(), b"a=\r\n".as_slice());
    Ok(())
}
