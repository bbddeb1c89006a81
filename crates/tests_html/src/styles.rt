use std::test::Fail;
use style_wash::wash_style;

// What a style is washed into.
const CASES: [(&str, &str); 48] = [
    ("", ""),
    (
        "color:red;background:url(x);width:expression(1);font-family:'A B'",
        "color: red; font-family: 'A B'",
    ),
    ("color:red;color:blue", "color: red; color: blue"),
    // `!important` once, twice, within, alone
    (
        "color:red !important;margin:0!important",
        "color: red; margin: 0",
    ),
    ("color:red !important !important;width:1px", "width: 1px"),
    ("margin:1px !important 2px;width:1px", "width: 1px"),
    ("color:!important;width:1px", "width: 1px"),
    ("color:red ! important;width:1px!IMPORTANT", ""),
    // properties
    ("COLOR:Red;Font-Size:12px", "color: Red; font-size: 12px"),
    ("position:fixed;z-index:9;-moz-binding:x", ""),
    (" \t\n\r color : red ", "color: red"),
    (
        "color red;color;:red;color:;color: ;width:1px",
        "width: 1px",
    ),
    ("color:red:blue", ""),
    // 16 items and 17
    (
        "margin:1 2 3 4 5 6 7 8 9 10 11 12 13 14 15 16",
        "margin: 1 2 3 4 5 6 7 8 9 10 11 12 13 14 15 16",
    ),
    ("margin:1 2 3 4 5 6 7 8 9 10 11 12 13 14 15 16 17", ""),
    // colours
    ("color:rgb(0,128,255)", "color: rgb(0,128,255)"),
    ("color:rgb(0, 128,255)", ""),
    ("color:rgb(0,256,0)", ""),
    ("color:rgb(0,0)", ""),
    ("color:rgb(0,0,0,0)", ""),
    ("color:rgb(0,0,0", ""),
    ("color:rgb(,0,0)", ""),
    ("color:RGB(0,0,0);background:rgba(0,0,0)", ""),
    (
        "color:#1aF;background:#12aBcD",
        "color: #1aF; background: #12aBcD",
    ),
    ("color:#12;color:#1234;color:#12g;color:#", ""),
    // numbers
    (
        "width:12345678;height:10.5em",
        "width: 12345678; height: 10.5em",
    ),
    ("width:123456789;height:1234567.8", ""),
    ("margin:0 1.25% 3pc 4rem", "margin: 0 1.25% 3pc 4rem"),
    ("margin:1.2.3;padding:.5em;width:5.;height:-1px", ""),
    ("width:1vw;height:1PX", ""),
    // quoted names
    (
        "font-family:\"Open Sans\", 'Arial 2' ,serif",
        "font-family: 'Open Sans', 'Arial 2', serif",
    ),
    ("font-family:'a\"b';color:red", "color: red"),
    ("font-family:\"a\\b\";color:red", "color: red"),
    ("font-family:'';color:red", "color: red"),
    ("font-family:'a;color:red;b';width:1px", "width: 1px"),
    ("color:red;font-family:'a;color:blue", "color: red"),
    ("color:red;font-family:\"a';color:blue", "color: red"),
    // separators
    ("font:12px / 1.5 a,b , c", "font: 12px/1.5 a, b, c"),
    (
        "margin:1px,,2px;margin:1px/ /2px;margin:,1px;margin:1px,",
        "",
    ),
    ("margin:1px#fff;font:'a''b';border:rgb(1,2,3)red", ""),
    // what is no declaration
    ("@import 'x';color:red", "color: red"),
    ("color:/**/red;/* */color:red", ""),
    ("c\\6flor:red;color:\\72 ed", ""),
    ("color:url(x);color:url('x');background:url(//x)", ""),
    ("width:expression(1);color:calc(1px);color:var(x)", ""),
    ("color:r\u{e9}d;c\u{f6}lor:red;font-family:'\u{e9}'", ""),
    ("color:re\0d;\0color:red", ""),
    (";;;color:red;;;", "color: red"),
];

#[test]
fn washes_with_ample_memory(rt: HostRuntime) -> Result<(), Fail> {
    let alloc = rt.alloc();
    for (text, washed) in CASES {
        let style = wash_style(alloc, text)?;
        assert_eq!(rt; style.as_str(), washed, "of {text}");
        let again = wash_style(alloc, style.as_str())?;
        assert_eq!(rt; again.as_str(), washed, "again of {text}");
    }
    Ok(())
}
