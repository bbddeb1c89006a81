use std::alloc::Global;
use std::test::Fail;
use style_rules::{Memory, Rules};

// A style sheet, an element, its classes, and what the rules declare for it.
const CASES: [(&str, &str, &str, &str); 14] = [
    (
        "P.x{color:red} .x{color:blue;margin:0} p{color:green} p b{color:red}",
        "p",
        "y x",
        "margin: 0; color: red",
    ),
    (
        "@media x{p{color:red}}p{color:url(x)}p{width:1px}",
        "p",
        "",
        "width: 1px",
    ),
    ("", "p", "x", ""),
    (
        "@import 'x';p{color:red}@page{color:blue}",
        "p",
        "",
        "color: red",
    ),
    (
        "<!-- p{color:red/*;margin:0*/} --> /*/p{}/*/",
        "p",
        "",
        "color: red",
    ),
    ("p/*\u{E9}*/{color:red}", "p", "", "color: red"),
    (
        "\u{E9}{color:red}p{content:'\u{E9}';width:1px}",
        "p",
        "\u{E9}",
        "width: 1px",
    ),
    ("p{color:red}p{color:blue", "p", "", "color: red"),
    ("p{font:'}';color:red}", "p", "", ""),
    ("b , H1,.x,, i{color:red}", "h1", "", "color: red"),
    (".X{color:red}.x{width:1px}", "b", "x", "width: 1px"),
    (
        ".a{color:red}.c{width:1px}.d{height:1px}",
        "b",
        " c\t\nab  a a",
        "color: red; width: 1px",
    ),
    ("body{color:red}*{color:red}#p{color:red}", "body", "", ""),
    ("p{}p{position:fixed}", "p", "", ""),
];

#[test]
fn declares_for_elements(rt: HostRuntime) -> Result<(), Fail> {
    let alloc = rt.alloc();
    for (sheet, name, classes, want) in CASES {
        let mut rules = Rules::new(alloc);
        rules.read(alloc, sheet)?;
        let style = rules.declared(alloc, name, classes)?;
        assert_eq!(rt; style.as_str(), want, "{sheet}");
    }
    Ok(())
}

// Rules for `b`, and after them one for `i`, in style blocks of their own.
fn rules_and_one(alloc: Global, count: usize) -> Result<Rules, Memory> {
    let mut rules = Rules::new(alloc);
    let mut sheet = String::new(alloc);
    for _i in 0..count {
        sheet.push_str("b,")?;
    }
    sheet.push_str("{color:red}")?;
    rules.read(alloc, &sheet)?;
    rules.read(alloc, "i{color:blue}")?;
    Ok(rules)
}

#[test]
fn keeps_200_rules(rt: HostRuntime) -> Result<(), Fail> {
    let alloc = rt.alloc();
    for (count, want) in [(199, "color: blue"), (200, ""), (1000, "")] {
        let rules = rules_and_one(alloc, count)?;
        let style = rules.declared(alloc, "i", "")?;
        assert_eq!(rt; style.as_str(), want, "{count}");
        let others = rules.declared(alloc, "b", "")?;
        assert_eq!(rt; others.as_str(), "color: red");
    }
    Ok(())
}

// A rule with one declaration, whose value has this number of letters.
fn long_rule(alloc: Global, property: &str, letters: usize) -> Result<String, Memory> {
    let mut rule = String::from_str(alloc, "p{")?;
    rule.push_str(property)?;
    rule.push_str(":a")?;
    for _i in 1..letters {
        rule.push('a')?;
    }
    rule.push_str("}")?;
    Ok(rule)
}

#[test]
fn leaves_out_long_styles(rt: HostRuntime) -> Result<(), Fail> {
    let alloc = rt.alloc();
    for (property, letters, want) in [("width", 505, 512), ("width", 506, 0), ("clear", 505, 512)] {
        let mut rules = Rules::new(alloc);
        rules.read(alloc, &long_rule(alloc, property, letters)?)?;
        let style = rules.declared(alloc, "p", "")?;
        assert_eq!(rt; style.len(), want, "{property}");
    }
    Ok(())
}

#[test]
fn declares_at_most_1024_bytes(rt: HostRuntime) -> Result<(), Fail> {
    let alloc = rt.alloc();
    for (letters, want) in [(503, 1024), (504, 0)] {
        let mut rules = Rules::new(alloc);
        rules.read(alloc, &long_rule(alloc, "width", 505)?)?;
        rules.read(alloc, &long_rule(alloc, "clear", letters)?)?;
        let style = rules.declared(alloc, "p", "")?;
        assert_eq!(rt; style.len(), want);
    }
    Ok(())
}

#[test]
fn reads_long_classes(rt: HostRuntime) -> Result<(), Fail> {
    let alloc = rt.alloc();
    for (count, want) in [
        (2000, "color: red; margin: 0"),
        (3000, "color: red; margin: 0"),
    ] {
        let mut classes = String::new(alloc);
        for _i in 0..count {
            classes.push_str("a ")?;
        }
        classes.push_str("x")?;
        let mut rules = Rules::new(alloc);
        rules.read(
            alloc,
            ".x{color:red}b.x{margin:0}.y{width:1px}i.a{height:1px}",
        )?;
        let style = rules.declared(alloc, "b", &classes)?;
        assert_eq!(rt; style.as_str(), want, "{count}");
    }
    Ok(())
}
