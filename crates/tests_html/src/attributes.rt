// The attributes of a start tag.
use html_syntax::Attributes;
use std::test::Fail;

#[test]
fn attributes_are_kept_in_order(rt: HostRuntime) -> Result<(), Fail> {
    let mut attributes = Attributes::new(rt.alloc());
    assert!(rt; attributes.is_empty());
    attributes.push(rt.alloc(), "href", "é")?;
    attributes.push(rt.alloc(), "title", "")?;
    assert_eq!(rt; attributes.len(), 2);
    assert_eq!(rt; attributes.name(0), "href");
    assert_eq!(rt; attributes.value(0), "é");
    assert_eq!(rt; attributes.name(1), "title");
    assert_eq!(rt; attributes.value(1), "");
    assert!(rt; attributes.contains("title"));
    assert!(rt; !attributes.contains("Title"));
    Ok(())
}
