ghost use Rattle.std.specs.Prelude.{◌<◌};

use imap_commands::{Memory, UidRange, UidSet};
use std::alloc::Global;
use std::test::Fail;

fn set_of(alloc: Global, ends: &[(u32, u32)]) -> Result<UidSet, Memory> {
    let mut ranges = Vec::new(alloc);
    for (one, other) in ends {
        ranges.push(UidRange::between(*one, *other))?;
    }
    UidSet::of(alloc, ranges)
}

fn said(alloc: Global, set: &UidSet) -> Result<String, Memory> {
    let mut text = String::new(alloc);
    for range in set.ranges() {
        if !text.is_empty() {
            text.push(',')?;
        }
        write!(text, "{}:{}", range.first, range.last)?;
    }
    Ok(text)
}

#[test]
fn joins_ranges(rt: HostRuntime) -> Result<(), Fail> {
    let alloc = rt.alloc();
    for (ends, want) in [
        (&[][..], ""),
        (&[(7, 7)][..], "7:7"),
        (&[(4, 5), (1, 3)][..], "1:5"),
        (&[(5, 6), (1, 3)][..], "1:3,5:6"),
        (&[(1, 5), (3, 9)][..], "1:9"),
        (&[(1, 9), (3, 5)][..], "1:9"),
        (&[(3, 5), (9, 1)][..], "1:9"),
        (&[(2, 4), (2, 4), (4, 2)][..], "2:4"),
        (&[(2, 9), (2, 4), (10, 10)][..], "2:10"),
        (
            &[(4_294_967_295, 4_294_967_295), (1, 1)][..],
            "1:1,4294967295:4294967295",
        ),
    ] {
        assert_eq!(rt; said(alloc, &set_of(alloc, ends)?)?.as_str(), want);
    }
    Ok(())
}

#[test]
fn joins_the_ends_of_all_uids(rt: HostRuntime) -> Result<(), Fail> {
    let alloc = rt.alloc();
    let all = set_of(alloc, &[(4_294_967_294, 4_294_967_295), (1, 4_294_967_295)])?;
    assert_eq!(rt; said(alloc, &all)?.as_str(), "1:4294967295");
    let mut backwards = Vec::new(alloc);
    backwards.push(UidRange { first: 5, last: 3 })?;
    backwards.push(UidRange { first: 4, last: 4 })?;
    assert_eq!(rt;
        said(alloc, &UidSet::of(alloc, backwards)?)?.as_str(),
        "4:4"
    );
    Ok(())
}

#[test]
fn finds_uids(rt: HostRuntime) -> Result<(), Fail> {
    let alloc = rt.alloc();
    let set = set_of(
        alloc,
        &[(10, 12), (1, 1), (4_294_967_294, 4_294_967_295), (20, 20)],
    )?;
    for (uid, want) in [
        (0, false),
        (1, true),
        (2, false),
        (9, false),
        (10, true),
        (12, true),
        (13, false),
        (20, true),
        (4_294_967_293, false),
        (4_294_967_295, true),
    ] {
        assert_eq!(rt; set.contains(uid), want);
    }
    Ok(())
}

/// One of a million UIDs of which no two are adjacent, in scattered order.
fn scattered(i: u32) -> u32
    requires { i < 1_000_000 }
    ensures { result < 2_000_007 }
{
    i * 4_001 % 1_000_003 * 2 + 1
}

#[test]
fn takes_a_million_ranges(rt: HostRuntime) -> Result<(), Fail> {
    let alloc = rt.alloc();
    let mut ranges = Vec::new(alloc);
    for i in 0..1_000_000 {
        let uid = scattered(i);
        ranges.push(UidRange::between(uid, uid))?;
    }
    let set = UidSet::of(alloc, ranges)?;
    assert_eq!(rt; set.ranges().len(), 1_000_000);
    for i in 0..1_000_000 {
        let uid = scattered(i);
        assert!(rt; set.contains(uid) && !set.contains(uid + 1));
    }
    Ok(())
}
