//! Opens the multiparts and messages of a message, in tree order.
ghost use Rattle.std.specs.Prelude.{◌≡◌, ◌+◌, ◌-◌, ◌<◌, ◌≤◌, ◌++◌, ◌∷◌, [], length, IfOk, OnOk, IfSome, IfNone, All, reverse, codes, unwrap_or, slice_range, true, false, ◌&&◌, IsTrue, Some, None};
ghost use Rattle.header_words.specs.Fields.{header_of};
ghost use Rattle.mail_values.specs.Section.{numbers_of};
ghost use Rattle.mime_tree.specs.Body.{IsWithin};
ghost use Rattle.mime_tree.specs.Content.{is_multipart, is_message, is_alternative, default_in};
ghost use Rattle.mime_tree.specs.Tree.{PartValue};
ghost use Rattle.mime_tree.specs.Opening.{node_at, children_of, can_open, section_of, prefix_of, is_body, part_of, own_parts, parts_of, message_of, open_first, opens_beside, children_from, is_raw, IsSound, IsPlaced};
ghost use Rattle.mime_tree.specs.declared.node.Position.TheVariants.{Body, Child};

use crate::body::{Range, places_within};
use crate::media::{is_message, is_multipart};
use crate::node::{Node, Position};
use crate::parts::Part;
use header_words::{Fields, fields};
use mail_values::Section;
use mime_content::{Content, read_content};
use std::alloc::{AllocError, Global};

/// The most parts of a tree.
const MOST_PARTS: usize = 1000;

/// The most steps that a message takes: each opens a node or makes it a leaf.
const MOST_STEPS: usize = 2001;

/// The most multiparts and messages around one that is opened.
const MOST_AROUND: usize = 32;

/// Returns the node of the message itself.
pub fn message(alloc: Global, bytes: &[u8], header: &Fields<'_>) -> Result<Node, AllocError>
    requires header { header.now ≡ header_of bytes.now }
    requires within { header.now.body ≤ length bytes.now }
    ensures equals { IfOk result (λ n. n ≡ message_of bytes.now) }
    ensures sound { IfOk result (λ n. IsSound bytes.now n) }
{
    let content = read_content(alloc, "text/plain", header)?;
    Ok(Node {
        position: Position::Body(None),
        around: 0,
        enclosed: false,
        body: header.body_at(),
        to: bytes.len(),
        content,
    })
}

/// Opens a message, and returns its parts in tree order.
pub fn parts_in<'a>(
    alloc: Global,
    bytes: &'a [u8],
    message: Node,
) -> Result<Vec<Part<'a>>, AllocError>
    requires equals { message ≡ message_of bytes.now }
    requires sound { IsSound bytes.now message }
    ensures equals { IfOk result (λ found. found.items ≡ parts_of bytes.now) }
    ensures placed { IfOk result (λ found. All (IsPlaced bytes.now) found.items) }
{
    let mut found = Vec::new(alloc);
    let mut waiting = Vec::new(alloc);
    waiting.push(message)?;
    for step in 0..MOST_STEPS {
        let Some(next) = waiting.pop() else {
            break;
        };
        settle_next(alloc, bytes, &mut found, &mut waiting, next)?;
    }
    Ok(found)
}

/// Opens the next node or records it as a leaf. The last of `waiting` is the next in tree order.
fn settle_next<'a>(
    alloc: Global,
    bytes: &'a [u8],
    found: &mut Vec<Part<'a>>,
    waiting: &mut Vec<Node>,
    next: Node,
) -> Result<(), AllocError>
    requires sound { IsSound bytes.now next }
    requires all { All (IsSound bytes.now) (reverse waiting.old.items) }
    requires placed { All (IsPlaced bytes.now) found.old.items }
    ensures parts { OnOk result (found.new.items ≡ (open_first bytes.now found.old.items next (reverse waiting.old.items)).parts) }
    ensures waiting { OnOk result (reverse waiting.new.items ≡ (open_first bytes.now found.old.items next (reverse waiting.old.items)).waiting) }
    ensures all { OnOk result (All (IsSound bytes.now) (reverse waiting.new.items)) }
    ensures placed { OnOk result (All (IsPlaced bytes.now) found.new.items) }
{
    let Some(children) = inside_opened(alloc, bytes, found.len() + waiting.len(), &next)? else {
        let raw = is_raw(&next.content);
        found.push(part(bytes, next, raw))?;
        return Ok(());
    };
    if !is_hidden(&next) {
        found.push(part(bytes, next, false))?;
    }
    put_back(waiting, children)?;
    Ok(())
}

/// Returns the nodes in a node, if it is to be opened beside `others` other parts.
fn inside_opened(
    alloc: Global,
    bytes: &[u8],
    others: usize,
    node: &Node,
) -> Result<Option<Vec<Node>>, AllocError>
    requires sound { IsSound bytes.now node.now }
    ensures equals { IfOk result (λ found. IfSome found (λ v. v.items ≡ children_of bytes.now node.now)) }
    ensures opens { IfOk result (λ found. IfSome found (λ _. opens_beside bytes.now others node.now ≡ true)) }
    ensures all { IfOk result (λ found. IfSome found (λ v. All (IsSound bytes.now) v.items)) }
    ensures none { IfOk result (λ found. IfNone found (opens_beside bytes.now others node.now ≡ false)) }
{
    if !opens(node) {
        return Ok(None);
    }
    let own = own_count(bytes, node);
    if others > MOST_PARTS - own {
        return Ok(None);
    }
    let Some(nodes) = inside_within(alloc, bytes, node, MOST_PARTS - own - others)? else {
        return Ok(None);
    };
    Ok(Some(nodes))
}

/// Returns how many parts the node itself is: none if it is the multipart that is the whole body of a message.
fn own_count(bytes: &[u8], node: &Node) -> usize
    ensures few { result ≤ 1 }
    ensures equals { result ≡ length (own_parts bytes.now node.now) }
{
    if is_hidden(node) { 0 } else { 1 }
}

/// Puts nodes before the others that wait.
fn put_back(waiting: &mut Vec<Node>, mut nodes: Vec<Node>) -> Result<(), AllocError>
    ensures { OnOk result (reverse waiting.new.items ≡ nodes.items ++ reverse waiting.old.items) }
{
    while let Some(node) = nodes.pop() {
        waiting.push(node)?;
    }
    Ok(())
}

/// Returns the nodes in a multipart or a message, if there are at most `most`.
fn inside_within(
    alloc: Global,
    bytes: &[u8],
    node: &Node,
    most: usize,
) -> Result<Option<Vec<Node>>, AllocError>
    requires depth { node.now.around ≤ 32 }
    requires sound { IsSound bytes.now node.now }
    requires few { most ≤ 1000 }
    ensures all { IfOk result (λ found. IfSome found (λ v. v.items ≡ children_of bytes.now node.now)) }
    ensures few { IfOk result (λ found. IfSome found (λ v. length v.items ≤ most)) }
    ensures sound { IfOk result (λ found. IfSome found (λ v. All (IsSound bytes.now) v.items)) }
    ensures many { IfOk result (λ found. IfNone found (most < length (children_of bytes.now node.now))) }
{
    if !is_multipart(&node.content) {
        if most == 0 {
            return Ok(None);
        }
        let one = embedded(alloc, bytes, node)?;
        let mut nodes = Vec::new(alloc);
        nodes.push(one)?;
        return Ok(Some(nodes));
    }
    let text = &bytes[node.body..node.to];
    let Some(ranges) = places_within(alloc, boundary(&node.content), text, most)? else {
        return Ok(None);
    };
    let nodes = children(alloc, bytes, node, &ranges)?;
    Ok(Some(nodes))
}

/// Returns the node of the message in a message/rfc822 part.
fn embedded(alloc: Global, bytes: &[u8], node: &Node) -> Result<Node, AllocError>
    requires depth { node.now.around ≤ 32 }
    requires sound { IsSound bytes.now node.now }
    ensures equals { IfOk result (λ n. n ≡ node_at bytes.now (codes "text/plain") (Body (Some (section_of node.now.position))) (node.now.around + 1) true node.now.body node.now.to) }
    ensures sound { IfOk result (λ n. IsSound bytes.now n) }
{
    let section = section(node.position);
    let place = Range {
        from: node.body,
        to: node.to,
    };
    node_in(
        alloc,
        bytes,
        "text/plain",
        Position::Body(Some(section)),
        node.around + 1,
        true,
        place,
    )
}

/// Returns the nodes of a multipart's parts.
#[tactic(auto, unfolding(crate::specs::Opening::children_from))]
fn children(
    alloc: Global,
    bytes: &[u8],
    node: &Node,
    ranges: &[Range],
) -> Result<Vec<Node>, AllocError>
    requires depth { node.now.around ≤ 32 }
    requires sound { IsSound bytes.now node.now }
    requires few { length ranges.now ≤ 1000 }
    requires within { All (IsWithin (length (slice_range bytes.now node.now.body node.now.to))) ranges.now }
    ensures equals { IfOk result (λ v. v.items ≡ children_from bytes.now node.now 1 ranges.now) }
    ensures sound { IfOk result (λ v. All (IsSound bytes.now) v.items) }
{
    let mut nodes = Vec::new(alloc);
    for (i, range) in ranges.iter().enumerate() {
        nodes.push(child(alloc, bytes, node, (i + 1) as u16, range)?)?;
    }
    Ok(nodes)
}

fn child(
    alloc: Global,
    bytes: &[u8],
    node: &Node,
    number: u16,
    range: &Range,
) -> Result<Node, AllocError>
    requires depth { node.now.around ≤ 32 }
    requires sound { IsSound bytes.now node.now }
    requires positive { 1 ≤ number }
    requires within { IsWithin (length (slice_range bytes.now node.now.body node.now.to)) range.now }
    ensures equals { IfOk result (λ n. n ≡ node_at bytes.now (default_in node.now.content.mime) (Child (prefix_of node.now.position ++ number ∷ [])) (node.now.around + 1) node.now.enclosed (node.now.body + range.now.from) (node.now.body + range.now.to)) }
    ensures sound { IfOk result (λ n. IsSound bytes.now n) }
{
    let place = Range {
        from: node.body + range.from,
        to: node.body + range.to,
    };
    node_in(
        alloc,
        bytes,
        default_type(&node.content),
        Position::Child(joined(prefix(node.position), number)),
        node.around + 1,
        node.enclosed,
        place,
    )
}

/// Reads the node at a place of the message.
#[tactic(auto, unfolding(crate::specs::Opening::node_at))]
fn node_in(
    alloc: Global,
    bytes: &[u8],
    default: &str,
    position: Position,
    around: usize,
    enclosed: bool,
    place: Range,
) -> Result<Node, AllocError>
    requires ordered { place.from ≤ place.to }
    requires within { place.to ≤ length bytes.now }
    requires short { length (prefix_of position) ≤ around }
    requires shallow { around ≤ 33 }
    ensures equals { IfOk result (λ n. n ≡ node_at bytes.now default.now position around enclosed place.from place.to) }
    ensures sound { IfOk result (λ n. IsSound bytes.now n) }
{
    let header = fields(alloc, &bytes[place.from..place.to])?;
    let content = read_content(alloc, default, &header)?;
    Ok(Node {
        position,
        around,
        enclosed,
        body: place.from + header.body_at(),
        to: place.to,
        content,
    })
}

/// Returns a section with one more number.
fn joined(prefix: Option<Section>, number: u16) -> Section
    requires positive { 1 ≤ number }
    requires room { length (numbers_of prefix) < 40 }
    ensures { result ≡ numbers_of prefix ++ number ∷ [] }
{
    match prefix {
        Some(section) => section.child(number),
        None => Section::first(number),
    }
}

/// Returns the section before the numbers of the children.
fn prefix(position: Position) -> Option<Section>
    ensures { numbers_of result ≡ prefix_of position }
{
    match position {
        Position::Body(message) => message,
        Position::Child(section) => Some(section),
    }
}

fn section(position: Position) -> Section
    requires { length (prefix_of position) < 40 }
    ensures { result ≡ section_of position }
{
    match position {
        Position::Body(message) => joined(message, 1),
        Position::Child(section) => section,
    }
}

fn part<'a>(bytes: &'a [u8], node: Node, raw: bool) -> Part<'a>
    requires { IsSound bytes.now node }
    ensures equals { result ≡ part_of bytes.now node raw }
    ensures placed { IsPlaced bytes.now result }
{
    let Node {
        position,
        around: _,
        enclosed,
        body,
        to,
        content,
    } = node;
    Part::new(
        section(position),
        content,
        raw,
        enclosed,
        body,
        &bytes[body..to],
    )
}

/// Returns whether a node may be opened, if the tree has room for its parts.
fn opens(node: &Node) -> bool
    ensures deep { IsTrue result → node.now.around ≤ 32 }
    ensures equals { result ≡ can_open node.now }
{
    node.around <= MOST_AROUND
        && (is_message(&node.content)
            || (is_multipart(&node.content) && node.content.boundary.is_some()))
}

/// Returns whether a node is the multipart that is the whole body of a message.
fn is_hidden(node: &Node) -> bool
    ensures { result ≡ (is_body node.now.position && is_multipart node.now.content.mime) }
{
    is_whole(node.position) && is_multipart(&node.content)
}

fn is_whole(position: Position) -> bool
    ensures { result ≡ is_body position }
{
    match position {
        Position::Body(_) => true,
        Position::Child(_) => false,
    }
}

/// Returns whether a leaf could have been opened, or has an unknown coding.
fn is_raw(content: &Content) -> bool
    ensures { result ≡ is_raw content.now }
{
    is_multipart(content) || is_message(content) || content.coding.is_none()
}

fn default_type(content: &Content) -> &'static str
    ensures { result.now ≡ default_in content.now.mime }
{
    if content.mime.as_str() == "multipart/digest" {
        "message/rfc822"
    } else {
        "text/plain"
    }
}

fn boundary(content: &Content) -> &[u8]
    ensures { result.now ≡ unwrap_or content.now.boundary [] }
{
    match &content.boundary {
        Some(boundary) => boundary.as_slice(),
        None => &[],
    }
}
