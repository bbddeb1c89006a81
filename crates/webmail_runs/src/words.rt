//! The words of the command line.
ghost use Rattle.std.specs.Prelude.{ℕ, List, Some, ◌∷◌, [], map, string_bytes, true, IfSome, IfNone};
ghost use Rattle.webmail_runs.specs.Run.{SpellsPart, SpellsOptions, SpellsNothing, RequestsPage, RequestsNothing};

use mail_pages::Section;

/// A request for the page of a message: of the part of a section, or of the best part; with remote pictures, or without.
#[derive(Drop)]
pub struct PageRequest {
    pub part: Option<Section>,
    pub images: bool,
}

/// Parses the words after the program's name: `show`, and in either order `--images` and `--part` with a section.
pub fn parse_words(words: &[String]) -> Option<PageRequest>
    ensures sound { IfSome result (λ request. RequestsPage (map string_bytes words.now) request.part request.images) }
    ensures complete { IfNone result (RequestsNothing (map string_bytes words.now)) }
{
    match words {
        [word, options @ ..] => parse_command(word, options),
        _ => None,
    }
}

fn parse_command(word: &str, options: &[String]) -> Option<PageRequest>
    ensures sound { IfSome result (λ request. RequestsPage (word.now ∷ map string_bytes options.now) request.part request.images) }
    ensures complete { IfNone result (RequestsNothing (word.now ∷ map string_bytes options.now)) }
{
    if word != "show" {
        return None;
    }
    parse_options(options)
}

fn parse_options(options: &[String]) -> Option<PageRequest>
    ensures sound { IfSome result (λ request. SpellsOptions (map string_bytes options.now) request.part request.images) }
    ensures complete { IfNone result (SpellsNothing (map string_bytes options.now)) }
{
    match options {
        [] => Some(PageRequest {
            part: None,
            images: false,
        }),
        [option] => parse_images(option),
        [option, section] => parse_one_part(option, section),
        [first, second, third] => parse_both(first, second, third),
        _ => None,
    }
}

fn parse_images(option: &str) -> Option<PageRequest>
    ensures sound { IfSome result (λ request. SpellsOptions (option.now ∷ []) request.part request.images) }
    ensures complete { IfNone result (SpellsNothing (option.now ∷ [])) }
{
    if option != "--images" {
        return None;
    }
    Some(PageRequest {
        part: None,
        images: true,
    })
}

fn parse_one_part(option: &str, section: &str) -> Option<PageRequest>
    ensures sound { IfSome result (λ request. SpellsOptions (option.now ∷ section.now ∷ []) request.part request.images) }
    ensures complete { IfNone result (SpellsNothing (option.now ∷ section.now ∷ [])) }
{
    match parse_part(option, section) {
        Some(section) => Some(PageRequest {
            part: Some(section),
            images: false,
        }),
        None => None,
    }
}

fn parse_both(first: &str, second: &str, third: &str) -> Option<PageRequest>
    ensures sound { IfSome result (λ request. SpellsOptions (first.now ∷ second.now ∷ third.now ∷ []) request.part request.images) }
    ensures complete { IfNone result (SpellsNothing (first.now ∷ second.now ∷ third.now ∷ [])) }
{
    let section = part_beside_images(first, second, third)?;
    Some(PageRequest {
        part: Some(section),
        images: true,
    })
}

fn part_beside_images(first: &str, second: &str, third: &str) -> Option<Section>
    ensures sound { IfSome result (λ section. SpellsOptions (first.now ∷ second.now ∷ third.now ∷ []) (Some section) true) }
    ensures complete { IfNone result (SpellsNothing (first.now ∷ second.now ∷ third.now ∷ [])) }
{
    if first == "--images" {
        return parse_part(second, third);
    }
    if third == "--images" {
        return parse_part(first, second);
    }
    None
}

fn parse_part(option: &str, word: &str) -> Option<Section>
    ensures sound { IfSome result (λ section. SpellsPart option.now word.now section) }
    ensures complete { IfNone result ((section : List ℕ) → SpellsPart option.now word.now section → ⊥) }
{
    if option != "--part" {
        return None;
    }
    Section::parse(word)
}
