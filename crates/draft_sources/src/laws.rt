//! Laws of the drafts that are made from saved drafts.
ghost use Rattle.draft_sources.specs.Restored.{TextsAreRestored};

use draft_laws::messages_are_one_text;

/// Proves that an edit of a saved draft has the paragraphs that were typed, each as a line.
pub fn saved_texts_are_restored()
    ensures { TextsAreRestored }
{
    messages_are_one_text();
}
