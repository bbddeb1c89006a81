//! Laws of the definition, each the contract of a function that does nothing.
ghost use Rattle.compose_drafts.specs.Drafts.{parties_of, saved_parties_of};
ghost use Rattle.compose_drafts.specs.Readers.{FieldsAreRead};

/// Proves that no text of a draft adds a field to its message, or takes one away.
pub fn fields_are_read()
    ensures sent { FieldsAreRead parties_of }
    ensures saved { FieldsAreRead saved_parties_of }
{}
