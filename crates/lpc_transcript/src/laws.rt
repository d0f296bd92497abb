// What holds of the text for all entries.
ghost use Rattle.lpc_model.specs.TextLaws.{TextIsUnique};

/// A transcript can be read back: two lists of entries of one line that have the same text are the same list.
///
/// It holds of regular entries. Their numbers fit their types, no mark for a memory read is left in
/// them, and each field has a value of the sort that goes with its name: handles, message
/// identifiers, lengths and counts are printed in decimal, contexts, rights and bases in
/// hexadecimal, the kind of an object by its name, messages, what was read and what came with a
/// connect as bytes, and users and groups as SIDs in the published form. Without that a number of
/// eight digits and a context could have one text.
pub fn law_text_is_unique()
    ensures { TextIsUnique }
{}
