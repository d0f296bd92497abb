// What holds of the spelling of all SIDs.
ghost use Rattle.lpc_sid.specs.Laws.{ReadIsWrittenBack, WrittenIsReadBack};

/// A SID has one spelling: what is written of a SID with an authority below 2^48 and at least one number is read back as
/// that SID, and what is read of a text is written back as that text.
pub fn law_sid_has_one_spelling()
    ensures read_back { WrittenIsReadBack }
    ensures written_back { ReadIsWrittenBack }
{}
