//! Laws over the definitions: these calls do nothing, and each says what holds of all bytes.

ghost use Rattle.source_files.specs.Laws as law;

/// Bytes are the text of one script at most.
pub fn one_tree()
    ensures { law.OneTree }
{}

/// Bytes that are the text of an accepted script are not refused.
pub fn sources_are_not_refused()
    ensures { law.SourcesAreNotRefused }
{}

/// All other bytes are.
pub fn sources_or_refused()
    ensures { law.SourcesOrRefused }
{}
