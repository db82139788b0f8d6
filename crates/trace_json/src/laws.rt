//! What holds of JSON in a page, as clauses of functions that do nothing.
ghost use Rattle.trace_json.specs.Laws.{HasNoTag, ReadsAlike};

/// A law: JSON as it stands in a page has no `<`, so no tag in it ends the element that holds it, and no comment begins there.
pub fn json_in_html_has_no_tag()
    ensures { HasNoTag }
{}

/// A law: the text of a value whose numbers are natural and have 64 bits reads in a page as it does without.
pub fn json_in_html_reads_alike()
    ensures { ReadsAlike }
{}
