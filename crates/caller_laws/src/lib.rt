//! No answer of the book looks at who brought the entries of its list; a page of rows shows it.
#![tactic(auto)]

ghost use Rattle.caller_laws.specs.Alike.{AreAnsweredAlike, ArePagesAlike, AreLegalAlike};

/// A law, and no work: two lists that differ only in who brought their entries are answered alike,
/// whatever is asked but a page of rows.
pub fn answered_alike()
    ensures { AreAnsweredAlike }
{}

/// A law, and no work: their pages are the same but for that.
pub fn pages_alike()
    ensures { ArePagesAlike }
{}

/// A law, and no work: of two such lists both are legal, or neither.
pub fn legal_alike()
    ensures { AreLegalAlike }
{}
