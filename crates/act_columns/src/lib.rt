//! The columns of the book as text: the first are its answers, the third is a script that asks its
//! acts.
#![tactic(auto)]

ghost use Rattle.act_columns.specs.Columns.{AreAnswersFirst, IsScriptThird};

/// A law, and no work: the first column of a legal list's text is what its rows were told, a line
/// each.
pub fn answers_first()
    ensures { AreAnswersFirst }
{}

/// A law, and no work: the third column of a legal list's text is a script that asks its acts in
/// order, and nothing else.
pub fn script_third()
    ensures { IsScriptThird }
{}
