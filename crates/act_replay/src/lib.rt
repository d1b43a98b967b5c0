//! The book as text, asked again: what its lines make of a book that holds the rows before them.
#![tactic(auto)]

ghost use Rattle.act_replay.specs.Replay.{AreReplayed};

/// A law, and no work: the lines of the acts of a legal list, asked in order of a book that holds
/// the rows before them, are answered by what their rows were told, and leave the list.
pub fn acts_replayed()
    ensures { AreReplayed }
{}
