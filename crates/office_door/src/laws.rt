//! Laws of what a door serves, each the clause of a call that does nothing.
ghost use Rattle.office_door.specs.Cuts.{ComeFirst, CutsTalkAlike, DoorsTalkAlike, HaveOneList};

/// How the bytes of a connection are cut into reads tells nothing. Two visits to the same bytes talk
/// alike where they are answered alike: they ask the same, and write the same bytes, up to where a
/// fault of the link ended one. So do the visits of two doors at which the same connections wait.
pub fn cut_law()
    ensures visits { CutsTalkAlike }
    ensures doors { DoorsTalkAlike }
{}

/// The bytes of a connection have one list of requests, up to the first that is last, and the
/// requests of a visit are the first of it.
pub fn request_law()
    ensures one { HaveOneList }
    ensures first { ComeFirst }
{}
