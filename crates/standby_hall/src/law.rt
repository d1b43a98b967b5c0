ghost use Rattle.standby_hall.specs.Standby.{StaysFront, WholeArrives};

/// Laws of a standby that follows shipments of a hall's book. Whatever came of them, lost, cut,
/// twice or in any order, and whenever it crashed: what it has is a front of the hall's book, and
/// it never loses a row. And a shipment that came whole brings all of its rows, unless rows before
/// them are lacking, a device failed, or there was no memory.
pub fn shipments_law()
    ensures front { StaysFront }
    ensures whole { WholeArrives }
{}
