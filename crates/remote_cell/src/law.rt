ghost use Rattle.std.specs.Prelude.{Bool, List, All, flat_map};
ghost use Rattle.device_facts.specs.Prefix.{IsPrefixOf};
ghost use Rattle.disk_core.specs.Doors.{Connection};
ghost use Rattle.remote_cell.specs.declared.items.Item.{Item};
ghost use Rattle.remote_cell.specs.Exchanges.{Event, Exchange, IsFaithful, IsLineOf, exchanged};
ghost use Rattle.remote_cell.specs.Told.{connection_lines, given_items};

/// What holds of a scale and a receiver of its lines, whatever the line between them does: it says
/// its next line as often as it likes, any line that it ever said arrives, in any order and any
/// number of times, and so does any acknowledgement that was ever sent. What was taken is then the
/// first of its items, and it knows no more to be taken than were.
pub fn exchange_law()
    ensures { (items : List Item) (events : List Event)
        → IsFaithful items (exchanged items events) }
{}

/// What a cell takes of the connections of a scale, whatever these cut, repeat or bring out of
/// order: where each whole line on them says an item of the scale by its number, the items taken are
/// the first of the scale's.
pub fn given_law()
    ensures { (batches : Bool) (items : List Item) (connections : List Connection)
        → All (IsLineOf items) (flat_map (connection_lines batches) connections)
        → IsPrefixOf (given_items batches connections) items }
{}
