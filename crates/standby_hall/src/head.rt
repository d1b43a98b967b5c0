ghost use Rattle.std.specs.Prelude.{◌≡◌, Some, IfSome};
ghost use Rattle.standby_hall.specs.Shipments.{head_bytes, IsHead};
ghost use Rattle.standby_hall.specs.declared.types.ShipHead.{ShipHead as Heading};

use crate::types::ShipHead;
use hall_limits::MAX_ROWS;
use hall_units::get_u32;

/// A shipment begins with so many bytes that say what it has.
pub const HEAD_BYTES: usize = 16;

const TITLE: [u8; 8] = *b"AQHSHIP2";

// The place of the number of all rows, and that of the rows passed over.
const ALL_PLACE: usize = 8;

const PASSED_PLACE: usize = 12;

/// A head in bytes.
pub(crate) fn spell_head(head: &ShipHead) -> [u8; HEAD_BYTES]
    ensures { result ≡ head_bytes head.now }
{
    let mut bytes = [0; HEAD_BYTES];
    bytes[..ALL_PLACE].copy_from_slice(&TITLE);
    bytes[ALL_PLACE..PASSED_PLACE].copy_from_slice(&head.all.to_le_bytes());
    bytes[PASSED_PLACE..].copy_from_slice(&head.passed.to_le_bytes());
    bytes
}

/// The head that bytes are; `None` where they are none.
pub(crate) fn parse_head(bytes: &[u8; HEAD_BYTES]) -> Option<ShipHead>
    ensures some { IfSome result (λ head. bytes.now ≡ head_bytes head) }
    ensures good { IfSome result IsHead }
    ensures back { (head : Heading) → IsHead head → bytes.now ≡ head_bytes head
        → result ≡ Some head }
{
    let head = ShipHead {
        all: get_u32(bytes, ALL_PLACE),
        passed: get_u32(bytes, PASSED_PLACE),
    };
    if head.passed <= head.all && head.all <= MAX_ROWS && spell_head(&head) == *bytes {
        return Some(head);
    }
    None
}
