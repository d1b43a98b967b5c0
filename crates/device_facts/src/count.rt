ghost use Rattle.device_facts.specs.Count.{Counted};

/// The count of faults after one more: it stands still at the greatest `u64`.
pub fn counted_once_more(count: u64) -> u64
    ensures { Counted count result 1 }
{
    count.saturating_add(1)
}
