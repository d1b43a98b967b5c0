use book_words::{Name, Refused};

/// Who hears what a changing lane comes across while it goes on. What is made of it stands in no
/// clause.
pub trait ChangeNotices {
    /// The book refused to start the lane for a batch, and the lane waits for another.
    fn start_refused(&self, lane: u8, batch: Name, refused: Refused);

    /// A weight came while the lane had no batch, the last of so many since it waits.
    fn weight_without_batch(&self, lane: u8, count: u32);

    /// The lane waits no more; so many weights came while it did, one at least.
    fn weights_without_batch(&self, lane: u8, count: u32);
}
