ghost use Rattle.book_file.specs.Live.{LiveRowsStay};

/// A law of the files of running halls: the rows that a reader takes are acknowledged when it has
/// counted them, and stay.
pub fn live_rows_stay()
    ensures { LiveRowsStay }
{}
