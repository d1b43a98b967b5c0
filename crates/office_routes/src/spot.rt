/// What is found at a path.
#[derive(Clone, Copy, Drop, PartialEq, Eq)]
pub enum Spot {
    /// `/acts`: acts, which are posted.
    Acts,
    /// `/acts/{number}`: the rows behind so many, a page of them.
    Rows,
    /// `/rows/{number}`: that page as a shipment.
    Shipment,
    /// `/summary`: the summary of the book.
    Summary,
    /// `/batches/{name}`: the sheet of a batch.
    Sheet,
    /// `/batches/{name}/sample`: the sample of a batch.
    Sample,
    /// `/batches/{name}/packs/{number}`: the packs of a batch above a number, a page of them.
    Packs,
    /// `/packs/{number}`: a pack.
    Pack,
    /// `/lanes/{number}`: a lane.
    Lane,
}
