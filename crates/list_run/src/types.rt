use book_words::{BatchState, Name, Unit};

/// A product, with what is in force for it.
#[derive(Clone, Copy)]
pub struct ProductLine {
    pub product: Name,
    /// The nominal quantity: mg or microlitres, by its unit.
    pub nominal: i64,
    pub unit: Unit,
    /// The tare on the newest day, in mg, where there is one.
    pub tare: Option<i64>,
}

/// A tare that holds from a day to come on.
#[derive(Clone, Copy)]
pub struct TareLine {
    pub product: Name,
    /// The day, since 1970-01-01.
    pub day: i32,
    /// In mg.
    pub tare: i64,
}

/// A batch.
#[derive(Clone, Copy)]
pub struct BatchLine {
    pub batch: Name,
    pub product: Name,
    pub state: BatchState,
    /// How many packs its population has.
    pub population: u32,
}

/// A lane that has a batch.
#[derive(Clone, Copy)]
pub struct LaneLine {
    pub lane: u8,
    pub batch: Name,
}

/// A desk with its last request.
#[derive(Clone, Copy)]
pub struct DeskLine {
    pub desk: u16,
    pub request: u32,
}

/// How many rows a book has, and how many more it may have.
#[derive(Clone, Copy)]
pub struct RowsLine {
    pub rows: u32,
    pub left: u32,
}

/// What a line says.
#[derive(Clone, Copy)]
pub enum Line {
    /// The newest day, since 1970-01-01, where one was set.
    Day(Option<i32>),
    /// A product.
    Product(ProductLine),
    /// A tare to come.
    Tare(TareLine),
    /// A batch.
    Batch(BatchLine),
    /// A lane.
    Lane(LaneLine),
    /// A desk.
    Desk(DeskLine),
    /// The rows.
    Rows(RowsLine),
}

/// The lines of which an act may have one each.
#[derive(Clone, Copy)]
pub enum Section {
    /// Products, at the acts that put them.
    Products,
    /// Tares to come, at the acts that put them.
    Tares,
    /// Batches, at the acts that open them.
    Batches,
}
