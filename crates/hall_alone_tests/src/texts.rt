//! Scripts, tables and what is printed of them.

/// Two rows.
pub const TWO: &[u8] = b"day 2025-03-03\nproduct rice250 250\n";

/// Their answers and the balance.
pub const TWO_ANSWERED: &str = "1 ok\n2 ok\nrows 2\nreadings 0 gross 0.000\n\
passed 0 gross 0.000\nrejected 0 gross 0.000\nsampled 0 gross 0.000\nvoided 0 gross 0.000\n\
batches running 0 ended 0 drawn 0 closed 0\n";

/// Five rows: a batch A of a product of 250 g, which runs on lane 1. A tare of 10 g makes the limits
/// of the gross 251 g and 242 g.
pub const FIVE_ROWS: &[u8] = b"day 2025-03-03\nproduct rice250 250\ntare rice250 2025-03-03 10\n\
open A rice250\nstart 1 A\n";

/// Five more: a tare that is corrected makes the first pack inadequate, and the batch is held until
/// it is voided.
pub const THREE_PACKS: &[u8] = b"weigh 1 243.000\ntare rice250 2025-03-03 12\nweigh 1 260.000\n\
void 6\nweigh 1 260.000\n";

/// Their answers over the five rows, and the balance.
pub const THREE_ANSWERED: &str = "6 pass\n7 ok\n8 reject held\n9 ok\n10 pass\nrows 10\n\
readings 3 gross 763.000\npassed 1 gross 260.000\nrejected 1 gross 260.000\n\
sampled 0 gross 0.000\nvoided 1 gross 243.000\nbatches running 1 ended 0 drawn 0 closed 0\n";

/// The sheet of their batch.
pub const SHEET: &str = "batch A product rice250 nominal 250.000 tne 9.000\nstate running\n\
readings 3 gross 763.000\npassed 1 gross 260.000\nrejected 1 gross 260.000\n\
sampled 0 gross 0.000\nvoided 1 gross 243.000\npopulation 1 net 248.000 nonstandard 0 inadequate 0\n\
held no\n";

/// What is in force behind them, where there is room for one more row.
pub const LISTED: &str = "day 2025-03-03\n\
product rice250 nominal 250.000 g tare 12.000\n\
batch A product rice250 state running population 1\nlane 1 batch A\nrows 10 left 1\n";

/// The five rows behind the first five, as text.
pub const ACTS: &str = "6 pass\tscript\tweigh 1 243.000 none\n\
7 ok\tscript\ttare rice250 2025-03-03 12.000\n\
8 reject held\tscript\tweigh 1 260.000 opened\n9 ok\tscript\tvoid 6\n\
10 pass\tscript\tweigh 1 260.000 none\n";

/// Their register.
pub const REGISTER: &str = "\
pack,batch,product,lane,day,gross,net,class,signal,pile
6,A,rice250,1,2025-03-03,243.000,231.000,inadequate,pass,voided
8,A,rice250,1,2025-03-03,260.000,248.000,standard,reject held,rejected
10,A,rice250,1,2025-03-03,260.000,248.000,standard,pass,passed
";

/// An import of two acts of a desk.
pub const TWO_ACTS: &[u8] = b"desk,request,command\n101,1,day 2025-03-03\n101,2,product a 250\n";

/// What the trial of the number 0 with two packs prints.
pub const TWO_TRIED: &str = "rows 17\nreadings 2 gross 521.601\npassed 0 gross 0.000\n\
rejected 0 gross 0.000\nsampled 2 gross 521.601\nvoided 0 gross 0.000\n\
batches running 0 ended 0 drawn 0 closed 1\n";

/// A journal of version 1 with one row, a day, and a closed gate. It was written by hand from
/// docs/FORMATS.md.
pub const OLD_JOURNAL: &[u8] = b"AQHBOOK1\0\0\0\0\0\0\0\0\0\0\0\0\0\0\0\0\0\0\0\0\0\0\0\0\
\0\0\0\0\0\0\0\0\0\0\0\0\0\0\0\0\0\0\0\0\0\0\0\0\0\0\0\0\0\0\0\0\
\x01\x01\x01\0\0\0\0\0\0\0\0\0\0\0\xb6\x4e\0\0\0\0\0\0\0\0\0\0\0\0\0\0\0\0\
\0\0\0\0\0\0\0\0\0\0\0\0\0\0\0\0\0\0\0\0\0\0\0\0\0\0\0\0\0\0\0\0\0";

/// The shipment of a book with one row, a day. It was written by hand from docs/FORMATS.md.
pub const ONE_SHIPPED: &[u8] = b"AQHSHIP2\x01\0\0\0\0\0\0\0\
\x01\x01\x01\0\0\0\0\0\0\0\0\0\0\0\xb6\x4e\0\0\0\0\0\0\0\0\0\0\0\0\0\0\
\0\0\0\0\0\0\0\0\0\0\0\0\0\0\0\0\0\0\0\0\0\0\0\0\0\0\0\0\0\0\0\0\
\0\0\0\0\0\0\0\0\0\0\0\0\0\0\0\0\0\0\0\0\0\0\0\0\0\0\0\0\0\0\0\0\0\0";

/// Six rows: a batch that is closed without a pack.
pub const CLOSED: &[u8] = b"day 2025-03-03\nproduct rice250 250\ntare rice250 2025-03-03 10\n\
open A rice250\nend A\nclose A\n";

/// Its paper.
pub const PAPER: &str = "paper 1\n\
batch A product rice250 nominal 250.000 unit g density 1000.000 row 6\nverdict empty\n";

/// The same as the input of a check.
pub const PAPER_READ: &[u8] = b"paper 1\n\
batch A product rice250 nominal 250.000 unit g density 1000.000 row 6\nverdict empty\n";
