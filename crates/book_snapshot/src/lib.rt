//! The dense form of rows, and the snapshot that keeps it on a disk: rows without the zeros at
//! their ends, in blocks between a head and a tail.
#![tactic(auto)]

mod blocks;
mod dense;
mod ends;
mod layout;
mod read;
mod types;

pub use blocks::{content_of_blocks, put_blocks};
pub use dense::{dense_forms_read_back, squeeze};
pub use ends::{head_block, read_tail, tail_block};
pub use layout::{
    BLOCK_CONTENT, HEAD, KIND_PLACE, MARK, MAX_CONTENT, NUMBER_PLACE, OLD_ROW_BYTES, OPEN,
    ROW_BYTES, TAIL, blocks_for, snapshot_end, snapshot_place,
};
pub use read::read_one;
pub use types::{Dense, Kept, Piece};
