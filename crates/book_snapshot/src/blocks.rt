ghost use Rattle.std.specs.Prelude.{◌≡◌, ◌+◌, ◌*◌, ◌≤◌, ◌++◌, min, length, take, drop};
ghost use Rattle.book_snapshot.specs.Layout.{blocks_for};
ghost use Rattle.book_snapshot.specs.Blocks.{content_block, content_blocks, block_content};

use crate::layout::{BLOCK_CONTENT, BLOCK_HEAD, MAX_CONTENT, ROW_BYTES};

/// Puts content into blocks, as many as there is room for; the content is for that many.
pub fn put_blocks(content: &[u8], into: &mut [u8])
    requires most { length content.now ≤ MAX_CONTENT }
    requires room { length into.old ≡ ROW_BYTES * blocks_for (length content.now) }
    ensures { into.new ≡ content_blocks (blocks_for (length content.now)) content.now }
{
    let count = into.len() / ROW_BYTES;
    for block in 0..count {
        let start = BLOCK_CONTENT * block;
        let end = (start + BLOCK_CONTENT).min(content.len());
        let place = ROW_BYTES * block;
        put_block(&content[start..end], &mut into[place..place + ROW_BYTES]);
    }
}

// Puts a piece of the content into a block.
fn put_block(piece: &[u8], into: &mut [u8])
    requires most { length piece.now ≤ BLOCK_CONTENT }
    requires room { length into.old ≡ ROW_BYTES }
    ensures { into.new ≡ content_block piece.now }
{
    let mut block = [0; ROW_BYTES];
    block[BLOCK_HEAD..BLOCK_HEAD + piece.len()].copy_from_slice(piece);
    into.copy_from_slice(&block);
}

/// Takes the content out of blocks, as much as there is room for.
pub fn content_of_blocks(blocks: &[u8], into: &mut [u8])
    requires most { length into.old ≤ MAX_CONTENT }
    requires blocks { length blocks.now ≡ ROW_BYTES * blocks_for (length into.old) }
    ensures { into.new ≡
        take (length into.old) (block_content (blocks_for (length into.old)) blocks.now) }
{
    let count = blocks.len() / ROW_BYTES;
    for block in 0..count {
        let start = BLOCK_CONTENT * block;
        let end = (start + BLOCK_CONTENT).min(into.len());
        let place = ROW_BYTES * block + BLOCK_HEAD;
        into[start..end].copy_from_slice(&blocks[place..place + (end - start)]);
    }
}
