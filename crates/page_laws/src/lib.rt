//! The laws that pages of rows are together the book as text, that each is a shipment, and that
//! pages of packs are together the packs of a batch.
#![tactic(auto)]

ghost use Rattle.page_laws.specs.Whole.{ArePagesWhole, ArePagesShipped};
ghost use Rattle.page_laws.specs.PackPages.{ArePacksWhole, AreShortPagesLast, IsEachPackTold};

/// A law, and no work: pages that are asked one after another, each behind the last row of the one
/// before, up to the end of the list, have the book as text.
pub fn pages_are_whole()
    ensures { ArePagesWhole }
{}

/// A law, and no work: a page as a shipment is the shipment of the list up to the last of its rows.
/// Behind all rows it is that of the whole list.
pub fn pages_are_shipped()
    ensures { ArePagesShipped }
{}

/// A law, and no work: over a legal list pages of the packs of a batch that are asked one after
/// another, each behind the last pack of the one before, up to an empty one, have the lines of all
/// packs of the batch above the number that the first was asked behind.
pub fn packs_are_whole()
    ensures { ArePacksWhole }
{}

/// A law, and no work: over a legal list none of these packs is left out, since each is told.
pub fn each_pack_is_told()
    ensures { IsEachPackTold }
{}

/// A law, and no work: over a legal list a page with fewer packs than a page may have is the last.
pub fn short_pages_are_last()
    ensures { AreShortPagesLast }
{}
