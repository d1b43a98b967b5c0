ghost use Rattle.std.specs.Prelude.{◌≡◌, ◌+◌, ◌∷◌, [], IfOk};
ghost use Rattle.turn_pass.specs.History.{appended, own};

use std::alloc::Global;
use std::marker::Brand;
use std::sync::ledger::{Blank, Ledger};
use std::test::Fail;
use turn_pass::{BookSeat, NoMemory, PassSeat, Turn};

// What stands before the Turn is closed.
struct Open<L: Ledger, M: Ledger> {
    turn: Turn<u32, L, M>,
    book: BookSeat<u32, L, M>,
    one: PassSeat<u32, L, M>,
    two: PassSeat<u32, L, M>,
    first: u32,
    second: u32,
}

// Two passes over a history of three rows: each appends an entry, meets the note of it and sees it.
fn two_appends<L: Ledger, M: Ledger>(
    alloc: Global,
    rows: Blank,
    faults: Blank,
) -> Result<Open<L, M>, NoMemory>
    requires rows { (rows.name ≡ L.name) × (rows.parts ≡ L.parts) × (rows.parts ≡ 3) }
    requires faults { (faults.name ≡ M.name) × (faults.parts ≡ M.parts) × (faults.parts ≡ 3) }
    ensures numbers { IfOk result (λ made. (made.first ≡ 4) × (made.second ≡ 5)) }
    ensures one { IfOk result (λ made.
        (made.one.seen ≡ appended 1 71 ∷ []) × (made.one.mine ≡ own 4 71 ∷ [])) }
    ensures two { IfOk result (λ made.
        (made.two.seen ≡ appended 1 71 ∷ appended 2 72 ∷ []) × (made.two.mine ≡ own 5 72 ∷ [])) }
    ensures turn { IfOk result (λ made.
        (made.book.table ≡ made.turn.table)
        × (made.one.table ≡ made.turn.table)
        × (made.two.table ≡ made.turn.table)) }
    ensures parts { IfOk result (λ made. (made.book.row_parts ≡ 1) × (made.book.fault_parts ≡ 1)) }
{
    let (turn, mut book) = Turn::begin(alloc, 3, rows, faults)?;
    let mut one = book.pass(&turn, 1);
    let mut two = book.pass(&turn, 2);
    let first = book.append(&turn, &mut one, 71);
    let note = book.note(&turn);
    one.meet(&turn, note);
    one.see(&turn, first, 71);
    let second = book.append(&turn, &mut two, 72);
    let note = book.note(&turn);
    two.meet(&turn, note);
    two.see(&turn, second, 72);
    Ok(Open {
        turn,
        book,
        one,
        two,
        first,
        second,
    })
}

fn the_row<L: Ledger, M: Ledger>(
    alloc: Global,
    rows: Blank,
    faults: Blank,
) -> Result<(u32, u32, (u32, u64)), NoMemory>
    requires rows { (rows.name ≡ L.name) × (rows.parts ≡ L.parts) × (rows.parts ≡ 3) }
    requires faults { (faults.name ≡ M.name) × (faults.parts ≡ M.parts) × (faults.parts ≡ 3) }
{
    let mut passes = Vec::with_capacity(alloc, 2)?;
    let Open {
        turn,
        book,
        one,
        two,
        first,
        second,
    } = two_appends::<L, M>(alloc, rows, faults)?;
    passes.push_reserved(one);
    passes.push_reserved(two);
    Ok((first, second, turn.close(book, passes)))
}

#[test]
fn two_passes_over_three_rows(rt: HostRuntime) -> Result<(), Fail> {
    let answers = the_row::<Brand, Brand>(rt.alloc(), Blank::new(3), Blank::new(3))?;
    assert!(rt; answers == (4, 5, (5, 0)));
    Ok(())
}
