//! Copies of the lines of a view.
ghost use Rattle.std.specs.Prelude.{◌≡◌, IfOk, List};
ghost use Rattle.dsr_ledger.specs.meaning.Bookings.{Booking};
ghost use Rattle.dsr_ledger.specs.meaning.Ledger.{ledger};
ghost use Rattle.dsr_ledger.specs.inner.Stands.{AreOfSmall, LedgerStands};

use crate::ledger::Ledger;
use crate::report::{LedgerLine, LedgerLines, Parties, PartyLine, append};
use crate::view::{LedgerView, LineView, PartyView};
use dsr_cells::NoMemory;
use dsr_texts::Items;
use std::alloc::Global;

/// Copies the parties of a line.
fn copy_parties(alloc: Global, view: &[PartyView<'_>]) -> Result<Parties, NoMemory>
    ensures { IfOk result (λ parties. parties ≡ view.now) }
{
    let mut parties = Parties::new(alloc);
    for party in view {
        let line = PartyLine {
            party: party.party.copy(alloc)?,
            amount: party.amount,
        };
        let Ok(()) = parties.push(line) else {
            return Err(NoMemory);
        };
    }
    Ok(parties)
}

/// Copies a line, with these parties.
fn copy_line(
    alloc: Global,
    view: &LineView<'_>,
    parties: &[PartyView<'_>],
) -> Result<LedgerLine, NoMemory>
    ensures { IfOk result (λ line. line ≡ record view.now { parties = parties.now }) }
{
    Ok(LedgerLine {
        isrc: *view.isrc,
        territory: view.territory.copy(alloc)?,
        use_type: view.use_type.copy(alloc)?,
        currency: view.currency.copy(alloc)?,
        usages: view.usages,
        amount: view.amount,
        unclaimed: view.unclaimed,
        parties: copy_parties(alloc, parties)?,
    })
}

/// Copies of the lines of a ledger.
pub(crate) fn copied_lines(alloc: Global, books: &Ledger) -> Result<LedgerLines, NoMemory>
    requires { ∥ AreOfSmall books.now ∥₁ }
    ensures { (bs : List Booking) → LedgerStands books.now bs
        → IfOk result (λ lines. lines ≡ ledger bs) }
{
    let mut view = LedgerView::of(alloc, books)?;
    let mut lines = Items::new(alloc);
    while let Some(line) = view.next() {
        let copy = copy_line(alloc, &line, view.parties())?;
        append(&mut lines, copy)?;
    }
    Ok(lines)
}
