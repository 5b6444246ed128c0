// Paced rings for the expansions of commands.
ghost use Rattle.std.specs.Prelude.{◌≡◌, ◌≤◌, true, IfOk};
ghost use Rattle.cm_expand.specs.PlanView.{plan_text};
ghost use Rattle.cm_expand.specs.Totals.{length_of};
ghost use Rattle.cm_client.specs.LineRing.{ring_of};
ghost use Rattle.cm_client.specs.Streamed.{IsFresh};

use crate::paced::PacedBoard;
use crate::streaming::BASE;
use crate::words::WordSource;
use cm_base::transfer::NoMemory;
use cm_expand::plan::Plan;
use cm_expand::rule::rule_of;
use cm_ring::munger::Munger;
use cm_ring::open::open;
use cm_ring::reader::Reader;
use cm_test::test::Accepted;
use std::alloc::Global;

/// The ends of a paced ring for a command: its board, which has all words of the expansion, its
/// munger and its reader.
#[derive(Drop)]
pub struct PacedRing<'a> {
    pub board: PacedBoard<Plan<'a>, WordSource<'a>>,
    pub munger: Munger<Plan<'a>>,
    pub reader: Reader<Plan<'a>>,
}

/// Opens a paced ring of the size of the subdevice's buffer.
pub fn open_paced<'a>(
    alloc: Global,
    plan: Plan<'a>,
    cmd: &Accepted,
) -> Result<PacedRing<'a>, NoMemory>
    requires cmd { (plan_text plan).cmd ≡ cmd.now }
    requires few { length_of (plan_text plan) ≤ 4000000 }
    ensures ring { IfOk result (λ r. r.reader.ring ≡ ring_of (plan_text plan.entry) true) }
    ensures munger { IfOk result (λ r. r.munger.table ≡ r.reader.table) }
    ensures fresh { IfOk result (λ r. IsFresh r.reader) }
{
    let sub = plan.sub();
    let rule = rule_of(alloc, sub, cmd)?;
    let words = WordSource::with_items(alloc, plan)?;
    let (writer, munger, reader) = open(alloc, sub.buffer, rule, true, BASE, plan)?;
    let board = PacedBoard::new(writer, words);
    Ok(PacedRing {
        board,
        munger,
        reader,
    })
}
