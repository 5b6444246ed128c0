// The rule by which a ring munges.
ghost use Rattle.std.specs.Prelude.{IfOk};
ghost use Rattle.cm_board.specs.Munge.{MayShift};
ghost use Rattle.cm_sample.specs.Rule.{IsRule};

use cm_base::transfer::NoMemory;
use cm_board::board::Munge;
use cm_sample::rule::{MungeItem, MungeRule};
use std::alloc::Global;

/// The rule of one list entry, with the codes of 8 bits.
pub fn rule_of(alloc: Global, kind: Munge) -> Result<MungeRule, NoMemory>
    requires { MayShift kind }
    ensures { IfOk result (λ rule. IsRule rule) }
{
    let item = MungeItem { kind, maxdata: 255 };
    Ok(MungeRule {
        items: vec![in alloc; item]?,
        out: false,
        raw: false,
    })
}
