//! What the workers leave, and what is left where there are none.
ghost use Rattle.std.specs.Prelude.{◌≡◌, [], length, IfOk};
ghost use Rattle.claim_core.specs.{Good.{Good}, Reached.{Reached}, Tickets.{TicketReached}};
ghost use Rattle.claim_rule.specs.Views.{setup_for};

use crate::turns::Turns;
use amoebot_state::{Decider, NoMemory, World};
use claim_core::{Core, Lists, Report};
use std::alloc::Global;

/// What the workers leave: the report, and for each turn what it was answered with.
#[derive(Drop)]
pub struct Worked<A> {
    pub report: Report,
    pub turns: Turns<A>,
}

/// What is left where there is no list, and so no worker.
pub fn without_lists<D: Decider, A>(
    alloc: Global,
    decider: &D,
    world: World,
    lists: &Lists,
) -> Result<Worked<A>, NoMemory>
    requires { length lists.now.ids ≡ 0 }
    ensures ticketed { IfOk result (λ worked.
        TicketReached (setup_for D.verdict decider.now world lists.now) worked.report) }
    ensures reached { IfOk result (λ worked.
        Reached (setup_for D.verdict decider.now world lists.now) worked.report) }
    ensures good { IfOk result (λ worked. Good (D.verdict decider.now) world lists.now worked.report) }
    ensures marks { IfOk result (λ worked. worked.report.turns.marks ≡ []) }
    ensures turns { IfOk result (λ worked. worked.turns ≡ []) }
{
    let core = Core::make(alloc, decider, world, lists)?;
    Ok(Worked {
        report: core.report(),
        turns: Turns::of(Vec::new(alloc)),
    })
}
