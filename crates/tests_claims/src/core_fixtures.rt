ghost use Rattle.std.specs.Prelude.{◌≡◌, length, IfOk, IsSome};
ghost use Rattle.std.specs.List.{All};
ghost use Rattle.amoebot_state.specs.Configs.{bot_at};
ghost use Rattle.amoebot_state.specs.Zones.{shown_alone};
ghost use Rattle.tests_claims.specs.Dragging.{drag, note, by_peer, by_link};

use amoebot_state::{Change, Decider, Failure, Found, Moved, Port, Verdict, World};
use claim_core::{Core, Lists};
use model_ops::{Peer, Site};
use std::alloc::Global;
use std::test::Fail;
use tri_lattice::Area;

/// The program of two actions of an expanded amoebot: `drag`,
/// when a contracted neighbour is behind a port, pulls it; else `note` sets variable 0 to 1.
pub struct Dragger {
    pub port: Port,
}

impl Decider for Dragger {
    ghost use Rattle.tests_claims.specs.Dragging.{dragging_shown};
    ghost use Rattle.tests_claims.specs.DraggingLaws.{dragging_is_lawful};

    ghost verdict = { λ d. dragging_shown d.port };

    fn decide(&self, found: &Found) -> Verdict {
        if found.own().is_contracted() {
            return Verdict::Idle;
        }
        let site = Site::new(found);
        by_link(found, self.port, site.connected(self.port))
    }

    ghost is_lawful = { λ d. dragging_is_lawful d.port };
}

/// What is decided where there is such a neighbour, or none.
fn by_link(found: &Found, port: Port, link: Result<bool, Failure>) -> Verdict
    ensures { result ≡ by_link port (shown_alone found.now) found.now.bot link }
{
    match link {
        Ok(true) => {
            let site = Site::new(found);
            by_peer(found, port, site.peer(port))
        }
        Ok(false) => note(found),
        Err(failure) => Verdict::Failed(failure),
    }
}

/// What is decided by what is seen of it.
fn by_peer(found: &Found, port: Port, seen: Result<Peer, Failure>) -> Verdict
    ensures { result ≡ by_peer port (shown_alone found.now) found.now.bot seen }
{
    match seen {
        Ok(peer) => {
            if peer.expanded {
                note(found)
            } else {
                drag(found, port)
            }
        }
        Err(failure) => Verdict::Failed(failure),
    }
}

fn drag(found: &Found, port: Port) -> Verdict
    ensures { result ≡ drag port (shown_alone found.now) found.now.bot }
{
    let mut site = Site::new(found);
    match site.pull(port) {
        Ok(()) => Verdict::Change(Change {
            action: 0,
            moved: Moved::Pull(port),
            patch: site.patch(),
        }),
        Err(failure) => Verdict::Failed(failure),
    }
}

fn note(found: &Found) -> Verdict
    ensures { result ≡ note (shown_alone found.now) found.now.bot }
{
    let mut site = Site::new(found);
    match site.write(None, 0, 1) {
        Ok(()) => Verdict::Change(Change {
            action: 1,
            moved: Moved::None,
            patch: site.patch(),
        }),
        Err(failure) => Verdict::Failed(failure),
    }
}

/// The area of all worlds here.
pub fn the_area() -> Option<Area> {
    Area::new(0, 0, 8, 8)
}

/// The core of these lists over a world.
pub fn core_of<'d, D: Decider>(
    alloc: Global,
    decider: &'d D,
    world: World,
    lists: &Lists,
) -> Result<Core<'d, D>, Fail>
    requires { All (All (λ id. IsSome (bot_at world id))) lists.now.ids }
    ensures { IfOk result (λ core. length core.state.callers ≡ length lists.now.ids) }
{
    Ok(
        Core::make(alloc, decider, world, lists)
            .ok()
            .ok_or("no core")?,
    )
}
