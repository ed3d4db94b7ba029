//! The ports of an amoebot, and its inner direction.

ghost use Rattle.std.specs.Prelude.{◌≡◌, ◌<◌, ◌≤◌, IfOk, filter, length, unwrap_or};
ghost use Rattle.amoebot_state.specs.{Ports.{is_port}, Refusals.{IsBotInRange}};
ghost use Rattle.action_meaning.specs.Values as spec;
ghost use Rattle.action_eval.specs.Known.{sight_of, is_in_set};

use action_tree::PortSet;
use amoebot_state::{ALL_PORTS, Bot, Failure, Port};
use arrayvec::ArrayVec;
use model_ops::Site;

/// The ports of a set, in port order: the connected ones,
/// or those whose node behind can be entered.
pub fn ports_of(set: PortSet, site: &Site<'_>) -> ArrayVec<Port, 12>
    ensures { result.items ≡ spec.ports_of (sight_of site.now) set }
{
    let mut ports = ArrayVec::new();
    for port in ALL_PORTS.iter() {
        if is_one_of(set, site, *port) {
            ports.push(*port);
        }
    }
    ports
}

/// The pairs that may be ports, in port order: of a contracted amoebot those of its head alone.
#[inline(always)]
pub fn pairs(site: &Site<'_>) -> &'static [Port]
    ensures whole { (set : PortSet)
        → spec.ports_of (sight_of site.now) set ≡ filter (is_in_set (sight_of site.now) set) result.now }
    ensures few { length result.now ≤ 12 }
{
    if site.own().is_contracted() {
        &ALL_PORTS[..6]
    } else {
        &ALL_PORTS[..]
    }
}

/// Whether a pair is a port of the set.
#[inline(always)]
pub fn is_one_of(set: PortSet, site: &Site<'_>, port: Port) -> bool
    ensures { result ≡ is_in_set (sight_of site.now) set port }
{
    let is_one = match set {
        PortSet::Ports => site.connected(port),
        PortSet::Free => site.is_free(port),
    };
    match is_one {
        Ok(is_one) => is_one,
        Err(_) => false,
    }
}

/// Whether a pair is a port of the amoebot.
pub fn is_own_port(port: Port, site: &Site<'_>) -> bool
    ensures { result ≡ is_port (sight_of site.now).own port }
{
    site.own().is_port(port)
}

/// The local direction from the tail to the head. NotExpanded, the amoebot is contracted.
pub fn inner_value(own: &Bot) -> Result<u8, Failure>
    requires { IsBotInRange own.now }
    ensures value { result ≡ spec.inner_value own.now }
    ensures range { IfOk result (λ d. d < 6) }
{
    if own.is_contracted() {
        Err(Failure::NotExpanded)
    } else {
        Ok(inner_direction(own))
    }
}

/// The first local direction whose step from the tail leads to the head; 0 where none does,
/// as it is of no amoebot.
fn inner_direction(own: &Bot) -> u8
    requires { IsBotInRange own.now }
    ensures value { result ≡ unwrap_or (spec.inner_direction own.now) 0 }
    ensures range { result < 6 }
{
    for local in [0, 1, 2, 3, 4, 5].iter() {
        if own.tail.step(own.global(*local)) == own.head {
            return *local;
        }
    }
    0
}
