ghost use Rattle.std.specs.Prelude.{◌≡◌, ◌≢◌, IfSome, IfNone, IfOk};
ghost use Rattle.shipped_programs.specs.declared.shipped.Shipped.{Shipped};
ghost use Rattle.shipped_programs.specs.Shipped.{shipped_name, tree_of, text_of};

use crate::erosion::erosion;
use crate::hexagon::hexagon;
use crate::line::line;
use action_check::{Checked, check, rows_are_derived};
use action_tree::Program;
use amoebot_state::NoMemory;
use std::alloc::{AllocError, Global};
use text_tokens::ReadRefusal;

/// The text of `hexagon`, in which amoebots of a common chirality gather in a hexagon round a seed.
/// Its variable `state` is 0 idle, 1 seed, 2 follower, 3 root, 4 retired;
/// in `parent` and `aim` 6 stands for no direction.
/// The seed starts with `aim` 0.
pub const HEXAGON: &str = "\
program
guard off
var state 4
var parent 6
var aim 6
action root
when contracted and ( state = 0 or state = 2 )
 and any p in ports ( p . state = 1 or p . state = 4 )
do parent := 6 ; state := 3
action follow
when contracted and state = 0
 and any p in ports ( p . state = 2 or p . state = 3 )
do let q := first p in ports ( p . state = 2 or p . state = 3 ) ;
 parent := dir q ; state := 2
action retire
when contracted and state = 3 and any p in ports (
 ( p . state = 1 or p . state = 4 ) and p . aim = peer_dir p )
do let q := first p in ports ( ( p . state = 1 or p . state = 4 )
 and not ( linked turn p 5
 and ( turn p 5 . state = 1 or turn p 5 . state = 4 ) ) ) ;
 aim := dir turn q 5 ; state := 4
action go
when contracted and state = 3 and any p in ports (
 ( p . state = 1 or p . state = 4 ) and free turn p 1 )
move expand turn first p in ports (
 ( p . state = 1 or p . state = 4 ) and free turn p 1 ) 1
action drag
when expanded and ( state = 2 or state = 3 )
 and not any p in ports ( p . state = 0 )
 and any p in ports ( not at_head p and p . state = 2
 and not peer_expanded p and p . parent = peer_dir p )
do let q := first p in ports ( not at_head p and p . state = 2
 and not peer_expanded p and p . parent = peer_dir p ) ;
 q . parent := mod6 ( inner - dir q + peer_dir q + 3 )
move pull q
action rest
when expanded and ( state = 2 or state = 3 )
 and not any p in ports ( p . state = 0 or not at_head p
 and p . state = 2 and peer_head p and p . parent = peer_dir p )
move contract tail
end
";

/// The text of `erosion`, in which contracted amoebots give up to be a leader until one is left.
/// They all start with `cand` 1 and `leader` 0.
pub const EROSION: &str = "\
program
guard off
var cand 1
var leader 1
action lead
when cand = 1 and leader = 0 and not any p in ports ( p . cand = 1 )
do leader := 1
action erode
when cand = 1 and count p in ports ( p . cand = 1
 and not ( linked turn p 1 and turn p 1 . cand = 1 ) ) = 1
do cand := 0
end
";

/// The text of `line`, in which the amoebots of one row with a common orientation
/// gather at the border of the area.
pub const LINE: &str = "\
program
guard off
action out
when contracted and free head 0
move expand head 0
action follow_up
when expanded
move contract tail
end
";

/// A shipped program.
#[derive(Clone, Copy, Debug, PartialEq, Eq)]
pub enum Shipped {
    /// Amoebots gather in a hexagon round a seed.
    Hexagon,
    /// Candidates give up until one is left, which leads.
    Erosion,
    /// The amoebots of a row gather at the border of the area.
    Line,
}

impl Shipped {
    /// The shipped program with a name; None exactly for another name than `hexagon`,
    /// `erosion` and `line`.
    pub fn named(name: &str) -> Option<Shipped>
        ensures some { IfSome result (λ s. name.now ≡ shipped_name s) }
        ensures none { IfNone result ((s : Shipped) → name.now ≢ shipped_name s) }
    {
        if name == "hexagon" {
            Some(Shipped::Hexagon)
        } else if name == "erosion" {
            Some(Shipped::Erosion)
        } else if name == "line" {
            Some(Shipped::Line)
        } else {
            None
        }
    }

    /// The program, which keeps the rules on names and ranges. All of its lines are 0.
    pub fn program(self, alloc: Global) -> Result<Checked, NoMemory>
        ensures { IfOk result (λ program. program ≡ tree_of self) }
    {
        rows_are_derived();
        match check(alloc, make(alloc, self)?) {
            Ok(checked) => Ok(checked),
            Err(ReadRefusal::NoMemory) => Err(NoMemory),
            Err(ReadRefusal::Refused(_)) => unreachable!(),
        }
    }
}

/// The text of the shipped program with a name; None exactly for another name than `hexagon`,
/// `erosion` and `line`.
pub fn shipped_text(name: &str) -> Option<&'static str>
    ensures some { IfSome result (λ text.
        (s : Shipped) × (name.now ≡ shipped_name s) × (text.now ≡ text_of s)) }
    ensures none { IfNone result ((s : Shipped) → name.now ≢ shipped_name s) }
{
    match Shipped::named(name)? {
        Shipped::Hexagon => Some(HEXAGON),
        Shipped::Erosion => Some(EROSION),
        Shipped::Line => Some(LINE),
    }
}

/// The shipped program with a name; None exactly for another name than `hexagon`,
/// `erosion` and `line`.
/// All of its lines are 0.
pub fn shipped_program(alloc: Global, name: &str) -> Result<Option<Checked>, NoMemory>
    ensures some { IfOk result (λ o.
        IfSome o (λ program. (s : Shipped) × (name.now ≡ shipped_name s) × (program ≡ tree_of s))) }
    ensures none { IfOk result (λ o. IfNone o ((s : Shipped) → name.now ≢ shipped_name s)) }
{
    match Shipped::named(name) {
        Some(shipped) => Ok(Some(shipped.program(alloc)?)),
        None => Ok(None),
    }
}

fn make(alloc: Global, shipped: Shipped) -> Result<Program, AllocError>
    ensures { IfOk result (λ program. program ≡ tree_of shipped) }
{
    match shipped {
        Shipped::Hexagon => hexagon(alloc),
        Shipped::Erosion => erosion(alloc),
        Shipped::Line => line(alloc),
    }
}
