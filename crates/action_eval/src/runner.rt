//! The interpreter: what a checked program decides on what an amoebot is shown.

ghost use Rattle.std.specs.{Prelude.{◌≡◌, ◌≤◌, true, length, map}, List.{All, list_all}};
ghost use Rattle.amoebot_state.specs.Zones.{IsShown, shown_alone};
ghost use Rattle.amoebot_state.specs.declared.verdict.Verdict.TheVariants as verdict;
ghost use Rattle.model_ops.specs.{Reaches.{Reaches}, WorkingCopies.{opened, own_id, changes}};
ghost use Rattle.action_tree.specs.{Limits.{most_actions}, Places.{action_placed, actions_placed}};
ghost use Rattle.action_tree.specs.Writable.{is_action};
ghost use Rattle.action_tree.specs.Views as view;
ghost use Rattle.action_check.specs.Rules.{ActionKept};
ghost use Rattle.action_meaning.specs.Verdicts.{actions_verdict, action_effect, verdict_of_result};
ghost use Rattle.action_eval.specs.{Known.{known, scope_of}, Running.{HasDecided, moment_of}};

use crate::effect::run_action;
use crate::names::Names;
use crate::value::quick_value;
use action_check::Checked;
use action_tree::Action;
use amoebot_state::{Change, Decider, Failure, Found, Moved, Patch, Verdict};
use model_ops::Site;
use std::marker::Model;

/// The decider of a checked program.
/// It decides on a working copy of what an amoebot is shown, and takes no memory.
#[derive(Drop)]
pub struct Runner {
    checked: Checked,
}

impl Model for Runner {
    ghost use Rattle.action_tree.specs.Stored.{program_code};
    ghost use Rattle.action_tree.specs.Trees.{Program as Tree};

    ghost Value = { Tree };

    ghost coded = { program_code };

    ghost view = { λ r. r.checked };
}

impl Runner {
    /// The decider of a program.
    pub fn new(checked: Checked) -> Runner
        ensures { result ≡ checked }
    {
        Runner { checked }
    }

    /// The program.
    pub fn checked(&self) -> &Checked
        ensures { result.now ≡ self.now }
    {
        &self.checked
    }
}

impl Decider for Runner {
    ghost use Rattle.action_meaning.specs.Verdicts.{verdict_shown};
    ghost use Rattle.action_meaning.proofs.Decided.{programs_decide_by_acts};
    ghost use Rattle.model_ops.proofs.ActsDecide.{acts_keep_decider_laws};

    ghost verdict = { verdict_shown };

    fn decide(&self, found: &Found) -> Verdict {
        let program = self.checked.program();
        let names = Names::new(program.vars());
        // Its clause says that some valid world shows what was found.
        let _ = found.own();
        // Borrowed where it was made: a working copy with a name
        // of its own would be moved once more.
        let site = &mut Site::new(found);
        match actions_decide(program.actions(), program.guard(), site, names) {
            Ok(Some((action, moved))) => change_made(action, moved, site),
            Ok(None) => Verdict::Idle,
            Err(failure) => Verdict::Failed(failure),
        }
    }

    ghost is_lawful = { λ p. acts_keep_decider_laws (verdict_shown p) (programs_decide_by_acts p) };
}

/// The actions in the order of the text: the first whose guard is not false decides.
/// Where it is made, the working copy has come to what it leaves,
/// and its number and its movement are given back.
fn actions_decide<'p>(
    actions: &'p [Action],
    guard: bool,
    site: &mut Site<'_>,
    names: Names<'p>,
) -> Result<Option<(u8, Moved)>, Failure>
    requires shown { IsShown site.old.found }
    requires opened { site.old ≡ opened site.old.found }
    requires few { length actions.now ≤ most_actions }
    requires kept { All (ActionKept (scope_of (known names))) (map view.action_of actions.now) }
    requires placed { actions_placed actions.now (scope_of (known names)) ≡ true }
    requires counted { list_all is_action (map view.action_of actions.now) ≡ true }
    ensures { HasDecided (actions_verdict guard (known names.entry) site.old.reached (own_id site.old) 0
        (map view.action_of actions.now)) result site.old site.new }
{
    for (number, action) in actions.iter().enumerate() {
        if quick_value(&action.guard, site, &names)? {
            return action_decides(number as u8, action, guard, site, names);
        }
    }
    Ok(None)
}

/// An action whose guard is true: what its statements and its movement do decides,
/// or their failure.
fn action_decides<'p>(
    number: u8,
    action: &'p Action,
    guard: bool,
    site: &mut Site<'_>,
    names: Names<'p>,
) -> Result<Option<(u8, Moved)>, Failure>
    requires shown { IsShown site.old.found }
    requires opened { site.old ≡ opened site.old.found }
    requires kept { ActionKept (scope_of (known names)) (view.action_of action.now) }
    requires placed { action_placed action.now (scope_of (known names)) ≡ true }
    requires counted { is_action (view.action_of action.now) ≡ true }
    ensures { HasDecided (verdict_of_result site.old.reached number (action_effect guard (own_id site.old)
        (view.action_of action.now) (moment_of site.old (known names.entry)))) result site.old site.new }
{
    let moved = run_action(action, guard, site, names)?;
    Ok(Some((number, moved)))
}

/// The verdict that an action was made, which leaves what the working copy has come to.
/// It stays a function of its own, since most turns make none.
#[inline(never)]
fn change_made(action: u8, moved: Moved, site: &Site<'_>) -> Verdict
    requires { Reaches (shown_alone site.now.found) (own_id site.now) site.now.reached }
    ensures { result ≡ verdict.Change (record { action = action; moved = moved; patch = changes site.now }) }
{
    let mut patch = Patch::new();
    site.push_changes(&mut patch);
    Verdict::Change(Change {
        action,
        moved,
        patch,
    })
}
