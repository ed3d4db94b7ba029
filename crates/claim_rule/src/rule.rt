//! The rule, and what each step tells the seat that makes it. These types are for the proofs alone.
ghost use Rattle.claim_rule.specs.{Views.{field_terms}, Stands.{KeepsRule, first_view}};
ghost use Rattle.claim_rule.specs.Plays.{Claims, Releases, LooksAt, TriesNode, ReleasesNode, ReadsLength};
ghost use Rattle.claim_rule.specs.Commits.{TriesJournal, stored, drew};

use crate::manner::{ByJournal, Manner};
use crate::views::{Key, Slot, View};
use amoebot_state::Decider;
use atomic_table::{Play, TableRule};
use std::marker::PhantomData;

/// Between any two steps, words, values at home and views stand for a state
/// that steps of the callers lead to.
pub struct ClaimRule<W = ByJournal> {
    marker: PhantomData<W>,
}

impl<'d, D: Decider, W: Manner> TableRule<Slot, View<D>, Key<'d, D>> for ClaimRule<W> {
    ghost holds = { λ key. KeepsRule D.verdict (field_terms key.decider.now key.world key.lists.now) W.way };

    ghost first = { λ key. first_view D.verdict (field_terms key.decider.now key.world key.lists.now) };
}

/// A look at a node's word.
pub(crate) struct Look;

impl<D: Decider> Play<Slot, View<D>> for Look {
    ghost then = { LooksAt D.verdict };
}

/// A try to put a tag into a node's word.
pub(crate) struct Try;

impl<D: Decider> Play<Slot, View<D>> for Try {
    ghost then = { TriesNode D.verdict };
}

/// The release of the node that was won last.
pub(crate) struct FreeNode;

impl<D: Decider> Play<Slot, View<D>> for FreeNode {
    ghost then = { ReleasesNode D.verdict };
}

/// A try to claim a slotted cell.
pub(crate) struct Claim<W> {
    marker: PhantomData<W>,
}

impl<D: Decider, W: Manner> Play<Slot, View<D>> for Claim<W> {
    ghost then = { Claims D.verdict W.way };
}

/// The release of the slotted cell that was won last.
pub(crate) struct Free;

impl<D: Decider> Play<Slot, View<D>> for Free {
    ghost then = { λ st m t m'. Releases D.verdict st m t m' };
}

/// A look at the journal's length.
pub(crate) struct Read<W> {
    marker: PhantomData<W>,
}

impl<D: Decider, W: Manner> Play<Slot, View<D>> for Read<W> {
    ghost then = { ReadsLength D.verdict W.way };
}

/// A try to take the journal.
pub(crate) struct Take;

impl<D: Decider> Play<Slot, View<D>> for Take {
    ghost then = { TriesJournal D.verdict };
}

/// A commit.
pub(crate) struct Commit;

impl<D: Decider> Play<Slot, View<D>> for Commit {
    ghost then = { stored D.verdict };
}

/// A commit that draws its place.
pub(crate) struct Draw;

impl<D: Decider> Play<Slot, View<D>> for Draw {
    ghost then = { drew D.verdict };
}
