//! The operations of the model, and what an activation reaches by them.
#![tactic(auto)]

mod behind;
mod changes;
mod draft;
mod laws;
mod member;
mod near;
mod own;
mod peer;
mod site;

pub use laws::{
    acts_decide, copies_stand_for_worlds, one_arc_test_is_one_arc, only_walls_block,
    peer_looks_back, reached_differs_exactly, reached_keeps_rest, reached_stays_connected,
    shown_meets_the_same, unguarded_contract_splits,
};
pub use peer::Peer;
pub use site::Site;
