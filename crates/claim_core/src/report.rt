use crate::journal::Journal;
use crate::marks::Marks;
use amoebot_state::World;

/// What a run leaves: the last world, the journal and the mark of each turn.
#[derive(Drop)]
pub struct Report {
    pub world: World,
    pub journal: Journal,
    pub turns: Marks,
}
