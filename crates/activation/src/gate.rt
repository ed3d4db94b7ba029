/// What is called once in each turn whose whole zone was claimed,
/// between the last claim and the decision.
/// It has no answer.
pub trait Gate: Sync {
    fn claimed(&self, caller: u8, turn: u32);
}

/// The gate that does nothing.
pub struct NoGate;

impl Gate for NoGate {
    fn claimed(&self, _caller: u8, _turn: u32) {}
}
