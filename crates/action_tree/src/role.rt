//! What a token does in a program.

/// What a token does in a program. Words that do the same share a role.
#[derive(Clone, Copy, Debug, PartialEq, Eq)]
pub enum Role {
    /// A word that is not reserved.
    AName,
    ANumber,
    OpenSign,
    CloseSign,
    DotSign,
    PlusSign,
    MinusSign,
    /// `=`, `!=`, `<`, `<=`, `>`, `>=`.
    CompareSign,
    BecomesSign,
    SemicolonSign,
    /// `true`, `false`, `contracted`, `expanded`.
    AtomWord,
    NotWord,
    AndWord,
    OrWord,
    /// `any`, `all`.
    QuantifierWord,
    /// `linked`, `at_head`, `peer_expanded`, `peer_head`.
    TestWord,
    /// `free`, a test of a port and a set of ports.
    FreeWord,
    PortsWord,
    InWord,
    CountWord,
    /// `dir`, `peer_dir`.
    SideWord,
    InnerWord,
    Mod6Word,
    /// `head`, `tail`.
    EndWord,
    TurnWord,
    FirstWord,
    LetWord,
    IfWord,
    ThenWord,
    ElseWord,
    FiWord,
    ForWord,
    DoWord,
    OdWord,
    MoveWord,
    NoneWord,
    /// `expand`, `push`, `pull`.
    ThroughWord,
    ContractWord,
    ProgramWord,
    GuardWord,
    /// `on`, `off`.
    SwitchWord,
    VarWord,
    ActionWord,
    WhenWord,
    /// `end`.
    LastWord,
    /// What stands in no program.
    Foreign,
}
