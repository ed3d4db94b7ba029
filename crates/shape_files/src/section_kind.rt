//! The sections and the forms of documents.

ghost use Rattle.std.specs.Prelude.{◌≡◌};
ghost use Rattle.shape_files.specs.Frame.{word_of_section};

/// A section of a document.
#[derive(Clone, Copy, Debug, PartialEq, Eq)]
pub enum Section {
    Program,
    Shape,
    Lists,
    Schedule,
    Journal,
    Final,
    Turns,
}

impl Section {
    /// The word with which the section begins.
    pub fn word(self) -> &'static str
        ensures { result.now ≡ word_of_section self }
    {
        match self {
            Section::Program => "program",
            Section::Shape => "shape",
            Section::Lists => "lists",
            Section::Schedule => "schedule",
            Section::Journal => "journal",
            Section::Final => "final",
            Section::Turns => "turns",
        }
    }
}

/// What a document is for. It says which sections the document has, and in which order.
#[derive(Clone, Copy, Debug, PartialEq, Eq)]
pub enum Form {
    /// program, shape, lists, and perhaps a schedule.
    Run,
    /// program, shape, lists, schedule.
    Interleave,
    /// program, shape, perhaps lists and then perhaps a schedule, journal, final,
    /// and perhaps turns.
    Replay,
    /// program, perhaps a shape, then perhaps lists, then perhaps a schedule.
    Check,
    /// program, shape, perhaps lists and then perhaps a schedule, and perhaps journal, final,
    /// and perhaps turns.
    Measure,
}
