//! What a document has.

ghost use Rattle.std.specs.{Prelude.{◌≡◌, ◌≤◌}, Option.{option_map}};
ghost use Rattle.amoebot_state.specs.Limits.{most_vars};
ghost use Rattle.shape_files.specs.Views.{contents};
ghost use Rattle.shape_files.specs.Documents.{nothing_yet, var_count, maxes_in, actions_of, bots_of};
ghost use Rattle.shape_files.specs.Documents.{callers_of};

use action_check::Checked;
use amoebot_state::World;
use claim_core::Lists;
use journal_text::{Entries, PlainEntries};
use schedule_text::Schedule;
use std::marker::Model;

/// The sections of a document that stand for something, each `Some`
/// exactly where the document has it.
#[derive(Drop)]
pub struct Parts {
    /// The version of the document, 1 to 3.
    pub version: u8,
    /// The section `program`, whose names and numbers keep the rules.
    pub checked: Option<Checked>,
    /// The section `shape`.
    pub world: Option<World>,
    pub lists: Option<Lists>,
    pub schedule: Option<Schedule>,
    /// The section `journal` with old values, as version 3 has it.
    pub entries: Option<Entries>,
    /// The section `journal` without old values, as versions 1 and 2 have it.
    pub plain: Option<PlainEntries>,
    /// The section `final`.
    pub final_world: Option<World>,
}

impl Parts {
    /// Nothing was read yet but the version.
    pub(crate) fn new(version: u8) -> Parts
        ensures { contents result ≡ nothing_yet version }
    {
        Parts {
            version,
            checked: None,
            world: None,
            lists: None,
            schedule: None,
            entries: None,
            plain: None,
            final_world: None,
        }
    }

    /// How many variables the program has, and 0 where there is none.
    pub(crate) fn vars(&self) -> u8
        ensures value { result ≡ var_count self.now.checked }
        ensures few { result ≤ most_vars }
    {
        match &self.checked {
            Some(checked) => checked.program().vars().len() as u8,
            None => 0,
        }
    }

    /// The greatest values of the program's variables, and 0 for each that there is not.
    pub(crate) fn maxes(&self) -> [u8; 8]
        ensures { result ≡ maxes_in self.now.checked }
    {
        match &self.checked {
            Some(checked) => checked.maxes(),
            None => [0; 8],
        }
    }

    /// How many actions the program has, and 0 where there is none.
    pub(crate) fn actions(&self) -> u8
        ensures { result ≡ actions_of self.now.checked }
    {
        match &self.checked {
            Some(checked) => checked.actions(),
            None => 0,
        }
    }

    /// How many amoebots the shape has, and 0 where there is none.
    pub(crate) fn bots(&self) -> u16
        ensures { result ≡ bots_of self.now.world }
    {
        match &self.world {
            Some(world) => world.bots(),
            None => 0,
        }
    }

    /// How many callers have a list.
    pub(crate) fn callers(&self) -> u8
        ensures { result ≡ callers_of self.now.lists }
    {
        match &self.lists {
            Some(lists) => lists.callers(),
            None => 0,
        }
    }
}

/// A document that was read. It is seen as what the document has.
#[derive(Drop)]
pub struct Sections {
    parts: Parts,
}

impl Model for Sections {
    ghost use Rattle.std.specs.Coded.{codes};
    ghost use Rattle.action_tree.specs.Stored.{program_code};
    ghost use Rattle.shape_files.specs.{Documents.{Contents}, Views.{contents}};

    ghost Value = { Contents };

    ghost coded = { Prim.hlevel (codes, program_code) };

    ghost view = { λ s. contents s.parts };
}

impl Sections {
    pub(crate) fn new(parts: Parts) -> Sections
        ensures { result ≡ contents parts }
    {
        Sections { parts }
    }

    /// The version of the document, 1 to 3.
    pub fn version(&self) -> u8
        ensures { result ≡ self.now.version }
    {
        self.parts.version
    }

    /// The program, which keeps the rules on names and ranges.
    pub fn checked(&self) -> Option<&Checked>
        ensures { option_map (λ c. c.now) result ≡ self.now.checked }
    {
        self.parts.checked.as_ref()
    }

    /// The world at the start.
    pub fn world(&self) -> Option<&World>
        ensures { option_map (λ w. w.now) result ≡ self.now.world }
    {
        self.parts.world.as_ref()
    }

    /// The callers' lists.
    pub fn lists(&self) -> Option<&Lists>
        ensures { option_map (λ l. l.now) result ≡ self.now.lists }
    {
        self.parts.lists.as_ref()
    }

    /// Which caller makes each step.
    pub fn schedule(&self) -> Option<&Schedule>
        ensures { option_map (λ s. s.now) result ≡ self.now.schedule }
    {
        self.parts.schedule.as_ref()
    }

    /// The entries of a journal with old values.
    pub fn entries(&self) -> Option<&Entries>
        ensures { option_map (λ e. e.now) result ≡ self.now.entries }
    {
        self.parts.entries.as_ref()
    }

    /// The entries of a journal without old values.
    pub fn plain(&self) -> Option<&PlainEntries>
        ensures { option_map (λ e. e.now) result ≡ self.now.plain }
    {
        self.parts.plain.as_ref()
    }

    /// The world at the end.
    pub fn final_world(&self) -> Option<&World>
        ensures { option_map (λ w. w.now) result ≡ self.now.final_world }
    {
        self.parts.final_world.as_ref()
    }

    /// All of them.
    pub fn into_parts(self) -> Parts
        ensures { contents result ≡ self }
    {
        self.parts
    }
}
