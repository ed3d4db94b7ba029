//! Whole documents: a header, and the sections of a form.
//! The grammar of documents, and what reads them.
#![tactic(auto)]

mod document;
mod document_laws;
mod forms;
mod head;
mod parts;
mod section;
mod section_kind;

pub use document::{read_sections, read_sections_from};
pub use document_laws::{
    Sectioned, documents_are_decided, documents_are_sound, documents_fit, documents_read_back,
    forms_are_straight, in_frame, least_versions_are_kept, runs_are_replayed,
};
pub use head::read_head;
pub use parts::{Parts, Sections};
pub use schedule_text::Schedule;
pub use section_kind::{Form, Section};
pub use shape_text::print_shape;
