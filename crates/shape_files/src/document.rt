//! Whole documents.

ghost use Rattle.text_tokens.specs.{declared.refusal.RefusalKind.TheVariants.{Trailing}, Text.{IsCountable}};
ghost use Rattle.text_tokens.specs.Steps.{ReadsInput, Gives};
ghost use Rattle.std.specs.Prelude.{◌≤◌};
ghost use Rattle.shape_files.specs.{Frame.{least_version}, Documents.{IsDocument, IsDocumentFrom}};
ghost use Rattle.shape_files.specs.{DocumentReaders.{document_from}, Views.{contents}};

use crate::Form;
use crate::forms::read_form;
use crate::head::{LEAST_VERSION, read_version};
use crate::parts::{Parts, Sections};
use shape_text::Reading;
use std::alloc::Global;
use text_tokens::{RefusalKind, Tokens};

/// Reads bytes that are a document of the form: its sections, or its first fault.
///
/// The bytes are read once, from the front on, and none of them is kept.
pub fn read_sections(alloc: Global, bytes: &[u8], form: Form) -> Reading<Sections>
    requires { IsCountable bytes.now }
    ensures { ReadsInput (IsDocument form) Trailing (λ s. s) bytes.now result }
{
    read_sections_from(alloc, bytes, form, LEAST_VERSION)
}

/// Reads bytes that are a document of the form, of a version that is not below the least:
/// its sections, or its first fault.
///
/// A version below the least is a `BadRange` at its number, before every fault behind it.
pub fn read_sections_from(alloc: Global, bytes: &[u8], form: Form, least: u8) -> Reading<Sections>
    requires countable { IsCountable bytes.now }
    requires version { least_version ≤ least }
    ensures { ReadsInput (IsDocumentFrom least form) Trailing (λ s. s) bytes.now result }
{
    let mut tokens = Tokens::new(bytes);
    let parts = read_document(alloc, &mut tokens, form, least)?;
    tokens.end(RefusalKind::Trailing)?;
    Ok(Sections::new(parts))
}

fn read_document(alloc: Global, tokens: &mut Tokens<'_>, form: Form, least: u8) -> Reading<Parts>
    ensures { Gives contents (document_from least form) tokens.old result tokens.new }
{
    let version = read_version(tokens, least)?;
    let mut parts = Parts::new(version);
    read_form(alloc, tokens, &mut parts, form)?;
    Ok(parts)
}
