//! Pieces of documents, and what the rows of the tables hold.

use crate::template::{Piece, text_of};
use shape_files::Form;
use std::alloc::Global;
use std::test::Fail;
use text_tokens::RefusalKind;

/// How many actions, amoebots, callers, steps, entries and last amoebots a document has,
/// each -1 where it lacks the section; or the line and the kind of its first fault.
pub type Expected = Result<[i64; 6], (u32, RefusalKind)>;

/// The template of a document of a form.
pub type Row = (Form, &'static str, Expected);

/// What stands for a name in the templates.
static PIECES: [Piece; 28] = [
    // Line 1, by the version.
    ("HEAD", "amoebot 1\n"),
    ("HEAD_2", "amoebot 2\n"),
    ("HEAD_3", "amoebot 3\n"),
    // Three lines, four, and ten: eight variables and no action.
    ("PROGRAM", "program\naction a when true\nend\n"),
    (
        "PROGRAM_OF_3",
        "program\nvar m 3\naction a when true\nend\n",
    ),
    (
        "PROGRAM_OF_8",
        "program\nvar a 1\nvar b 2\nvar c 3\nvar d 4\nvar e 5\nvar f 6\nvar g 7\nvar h 255\nend\n",
    ),
    // Three lines: an action that expands.
    (
        "OUT",
        "program\naction out when contracted move expand head 0\nend\n",
    ),
    // Four lines, and the two that begin a shape.
    ("SHAPE", "shape\narea 0 0 8 8\nbot 2 3 2 3 0 +\nend\n"),
    ("AREA", "shape\narea 0 0 8 8\n"),
    ("LISTS", "lists\nturns 2\nlist 0\nend\n"),
    // Three lines.
    ("SCHEDULE", "schedule\n0 times 3\nend\n"),
    // Two lines.
    ("JOURNAL", "journal\nend\n"),
    ("FINAL", "final\narea 0 0 8 8\nbot 2 3 2 3 0 +\nend\n"),
    ("TURNS", "turns\nend\n"),
    // Lines 2 to 9: an action that expands, an amoebot, and the word of the journal.
    // Lines 2 to 10: the same with a variable.
    (
        "BEGIN",
        "program\naction out when contracted move expand head 0\nend\n\
     shape\narea 0 0 8 8\nbot 2 3 2 3 0 +\nend\njournal\n",
    ),
    (
        "BEGIN_OF_3",
        "program\nvar m 3\naction out when contracted move expand head 0\nend\n\
     shape\narea 0 0 8 8\nbot 2 3 2 3 0 + 0\nend\njournal\n",
    ),
    // An entry of that action, the node that it takes, and the amoebot.
    ("ENTRY", "entry 0 0 0 0 0 expand head 0 "),
    ("NODE", "spot 3 3 empty to 0 "),
    ("BODY", "body 0 2 3 2 3 0 + to 3 3 2 3 0 + "),
    // The entry with the node, with both, and with both without old values.
    (
        "TAKEN",
        "entry 0 0 0 0 0 expand head 0 spot 3 3 empty to 0 ",
    ),
    (
        "STEP",
        "entry 0 0 0 0 0 expand head 0 spot 3 3 empty to 0 body 0 2 3 2 3 0 + to 3 3 2 3 0 + ",
    ),
    (
        "PLAIN",
        "entry 0 0 0 0 0 expand head 0 spot 3 3 0 body 0 3 3 2 3 0 + ",
    ),
    // Ten cells on a line.
    (
        "TEN",
        "spot 1 1 empty to empty spot 1 1 empty to empty \
        spot 1 1 empty to empty spot 1 1 empty to empty spot 1 1 empty to empty \
     spot 1 1 empty to empty spot 1 1 empty to empty spot 1 1 empty to empty \
     spot 1 1 empty to empty spot 1 1 empty to empty",
    ),
    (
        "TEN_OF_1",
        "spot 1 1 1 to 1 spot 1 1 1 to 1 spot 1 1 1 to 1 spot 1 1 1 to 1 spot 1 1 1 to 1 \
     spot 1 1 1 to 1 spot 1 1 1 to 1 spot 1 1 1 to 1 spot 1 1 1 to 1 spot 1 1 1 to 1",
    ),
    (
        "TEN_PLAIN",
        "spot 1 1 empty spot 1 1 empty spot 1 1 empty spot 1 1 empty spot 1 1 empty \
     spot 1 1 empty spot 1 1 empty spot 1 1 empty spot 1 1 empty spot 1 1 empty",
    ),
    // The end of a line, and the line behind it that ends the journal; the same with what is left.
    ("END", "\nend\n"),
    ("REST", "\nend\nfinal\narea 0 0 8 8\nbot 3 3 2 3 0 +\nend\n"),
    (
        "REST_OF_3",
        "\nend\nfinal\narea 0 0 8 8\nbot 3 3 2 3 0 + 0\nend\n",
    ),
];

/// The document of a template.
pub fn document(alloc: Global, template: &str) -> Result<String, Fail> {
    text_of(alloc, template, &PIECES)
}
