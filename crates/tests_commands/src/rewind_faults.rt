//! Journals that cannot be gone back along: last shapes in another frame,
//! entries that were tampered with, places that there are not, documents that are none,
//! and words that are no command.

use amoebot_run::Status::{self, Differs};
use text_tokens::RefusalKind::{
    self, BadEntry, BadPlace, BadRange, OutOfBox, Trailing, Truncated, Unexpected,
};

/// The number of a place, a document, the status, and the text.
pub type Rewinding = (&'static str, &'static str, Status, &'static str);

/// The number of a place, a document, the line and the kind of the refusal, and its text.
pub type Refused = (&'static str, &'static str, u32, RefusalKind, &'static str);

/// A last shape with another area, other walls or another number of amoebots
/// differs at the number of entries.
pub static OTHER_FRAMES: [Rewinding; 10] = [
    (
        "0",
        "{OUT_RENEWED}shape\narea 0 0 9 8\nbot 2 3 2 3 0 +\nend\n{EXPANDED_3}{EXPANDED_FINAL}",
        Differs(1),
        "differs 1\n",
    ),
    (
        "1",
        "{OUT_RENEWED}shape\narea 0 0 9 8\nbot 2 3 2 3 0 +\nend\n{EXPANDED_3}{EXPANDED_FINAL}",
        Differs(1),
        "differs 1\n",
    ),
    (
        "0",
        "{OUT_RENEWED}\
        shape\narea 0 0 8 8\nbot 2 3 2 3 0 +\nbot 5 5 5 5 0 +\nend\n{EXPANDED_3}{EXPANDED_FINAL}",
        Differs(1),
        "differs 1\n",
    ),
    (
        "1",
        "{OUT_RENEWED}\
        shape\narea 0 0 8 8\nbot 2 3 2 3 0 +\nbot 5 5 5 5 0 +\nend\n{EXPANDED_3}{EXPANDED_FINAL}",
        Differs(1),
        "differs 1\n",
    ),
    (
        "0",
        "{OUT_RENEWED}\
        shape\narea 0 0 8 8\nwall 4 4\nbot 2 3 2 3 0 +\nend\n{EXPANDED_3}{EXPANDED_FINAL}",
        Differs(1),
        "differs 1\n",
    ),
    (
        "1",
        "{OUT_RENEWED}\
        shape\narea 0 0 8 8\nwall 4 4\nbot 2 3 2 3 0 +\nend\n{EXPANDED_3}{EXPANDED_FINAL}",
        Differs(1),
        "differs 1\n",
    ),
    // As many walls, in another place.
    (
        "0",
        "{OUT_RENEWED}\
        shape\narea 0 0 8 8\nwall 4 4\nbot 2 3 2 3 0 +\nend\n{EXPANDED_3}\
        final\narea 0 0 8 8\nwall 4 5\nbot 3 3 2 3 0 +\nend\n",
        Differs(1),
        "differs 1\n",
    ),
    // An area as large, from another corner on.
    (
        "0",
        "{OUT_RENEWED}shape\narea 1 0 8 8\nbot 2 3 2 3 0 +\nend\n{EXPANDED_3}{EXPANDED_FINAL}",
        Differs(1),
        "differs 1\n",
    ),
    // The entry is of an amoebot that the last shape has not.
    (
        "0",
        "{OUT_RENEWED}\
        shape\narea 0 0 8 8\nbot 5 5 5 5 0 +\nbot 2 3 2 3 0 +\nend\n\
        journal\nentry 0 0 0 1 0 expand head 0 spot 3 3 empty to 1 \
        body 1 2 3 2 3 0 + to 3 3 2 3 0 +\nend\n{EXPANDED_FINAL}",
        Differs(1),
        "differs 1\n",
    ),
    (
        "0",
        "{OUT_RENEWED}{ONE}{NO_ENTRY}\
        final\narea 0 0 8 8\nbot 2 3 2 3 0 +\nbot 5 5 5 5 0 +\nend\n",
        Differs(0),
        "differs 0\n",
    ),
];

/// Entries that have no step to the last shape of the worked example.
pub static TAMPERED: [&str; 14] = [
    // Turned before, so it would have gone elsewhere.
    "entry 0 0 0 0 0 expand head 0 spot 3 3 empty to 0 body 0 2 3 2 3 1 + to 3 3 2 3 0 +\n",
    // The node was its own already, and its body was not there.
    "entry 0 0 0 0 0 expand head 0 spot 3 3 0 to 0 body 0 2 3 2 3 0 + to 3 3 2 3 0 +\n",
    // It came from a node that is no cell of the patch.
    "entry 0 0 0 0 0 expand head 0 spot 3 3 empty to 0 body 0 5 5 5 5 0 + to 3 3 2 3 0 +\n",
    // It had another tail.
    "entry 0 0 0 0 0 expand head 0 spot 3 3 empty to 0 body 0 2 3 1 3 0 + to 3 3 2 3 0 +\n",
    // The node is left out, the body is, and both are.
    "entry 0 0 0 0 0 expand head 0 body 0 2 3 2 3 0 + to 3 3 2 3 0 +\n",
    "entry 0 0 0 0 0 expand head 0 spot 3 3 empty to 0\n",
    "entry 0 0 0 0 0 expand head 0\n",
    // The body stands before the node.
    "entry 0 0 0 0 0 expand head 0 body 0 2 3 2 3 0 + to 3 3 2 3 0 + spot 3 3 empty to 0\n",
    // Another node, another rotation, and another movement.
    "entry 0 0 0 0 0 expand head 0 spot 3 4 empty to 0 body 0 2 3 2 3 0 + to 3 3 2 3 0 +\n",
    "entry 0 0 0 0 0 expand head 0 spot 3 3 empty to 0 body 0 2 3 2 3 0 + to 3 3 2 3 1 +\n",
    "entry 0 0 0 0 0 expand head 1 spot 3 3 empty to 0 body 0 2 3 2 3 0 + to 3 3 2 3 0 +\n",
    // Old and new are exchanged.
    "entry 0 0 0 0 0 expand head 0 spot 3 3 0 to empty body 0 3 3 2 3 0 + to 2 3 2 3 0 +\n",
    "entry 0 0 0 0 0 expand head 0 spot 3 3 empty to 0 body 0 3 3 2 3 0 + to 2 3 2 3 0 +\n",
    // It came from outside of the area.
    "entry 0 0 0 0 0 expand head 0 spot 3 3 empty to 0 body 0 9 9 9 9 0 + to 3 3 2 3 0 +\n",
];

/// Places that there are not, and documents that are none.
/// The entry of the worked example stands on line 13.
pub static REFUSED: [Refused; 18] = [
    (
        "2",
        "{OUT_RENEWED}{ONE}{EXPANDED_3}{EXPANDED_FINAL}",
        0,
        BadPlace,
        "refused 0 BadPlace\n",
    ),
    (
        "4294967295",
        "{OUT_RENEWED}{ONE}{EXPANDED_3}{EXPANDED_FINAL}",
        0,
        BadPlace,
        "refused 0 BadPlace\n",
    ),
    (
        "1",
        "{OUT_RENEWED}{ONE}{NO_ENTRY}final\narea 0 0 8 8\nbot 2 3 2 3 0 +\nend\n",
        0,
        BadPlace,
        "refused 0 BadPlace\n",
    ),
    // The place is judged before the last shape.
    (
        "2",
        "{OUT_RENEWED}shape\narea 0 0 9 8\nbot 2 3 2 3 0 +\nend\n{EXPANDED_3}{EXPANDED_FINAL}",
        0,
        BadPlace,
        "refused 0 BadPlace\n",
    ),
    // And before the entries.
    (
        "2",
        "{OUT_RENEWED}{ONE}{EXPANDED_3}final\narea 0 0 8 8\nbot 2 3 2 3 0 +\nend\n",
        0,
        BadPlace,
        "refused 0 BadPlace\n",
    ),
    // Earlier versions, and later ones, before all that stands behind the number.
    (
        "9",
        "amoebot 1\nprogram\nguard off\naction out\nwhen contracted\nmove expand head 0\nend\n\
        {ONE}{EXPANDED_3}{EXPANDED_FINAL}more\n",
        1,
        BadRange,
        "refused 1 BadRange\n",
    ),
    (
        "9",
        "amoebot 2\nprogram\nguard off\naction out\nwhen contracted\nmove expand head 0\nend\n\
        {ONE}{EXPANDED_3}{EXPANDED_FINAL}more\n",
        1,
        BadRange,
        "refused 1 BadRange\n",
    ),
    (
        "9",
        "amoebot 4\nprogram\nguard off\naction out\nwhen contracted\nmove expand head 0\nend\n\
        {ONE}{EXPANDED_3}{EXPANDED_FINAL}more\n",
        1,
        BadRange,
        "refused 1 BadRange\n",
    ),
    (
        "0",
        "amoebot 1\nprogram\nguard off\naction out\nwhen contracted\nmove expand head 0\nend\n{ONE}\
        journal\nentry 0 0 0 0 0 expand head 0 spot 3 3 0 body 0 3 3 2 3 0 +\nend\n{EXPANDED_FINAL}",
        1,
        BadRange,
        "refused 1 BadRange\n",
    ),
    (
        "0",
        "amoebot\n2\nprogram\nguard off\naction out\nwhen contracted\nmove expand head 0\nend\n\
        {ONE}{EXPANDED_3}{EXPANDED_FINAL}",
        2,
        BadRange,
        "refused 2 BadRange\n",
    ),
    ("0", "amoebot 2 $", 1, BadRange, "refused 1 BadRange\n"),
    ("0", "amoebot", 1, Truncated, "refused 1 Truncated\n"),
    // Faults of the document, before the place.
    (
        "9",
        "{OUT_RENEWED}shape\narea 0 0 8 8\nbot 9 9 9 9 0 +\nend\n{EXPANDED_3}{EXPANDED_FINAL}",
        10,
        OutOfBox,
        "refused 10 OutOfBox\n",
    ),
    (
        "9",
        "{OUT_RENEWED}{ONE}{EXPANDED_3}{EXPANDED_FINAL}more\n",
        19,
        Trailing,
        "refused 19 Trailing\n",
    ),
    (
        "0",
        "{OUT_RENEWED}{ONE}\
        journal\nentry 0 0 0 0 0 expand head 0 spot 3 3 0 body 0 3 3 2 3 0 +\nend\n{EXPANDED_FINAL}",
        13,
        Unexpected,
        "refused 13 Unexpected\n",
    ),
    (
        "0",
        "{OUT_RENEWED}{ONE}journal\nentry 1 0 0 0 0 none\nend\n{EXPANDED_FINAL}",
        13,
        BadPlace,
        "refused 13 BadPlace\n",
    ),
    // The last shape has the amoebot of the entry, and the first one has not.
    (
        "0",
        "{OUT_RENEWED}{ONE}\
        journal\nentry 0 0 0 1 0 none\nend\n\
        final\narea 0 0 8 8\nbot 2 3 2 3 0 +\nbot 5 5 5 5 0 +\nend\n",
        13,
        BadEntry,
        "refused 13 BadEntry\n",
    ),
    (
        "0",
        "{OUT_RENEWED}{ONE}{EXPANDED_3}",
        15,
        Truncated,
        "refused 15 Truncated\n",
    ),
];

/// Words that are no command, a row a line. Each word has a bar before it.
pub static NO_REWINDS: &str = "|rewind\n\
    |rewind|\n\
    |rewind|-1\n\
    |rewind|+1\n\
    |rewind|1.0\n\
    |rewind| 1\n\
    |rewind|4294967296\n\
    |rewind|00000000001\n\
    |rewind|0|0\n\
    |Rewind|0\n\
    |0|rewind\n\
    |rewind0\n";
