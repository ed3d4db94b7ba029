//! Journals with old values and without, by the version of the document: what they have,
//! or their first fault.

use crate::journals::Journal;
use shape_files::Form;
use shape_files::Form::{Check, Interleave, Measure, Replay, Run};
use text_tokens::RefusalKind;
use text_tokens::RefusalKind::{
    BadByte, BadEntry, BadPlace, BadRange, TooMany, Truncated, Unexpected, WordTooLong,
};

/// The template of a document of a form; how many entries with old values it has,
/// and how many without, each -1 where it has no such journal;
/// or the line and the kind of its first fault.
pub type Valued = (Form, &'static str, Result<[i64; 2], (u32, RefusalKind)>);

/// One entry more than a journal may have.
pub static ONE_ENTRY_TOO_MANY: [Journal; 1] = [(65_537, "end\n", Err((65_546, TooMany)))];

/// Documents whose first entry stands on line 10, or on line 11 with a variable.
pub static OLD_VALUES: [Valued; 74] = [
    (Replay, "{HEAD_3}{BEGIN}{STEP}{REST}", Ok([1, -1])),
    (Replay, "{HEAD_3}{BEGIN}{END}{FINAL}", Ok([0, -1])),
    // Lines do not matter.
    (
        Replay,
        "{HEAD_3}{BEGIN}{ENTRY}\n{NODE}\n{BODY}{REST}",
        Ok([1, -1]),
    ),
    // Old values that were not found, new ones that are not reached,
    // and cells in another order are a matter of the run.
    (
        Replay,
        "{HEAD_3}{BEGIN}{TAKEN}body 0 2 3 2 3 1 + to 3 3 2 3 0 +{REST}",
        Ok([1, -1]),
    ),
    (
        Replay,
        "{HEAD_3}{BEGIN}{TAKEN}body 0 2 3 2 3 0 + to 3 3 2 3 1 +{REST}",
        Ok([1, -1]),
    ),
    (
        Replay,
        "{HEAD_3}{BEGIN}{ENTRY}spot 3 3 0 to 0 {BODY}{REST}",
        Ok([1, -1]),
    ),
    (
        Replay,
        "{HEAD_3}{BEGIN}{ENTRY}spot 3 3 0 to empty body 0 3 3 2 3 0 + to 2 3 2 3 0 +{REST}",
        Ok([1, -1]),
    ),
    (
        Replay,
        "{HEAD_3}{BEGIN}{ENTRY}{BODY}{NODE}{REST}",
        Ok([1, -1]),
    ),
    (Replay, "{HEAD_3}{BEGIN}{ENTRY}{BODY}{REST}", Ok([1, -1])),
    (
        Replay,
        "{HEAD_3}{BEGIN}{STEP}spot 2 3 0 to 0{REST}",
        Ok([1, -1]),
    ),
    (
        Replay,
        "{HEAD_3}{BEGIN}{ENTRY}spot 4 3 empty to 0 {BODY}{REST}",
        Ok([1, -1]),
    ),
    (
        Replay,
        "{HEAD_3}{BEGIN}entry 0 3 9 0 0 expand head 0 {NODE}{BODY}{REST}",
        Ok([1, -1]),
    ),
    (
        Replay,
        "{HEAD_3}{BEGIN}{STEP}\nentry 1 0 0 0 0 expand head 0 {NODE}{BODY}{REST}",
        Ok([2, -1]),
    ),
    // A value is missing, or the word between them.
    (
        Replay,
        "{HEAD_3}{BEGIN}{ENTRY}spot 3 3 0\n{BODY}{REST}",
        Err((11, Unexpected)),
    ),
    (
        Replay,
        "{HEAD_3}{BEGIN}{TAKEN}\nbody 0 2 3 2 3 0 +{REST}",
        Err((12, Unexpected)),
    ),
    (
        Replay,
        "{HEAD_3}{BEGIN}{ENTRY}spot 3 3 empty to{REST}",
        Err((11, Unexpected)),
    ),
    (
        Replay,
        "{HEAD_3}{BEGIN}{ENTRY}spot 3 3 to 0{REST}",
        Err((10, Unexpected)),
    ),
    (
        Replay,
        "{HEAD_3}{BEGIN}{ENTRY}spot 3 3 empty\nto to 0{REST}",
        Err((11, Unexpected)),
    ),
    (
        Replay,
        "{HEAD_3}{BEGIN}{ENTRY}spot 3 3 empty To 0{REST}",
        Err((10, Unexpected)),
    ),
    // An amoebot that is not there, before or after.
    (
        Replay,
        "{HEAD_3}{BEGIN}{ENTRY}spot 3 3 1 to 0 {BODY}{REST}",
        Err((10, BadEntry)),
    ),
    (
        Replay,
        "{HEAD_3}{BEGIN}{ENTRY}spot 3 3 empty to 1 {BODY}{REST}",
        Err((10, BadEntry)),
    ),
    (
        Replay,
        "{HEAD_3}{BEGIN}{TAKEN}body 1 2 3 2 3 0 + to 3 3 2 3 0 +{REST}",
        Err((10, BadEntry)),
    ),
    (
        Replay,
        "{HEAD_3}{BEGIN}entry 1 0 0 0 0 expand head 0 spot 3 3 1 to 0{REST}",
        Err((10, BadPlace)),
    ),
    // Numbers out of range, before and after.
    (
        Replay,
        "{HEAD_3}{BEGIN}{TAKEN}body 0 2 3 2 3\n6 + to 3 3 2 3 0 +{REST}",
        Err((11, BadRange)),
    ),
    (
        Replay,
        "{HEAD_3}{BEGIN}{TAKEN}\nbody 0 2 3 2 3 0 + to 3 3 2 3\n6 +{REST}",
        Err((12, BadRange)),
    ),
    (
        Replay,
        "{HEAD_3}{BEGIN}{TAKEN}body 0 10000 3 2 3 0 + to 3 3 2 3 0 +{REST}",
        Err((10, BadRange)),
    ),
    // With a variable.
    (
        Replay,
        "{HEAD_3}{BEGIN_OF_3}{TAKEN}body 0 2 3 2 3 0 +\n256 to 3 3 2 3 0 + 0{REST_OF_3}",
        Err((12, BadRange)),
    ),
    (
        Replay,
        "{HEAD_3}{BEGIN_OF_3}{TAKEN}body 0 2 3 2 3 0 +\nto 3 3 2 3 0 + 0{REST_OF_3}",
        Err((12, Unexpected)),
    ),
    (
        Replay,
        "{HEAD_3}{BEGIN_OF_3}{TAKEN}body 0 2 3 2 3 0 + 0 to 3 3 2 3 0 +{REST_OF_3}",
        Err((12, Unexpected)),
    ),
    (
        Replay,
        "{HEAD_3}{BEGIN_OF_3}{TAKEN}body 0 2 3 2 3 0 + 0 to 3 3 2 3 0 + 0{REST_OF_3}",
        Ok([1, -1]),
    ),
    // Ten cells are the most.
    (
        Replay,
        "{HEAD_3}{BEGIN}entry 0 0 0 0 0 none\n{TEN}{REST}",
        Ok([1, -1]),
    ),
    (
        Replay,
        "{HEAD_3}{BEGIN}entry 0 0 0 0 0 none\n{TEN}\nspot 1 1 empty to empty{REST}",
        Err((12, TooMany)),
    ),
    (
        Replay,
        "{HEAD_3}{BEGIN}entry 1 0 0 0 0 none\n{TEN_OF_1}\nspot 1 1 empty to 0{REST}",
        Err((12, TooMany)),
    ),
    (
        Replay,
        "{HEAD_2}{BEGIN}entry 1 0 0 0 0 none\n{TEN_OF_1}\nspot 1 1 empty to 0{REST}",
        Err((10, BadPlace)),
    ),
    (
        Replay,
        "{HEAD_3}{BEGIN}entry 0 0 0 0 0 none\n{TEN_PLAIN}\nto{REST}",
        Err((11, Unexpected)),
    ),
    (
        Replay,
        "{HEAD_2}{BEGIN}entry 0 0 0 0 0 none\n{TEN_PLAIN}\nto{REST}",
        Err((12, Unexpected)),
    ),
    // No cell.
    (
        Replay,
        "{HEAD_3}{PROGRAM}{SHAPE}journal\nentry 0 0 0 0 0 none{END}{FINAL}",
        Ok([1, -1]),
    ),
    // The text ends within a cell.
    (
        Replay,
        "{HEAD_3}{BEGIN}{ENTRY}spot 3 3 empty to",
        Err((10, Truncated)),
    ),
    (
        Replay,
        "{HEAD_3}{BEGIN}{ENTRY}spot 3 3 empty to\n",
        Err((11, Truncated)),
    ),
    // An entry is judged once no further cell comes.
    (
        Replay,
        "{HEAD_3}{BEGIN}{STEP}\nfoo{REST}",
        Err((11, Unexpected)),
    ),
    (
        Replay,
        "{HEAD_3}{BEGIN}{ENTRY}spot 3 3 1 to 0\nfoo{REST}",
        Err((10, BadEntry)),
    ),
    (
        Replay,
        "{HEAD_2}{BEGIN}{ENTRY}spot 3 3 1\nto 0{REST}",
        Err((10, BadEntry)),
    ),
    (
        Replay,
        "{HEAD_3}{BEGIN}entry 1 0 0 0 0 expand head 0 spot 3 3 1{REST}",
        Err((11, Unexpected)),
    ),
    (
        Replay,
        "{HEAD_2}{BEGIN}entry 1 0 0 0 0 expand head 0 spot 3 3 1{REST}",
        Err((10, BadPlace)),
    ),
    (
        Replay,
        "{HEAD_3}{BEGIN}entry 1 0 0 0 0 expand head 0 spot 3 3 1\n",
        Err((11, Truncated)),
    ),
    (
        Replay,
        "{HEAD_2}{BEGIN}entry 1 0 0 0 0 expand head 0 spot 3 3 1\n",
        Err((10, BadPlace)),
    ),
    (
        Replay,
        "{HEAD_3}{BEGIN}{ENTRY}spot 3 3 1\n${REST}",
        Err((11, BadByte)),
    ),
    (
        Replay,
        "{HEAD_2}{BEGIN}{ENTRY}spot 3 3 1\n${REST}",
        Err((10, BadEntry)),
    ),
    (
        Replay,
        "{HEAD_3}{BEGIN}{ENTRY}spot 3 3 empty to\n1000000000{REST}",
        Err((11, WordTooLong)),
    ),
    (
        Replay,
        "{HEAD_2}{BEGIN}{ENTRY}spot 3 3 empty to\n1000000000{REST}",
        Err((10, Unexpected)),
    ),
    (
        Replay,
        "{HEAD_3}{BEGIN}{ENTRY}spot 3 3 empty to\n-1{REST}",
        Err((11, Unexpected)),
    ),
    (
        Replay,
        "{HEAD_2}{BEGIN}{ENTRY}spot 3 3 empty to\n-1{REST}",
        Err((10, Unexpected)),
    ),
    // Each version has its own journal.
    (Replay, "{HEAD_2}{BEGIN}{STEP}{REST}", Err((10, Unexpected))),
    (Replay, "{HEAD}{BEGIN}{STEP}{REST}", Err((10, Unexpected))),
    (
        Replay,
        "{HEAD_3}{BEGIN}{PLAIN}{REST}",
        Err((10, Unexpected)),
    ),
    (Replay, "{HEAD_2}{BEGIN}{PLAIN}{REST}", Ok([-1, 1])),
    (Replay, "{HEAD}{BEGIN}{PLAIN}{REST}", Ok([-1, 1])),
    // The number of the version.
    (Run, "amoebot 4\n{OUT}{SHAPE}{LISTS}", Err((1, BadRange))),
    (Run, "amoebot 0\n{OUT}{SHAPE}{LISTS}", Err((1, BadRange))),
    (Run, "amoebot 9\n{OUT}{SHAPE}{LISTS}", Err((1, BadRange))),
    (Replay, "amoebot 03\n{BEGIN}{STEP}{REST}", Ok([1, -1])),
    // The journal alone differs.
    (Run, "{HEAD_3}{OUT}{SHAPE}{LISTS}", Ok([-1, -1])),
    (Run, "{HEAD_3}{OUT}{SHAPE}{LISTS}{SCHEDULE}", Ok([-1, -1])),
    (
        Interleave,
        "{HEAD_3}{OUT}{SHAPE}{LISTS}{SCHEDULE}",
        Ok([-1, -1]),
    ),
    (Check, "{HEAD_3}{OUT}", Ok([-1, -1])),
    (Measure, "{HEAD_3}{OUT}{SHAPE}", Ok([-1, -1])),
    (Measure, "{HEAD_3}{BEGIN}{STEP}{REST}", Ok([1, -1])),
    // Walls, and turns that were blocked or busy.
    (
        Replay,
        "{HEAD_3}{OUT}shape\narea 0 0 8 8\nwall 3 4\nbot 2 3 2 3 0 +\nend\njournal\n{STEP}{END}final\n\
            area 0 0 8 8\nwall 3 4\nbot 3 3 2 3 0 +\nend\n",
        Ok([1, -1]),
    ),
    (
        Replay,
        "{HEAD_3}{BEGIN}{STEP}{REST}turns\nturn 0 0 failed blocked 0\nend\n",
        Ok([1, -1]),
    ),
    (
        Replay,
        "{HEAD_3}{BEGIN}{STEP}{REST}turns\nturn 0 0 busy spot 3 3 by 0 0 0 place 0\nend\n",
        Ok([1, -1]),
    ),
    (
        Replay,
        "{HEAD_2}{BEGIN}{PLAIN}{REST}turns\nturn 0 0 busy spot 3 3 by 0 0 0 place 0\nend\n",
        Ok([-1, 1]),
    ),
    // The word between two values is no reserved word.
    (Check, "{HEAD}program\nvar to 3\nend\n", Ok([-1, -1])),
    (Check, "{HEAD_2}program\nvar to 3\nend\n", Ok([-1, -1])),
    (Check, "{HEAD_3}program\nvar to 3\nend\n", Ok([-1, -1])),
];
