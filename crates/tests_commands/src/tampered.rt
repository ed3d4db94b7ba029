//! Journals that were tampered with: the worked example with its text behind it,
//! in which the entry is another one.

use amoebot_run::Status::{Differs, Done};
use std::test::Fail;
use tests_shared::calls::{check_faults, check_rows};
use tests_shared::pieces::{Fault, Row};
use text_tokens::RefusalKind::{BadEntry, BadPlace};

/// Entries that name what is not there, or stand at another place. The entry stands on line 14.
pub static REFUSED: [Fault; 4] = [
    (
        "replay",
        "{OUT}{ONE}{TWO_TURNS}\
        journal\nentry 1 0 0 0 0 expand head 0 spot 3 3 0 body 0 3 3 2 3 0 +\n{REST}",
        14,
        BadPlace,
        "refused 14 BadPlace\n",
    ),
    (
        "replay",
        "{OUT}{ONE}{TWO_TURNS}\
        journal\nentry 0 16 0 0 0 expand head 0 spot 3 3 0 body 0 3 3 2 3 0 +\n{REST}",
        14,
        BadEntry,
        "refused 14 BadEntry\n",
    ),
    (
        "replay",
        "{OUT}{ONE}{TWO_TURNS}\
        journal\nentry 0 0 0 1 0 expand head 0 spot 3 3 0 body 0 3 3 2 3 0 +\n{REST}",
        14,
        BadEntry,
        "refused 14 BadEntry\n",
    ),
    (
        "replay",
        "{OUT}{ONE}{TWO_TURNS}\
        journal\nentry 0 0 0 0 1 expand head 0 spot 3 3 0 body 0 3 3 2 3 0 +\n{REST}",
        14,
        BadEntry,
        "refused 14 BadEntry\n",
    ),
];

/// Entries that are compared with the run.
pub static COMPARED: [Row; 7] = [
    (
        "replay",
        "{OUT}{ONE}{TWO_TURNS}\
        journal\nentry 0 0 0 0 0 expand head 0 spot 3 3 0 body 0 3 3 2 3 0 +\n{REST}",
        Done,
        None,
        "agrees 1\n",
    ),
    // Another caller and turn. A journal says nothing of lists.
    (
        "replay",
        "{OUT}{ONE}{TWO_TURNS}\
        journal\nentry 0 3 9 0 0 expand head 0 spot 3 3 0 body 0 3 3 2 3 0 +\n{REST}",
        Done,
        None,
        "agrees 1\n",
    ),
    // Another rotation.
    (
        "replay",
        "{OUT}{ONE}{TWO_TURNS}\
        journal\nentry 0 0 0 0 0 expand head 0 spot 3 3 0 body 0 3 3 2 3 1 +\n{REST}",
        Differs(0),
        None,
        "differs 0\n",
    ),
    // The two pairs, the other way round.
    (
        "replay",
        "{OUT}{ONE}{TWO_TURNS}\
        journal\nentry 0 0 0 0 0 expand head 0 body 0 3 3 2 3 0 + spot 3 3 0\n{REST}",
        Differs(0),
        None,
        "differs 0\n",
    ),
    // The first pair left out.
    (
        "replay",
        "{OUT}{ONE}{TWO_TURNS}journal\nentry 0 0 0 0 0 expand head 0 body 0 3 3 2 3 0 +\n{REST}",
        Differs(0),
        None,
        "differs 0\n",
    ),
    // The entry a second time.
    (
        "replay",
        "{OUT}{ONE}{TWO_TURNS}\
        journal\nentry 0 0 0 0 0 expand head 0 spot 3 3 0 body 0 3 3 2 3 0 +\n\
        entry 1 0 0 0 0 expand head 0 spot 3 3 0 body 0 3 3 2 3 0 +\n{REST}",
        Differs(1),
        None,
        "differs 1\n",
    ),
    // No entry.
    (
        "replay",
        "{OUT}{ONE}{TWO_TURNS}journal\n{REST}",
        Differs(0),
        None,
        "differs 0\n",
    ),
];

#[test]
fn entries_that_name_what_is_not_there_are_refused(rt: HostRuntime) -> Result<(), Fail> {
    check_faults(&rt, rt.alloc(), &REFUSED)
}

#[test]
fn entries_that_were_tampered_with_differ(rt: HostRuntime) -> Result<(), Fail> {
    check_rows(&rt, rt.alloc(), &COMPARED)
}
