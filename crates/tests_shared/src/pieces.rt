//! Pieces of documents and of what is written of them, and what the rows of the tables hold.
//! A document or a text is written as a template, in which `{NAME}` stands for a piece.

use amoebot_run::Status::{self, Done};
use shipped_programs::EROSION;
use std::alloc::{AllocError, Global};
use std::test::Fail;
use tests_texts::{Piece, text_of};
use text_tokens::RefusalKind;

/// The word of a command, its document, the status, how many entries the report has, and the text.
pub type Row = (
    &'static str,
    &'static str,
    Status,
    Option<usize>,
    &'static str,
);

/// A document of version 1, and what a command writes of it.
pub type Told = (&'static str, &'static str);

/// The word of a command, its document, and the line and the kind of the refusal, with its text.
pub type Fault = (&'static str, &'static str, u32, RefusalKind, &'static str);

/// The line that is written of words that are no command.
pub const USAGE: &str =
    "usage: run / interleave / replay / check / measure / show NAME / sample NUMBER \
    / renew / rewind NUMBER / rounds / elect / tickets\n";

// ---- programs

static PROGRAMS: [Piece; 15] = [
    // A contracted amoebot expands. Four lines. Then the same in versions 2 and 3.
    (
        "OUT",
        "amoebot 1\nprogram\naction out when contracted move expand head 0\nend\n",
    ),
    (
        "OUT_2",
        "amoebot 2\nprogram\naction out when contracted move expand head 0\nend\n",
    ),
    (
        "OUT_3",
        "amoebot 3\nprogram\naction out when contracted move expand head 0\nend\n",
    ),
    // The header and the program of the worked example, as they are renewed.
    (
        "OUT_RENEWED",
        "amoebot 3\nprogram\nguard off\naction out\nwhen contracted\nmove expand head 0\nend\n",
    ),
    // It goes out and comes back, so each turn is done where nobody is in its way.
    (
        "OUT_AND_BACK",
        "amoebot 1\nprogram\naction out when contracted move expand head 0\n\
        action back when expanded move contract head\n\
        end\n",
    ),
    // An amoebot marks itself. Then the same in version 2.
    (
        "MARK",
        "amoebot 1\nprogram\nvar m 1\naction mark when m = 0 do m := 1\nend\n",
    ),
    (
        "MARK_2",
        "amoebot 2\nprogram\nvar m 1\naction mark when m = 0 do m := 1\nend\n",
    ),
    // An expanded amoebot takes the one behind its tail along, and then makes a note.
    (
        "DRAG",
        "amoebot 1\nprogram\nvar m 1\n\
        action drag when expanded and linked tail 3 and not peer_expanded tail 3 move pull tail 3\n\
        action note when expanded do m := 1\nend\n",
    ),
    // An expanded amoebot contracts, with the guard on and off.
    (
        "GUARDED",
        "amoebot 1\nprogram\nguard on\naction a when expanded move contract tail\nend\n",
    ),
    (
        "UNGUARDED",
        "amoebot 1\nprogram\nguard off\naction a when expanded move contract tail\nend\n",
    ),
    // The guard is on, and there are eight variables.
    // An expanded amoebot makes a note once, and then it contracts.
    (
        "GUARDED_EIGHT",
        "amoebot 1\nprogram\nguard on\nvar a 1\nvar b 2\n\
        var c 3\nvar d 4\nvar e 5\nvar f 6\nvar g 7\nvar h 8\n\
        action note\nwhen expanded and h = 7\ndo a := 1 ; h := g + 2\nmove none\n\
        action back\nwhen expanded\ndo a := 0\nmove contract tail\nend\n",
    ),
    (
        "PUSH",
        "amoebot 1\nprogram\naction a when true move push head 0\nend\n",
    ),
    (
        "PULL",
        "amoebot 1\nprogram\naction a when true move pull tail 3\nend\n",
    ),
    // The leader election of the shipped programs, line by line.
    (
        "ERODE",
        "amoebot 1\nprogram\nguard off\nvar cand 1\nvar leader 1\naction lead\n\
        when cand = 1 and leader = 0 and not any p in ports ( p . cand = 1 )\ndo leader := 1\naction erode\n\
        when cand = 1 and count p in ports ( p . cand = 1\n and \
        not ( linked turn p 1 and turn p 1 . cand = 1 ) ) = 1\n\
        do cand := 0\nend\n",
    ),
    // The leader election as it is shipped.
    ("EROSION", EROSION),
];

// ---- shapes, of four lines where there is one amoebot, and lists

static STARTS: [Piece; 12] = [
    ("ONE", "shape\narea 0 0 8 8\nbot 2 3 2 3 0 +\nend\n"),
    // Two amoebots side by side.
    (
        "TWO",
        "shape\narea 0 0 8 8\nbot 2 3 2 3 0 + 0\nbot 3 3 3 3 0 + 0\nend\n",
    ),
    // Two amoebots far from each other.
    (
        "FAR",
        "shape\narea 0 0 8 8\nbot 1 1 1 1 0 +\nbot 6 6 6 6 0 +\nend\n",
    ),
    // An expanded amoebot with a contracted one behind its tail.
    (
        "TRAILED",
        "shape\narea 0 0 8 8\nbot 3 3 2 3 0 +\nbot 1 3 1 3 0 +\nend\n",
    ),
    (
        "TRAILED_0",
        "shape\narea 0 0 8 8\nbot 3 3 2 3 0 + 0\nbot 1 3 1 3 0 + 0\nend\n",
    ),
    // Two candidates side by side.
    (
        "TWO_CANDIDATES",
        "shape\narea 0 0 8 8\nbot 2 3 2 3 0 + 1 0\nbot 3 3 3 3 0 + 1 0\nend\n",
    ),
    // A ring of six candidates round an empty node.
    (
        "SIX",
        "shape\narea 0 0 8 8\nbot 4 3 4 3 0 + 1 0\n\
        bot 3 4 3 4 0 + 1 0\nbot 2 4 2 4 0 + 1 0\nbot 2 3 2 3 0 + 1 0\n\
        bot 3 2 3 2 0 + 1 0\nbot 4 2 4 2 0 + 1 0\nend\n",
    ),
    // A candidate, and the ring of six round it.
    (
        "SEVEN",
        "shape\narea 0 0 8 8\nbot 3 3 3 3 0 + 1 0\n\
        bot 4 3 4 3 0 + 1 0\nbot 3 4 3 4 0 + 1 0\nbot 2 4 2 4 0 + 1 0\n\
        bot 2 3 2 3 0 + 1 0\nbot 3 2 3 2 0 + 1 0\nbot 4 2 4 2 0 + 1 0\nend\n",
    ),
    ("ONE_TURN", "lists\nturns 1\nlist 0\nend\n"),
    ("TWO_TURNS", "lists\nturns 2\nlist 0\nend\n"),
    ("ONE_EACH", "lists\nturns 1\nlist 0\nlist 1\nend\n"),
    ("TWO_EACH", "lists\nturns 2\nlist 0\nlist 1\nend\n"),
];

// ---- what is written

static WRITTEN: [Piece; 20] = [
    ("NO_ENTRY", "journal\nend\n"),
    ("DONE", "turns\nturn 0 0 done 0\nend\n"),
    (
        "EXPANDED",
        "journal\nentry 0 0 0 0 0 expand head 0 spot 3 3 0 body 0 3 3 2 3 0 +\nend\n",
    ),
    // The journal of the worked example in version 3, with old values.
    (
        "EXPANDED_3",
        "journal\nentry 0 0 0 0 0 expand head 0 spot 3 3 empty to 0 body 0 2 3 2 3 0 + to 3 3 2 3 0 +\nend\n",
    ),
    // The last shape of the worked example.
    (
        "EXPANDED_FINAL",
        "final\narea 0 0 8 8\nbot 3 3 2 3 0 +\nend\n",
    ),
    // What becomes of its two turns.
    (
        "WORKED_TURNS",
        "turns\nturn 0 0 done 0\nturn 0 1 idle 1\nend\n",
    ),
    // What stands behind the entries of the worked example.
    (
        "REST",
        "end\n\
        final\narea 0 0 8 8\nbot 3 3 2 3 0 +\nend\n\
        turns\nturn 0 0 done 0\nturn 0 1 idle 1\nend\n",
    ),
    (
        "PULLED",
        "journal\nentry 0 0 0 0 0 pull tail 3 spot 2 3 1 body 0 3 3 3 3 0 + body 1 2 3 1 3 0 +\nend\n",
    ),
    // Two turns that are done and change nothing.
    (
        "TWICE_NOTHING",
        "journal\nentry 0 0 0 0 0 none\nentry 1 0 1 0 0 none\nend\n",
    ),
    (
        "FAR_JOURNAL",
        "journal\nentry 0 1 0 1 0 expand head 0 spot 7 6 1 body 1 7 6 6 6 0 +\n\
        entry 1 0 0 0 0 expand head 0 spot 2 1 0 body 0 2 1 1 1 0 +\nend\n",
    ),
    // The two entries, the other way round.
    (
        "FAR_EXCHANGED",
        "journal\nentry 0 0 0 0 0 expand head 0 spot 2 1 0 body 0 2 1 1 1 0 +\n\
        entry 1 1 0 1 0 expand head 0 spot 7 6 1 body 1 7 6 6 6 0 +\nend\n",
    ),
    (
        "FAR_EXCHANGED_3",
        "journal\nentry 0 0 0 0 0 expand head 0 spot 2 1 empty to 0 body 0 1 1 1 1 0 + to 2 1 1 1 0 +\n\
        entry 1 1 0 1 0 expand head 0 spot 7 6 empty to 1 body 1 6 6 6 6 0 + to 7 6 6 6 0 +\nend\n",
    ),
    (
        "FAR_FINAL",
        "final\narea 0 0 8 8\nbot 2 1 1 1 0 +\nbot 7 6 6 6 0 +\nend\n",
    ),
    (
        "DRAGGED_JOURNAL",
        "journal\nentry 0 0 0 0 0 pull tail 3 spot 2 3 1 body 0 3 3 3 3 0 + 0 body 1 2 3 1 3 0 + 0\n\
        entry 1 1 1 1 1 none body 1 2 3 1 3 0 + 1\nend\n",
    ),
    (
        "DRAGGED_JOURNAL_3",
        "journal\n\
        entry 0 0 0 0 0 pull tail 3 spot 2 3 0 to 1 body 0 3 3 2 3 0 + 0 to 3 3 3 3 0 + 0 \
        body 1 1 3 1 3 0 + 0 to 2 3 1 3 0 + 0\n\
        entry 1 1 1 1 1 none body 1 2 3 1 3 0 + 0 to 2 3 1 3 0 + 1\nend\n",
    ),
    // The two entries, the other way round: an amoebot makes a note of what has not happened.
    (
        "DRAGGED_EXCHANGED",
        "journal\nentry 0 1 1 1 1 none body 1 2 3 1 3 0 + 1\n\
        entry 1 0 0 0 0 pull tail 3 spot 2 3 1 body 0 3 3 3 3 0 + 0 body 1 2 3 1 3 0 + 0\nend\n",
    ),
    (
        "DRAGGED_FINAL",
        "final\narea 0 0 8 8\nbot 3 3 3 3 0 + 0\nbot 2 3 1 3 0 + 1\nend\n",
    ),
    (
        "SIX_FINAL",
        "final\narea 0 0 8 8\nbot 4 3 4 3 0 + 1 0\n\
        bot 3 4 3 4 0 + 1 0\nbot 2 4 2 4 0 + 1 0\nbot 2 3 2 3 0 + 1 0\n\
        bot 3 2 3 2 0 + 1 0\nbot 4 2 4 2 0 + 1 0\nend\n",
    ),
    // Each of the ring gives up, and then the one in the middle leads.
    (
        "SEVEN_JOURNAL",
        "journal\nentry 0 0 1 1 1 none body 1 4 3 4 3 0 + 0 0\nentry 1 0 2 2 1 none body 2 3 4 3 4 0 + 0 0\n\
        entry 2 0 3 3 1 none body 3 2 4 2 4 0 + 0 0\nentry 3 0 4 4 1 none body 4 2 3 2 3 0 + 0 0\n\
        entry 4 0 5 5 1 none body 5 3 2 3 2 0 + 0 0\nentry 5 0 6 6 1 none body 6 4 2 4 2 0 + 0 0\n\
        entry 6 0 7 0 0 none body 0 3 3 3 3 0 + 1 1\nend\n",
    ),
    (
        "SEVEN_FINAL",
        "final\narea 0 0 8 8\nbot 3 3 3 3 0 + 1 1\n\
        bot 4 3 4 3 0 + 0 0\nbot 3 4 3 4 0 + 0 0\nbot 2 4 2 4 0 + 0 0\n\
        bot 2 3 2 3 0 + 0 0\nbot 3 2 3 2 0 + 0 0\nbot 4 2 4 2 0 + 0 0\nend\n",
    ),
];

// Each table is named by a function of its own, which the prover takes less for.

fn push_programs(pieces: &mut Vec<Piece>) -> Result<(), AllocError> {
    pieces.extend_from_slice(&PROGRAMS)
}

fn push_starts(pieces: &mut Vec<Piece>) -> Result<(), AllocError> {
    pieces.extend_from_slice(&STARTS)
}

fn push_written(pieces: &mut Vec<Piece>) -> Result<(), AllocError> {
    pieces.extend_from_slice(&WRITTEN)
}

/// The text of a template, in which pieces of a file's own may stand too.
pub fn spelled_with(alloc: Global, template: &str, own: &[Piece]) -> Result<String, Fail> {
    let mut pieces = Vec::new(alloc);
    pieces.extend_from_slice(own)?;
    push_programs(&mut pieces)?;
    push_starts(&mut pieces)?;
    push_written(&mut pieces)?;
    text_of(alloc, template, pieces.as_slice())
}

/// The text of a template.
pub fn spelled(alloc: Global, template: &str) -> Result<String, Fail> {
    spelled_with(alloc, template, &[])
}

/// The worked example: an amoebot expands, and then it is idle.
pub const WORKED: Row = (
    "run",
    "{OUT}{ONE}{TWO_TURNS}",
    Done,
    Some(1),
    "{EXPANDED}\
    final\narea 0 0 8 8\nbot 3 3 2 3 0 +\nend\n\
    turns\nturn 0 0 done 0\nturn 0 1 idle 1\nend\n",
);
