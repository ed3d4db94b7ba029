//! Documents of version 2: worlds with walls, what an amoebot does beside one,
//! and texts with walls that are refused.

use amoebot_run::Status::{Differs, Done};
use std::alloc::Global;
use std::sync::Wait;
use std::test::Fail;
use std::thread::Threads;
use tests_shared::calls::{check, check_faults, check_rows};
use tests_shared::pieces::{Fault, Row, spelled_with};
use tests_texts::Piece;
use text_tokens::RefusalKind::{BadRange, BadWall, OnWall, Unexpected};

/// One turn of amoebot 0: the program between its first word and its last,
/// the walls by rising number, and the amoebots, with bars between; how many entries there are;
/// and the entry, the amoebots at the end, and the mark, with bars between.
type Turn = (&'static str, usize, &'static str);

/// Pieces of the turns.
static PIECES: [Piece; 7] = [
    ("GO", "action out when contracted move expand head 0\n"),
    ("HERE", "bot 2 3 2 3 0 +\n"),
    // An expanded amoebot.
    ("LONG", "bot 3 3 2 3 0 +\n"),
    // An expanded amoebot with a contracted one behind its tail.
    ("LONG_WITH_TAIL", "bot 3 3 2 3 0 +\nbot 1 3 1 3 0 +\n"),
    // Walls all round an amoebot on (2, 3).
    (
        "ALL_ROUND",
        "wall 2 2\nwall 3 2\nwall 1 3\nwall 3 3\nwall 1 4\nwall 2 4\n",
    ),
    // Two rows of walls, with a corridor between.
    (
        "CORRIDOR",
        "wall 1 2\nwall 2 2\nwall 3 2\nwall 4 2\nwall 1 4\nwall 2 4\nwall 3 4\nwall 4 4\n",
    ),
    // The entry of an action that changes nothing.
    ("NOTHING", "entry 0 0 0 0 0 none\n"),
];

/// What an amoebot does beside walls.
static TURNS: [Turn; 18] = [
    // A wall is before it.
    ("{GO}|wall 3 3\n|{HERE}", 0, "|{HERE}|failed blocked 0"),
    // Behind the edge of the area there is no wall.
    (
        "{GO}|wall 3 3\n|bot 7 3 7 3 0 +\n",
        0,
        "|bot 7 3 7 3 0 +\n|failed edge 0",
    ),
    // An amoebot is before it, and walls stand beside it.
    (
        "{GO}|wall 2 2\nwall 2 4\n|bot 2 3 2 3 0 +\nbot 3 3 3 3 0 +\n",
        0,
        "|bot 2 3 2 3 0 +\nbot 3 3 3 3 0 +\n|failed occupied 0",
    ),
    // An empty node is before it, and the wall is behind it.
    (
        "{GO}|wall 1 3\n|{HERE}",
        1,
        "entry 0 0 0 0 0 expand head 0 spot 3 3 0 body 0 3 3 2 3 0 +\n|{LONG}|done 0",
    ),
    // An expanded one does not expand, and a contracted one has no port at a tail:
    // these come before the wall.
    (
        "action out when true move expand head 0\n|wall 4 3\n|{LONG}",
        0,
        "|{LONG}|failed not_contracted 0",
    ),
    (
        "action out when true move expand tail 0\n|wall 3 3\n|{HERE}",
        0,
        "|{HERE}|failed no_port 0",
    ),
    // A wall is not free, and it is nobody.
    (
        "action a when not free head 0\n|wall 3 3\n|{HERE}",
        1,
        "{NOTHING}|{HERE}|done 0",
    ),
    (
        "action a when linked head 0\n|wall 3 3\n|{HERE}",
        0,
        "|{HERE}|idle 0",
    ),
    // Five nodes of six are free, and all six where the wall is farther away.
    (
        "action a when count p in free ( true ) = 5\n|wall 3 3\n|{HERE}",
        1,
        "{NOTHING}|{HERE}|done 0",
    ),
    (
        "action a when count p in free ( true ) = 6\n|wall 4 3\n|{HERE}",
        1,
        "{NOTHING}|{HERE}|done 0",
    ),
    // Shut in, it finds no free node.
    (
        "action a when any p in free ( true )\n|{ALL_ROUND}|{HERE}",
        0,
        "|{HERE}|idle 0",
    ),
    (
        "action a when true move expand first p in free ( true )\n|{ALL_ROUND}|{HERE}",
        0,
        "|{HERE}|failed no_choice 0",
    ),
    // A wall is not pushed and not pulled.
    (
        "action a when true move push head 0\n|wall 3 3\n|{HERE}",
        0,
        "|{HERE}|failed no_neighbour 0",
    ),
    (
        "action a when true move pull head 0\n|wall 4 3\n|{LONG}",
        0,
        "|{LONG}|failed no_neighbour 0",
    ),
    // In a corridor it pushes and pulls as elsewhere.
    (
        "action a when true move push head 0\n|{CORRIDOR}|bot 2 3 2 3 0 +\nbot 3 3 4 3 0 +\n",
        1,
        "entry 0 0 0 0 0 push head 0 spot 3 3 0 body 0 3 3 2 3 0 + body 1 4 3 4 3 0 +\n\
        |bot 3 3 2 3 0 +\nbot 4 3 4 3 0 +\n\
        |done 0",
    ),
    (
        "action a when true move pull tail 3\n|{CORRIDOR}|{LONG_WITH_TAIL}",
        1,
        "entry 0 0 0 0 0 pull tail 3 spot 2 3 1 body 0 3 3 3 3 0 + body 1 2 3 1 3 0 +\n\
        |bot 3 3 3 3 0 +\nbot 2 3 1 3 0 +\n\
        |done 0",
    ),
    // Walls on one side join no arc for the guard, and alone they are none.
    (
        "guard on\naction a when expanded move contract tail\n|wall 1 4\nwall 2 4\n|{LONG_WITH_TAIL}",
        0,
        "|{LONG_WITH_TAIL}|failed would_split 0",
    ),
    (
        "guard on\naction a when expanded move contract tail\n\
        |wall 2 2\nwall 3 2\nwall 4 2\nwall 1 3\nwall 4 3\nwall 1 4\n\
        wall 2 4\nwall 3 4\n|{LONG}",
        1,
        "entry 0 0 0 0 0 contract tail spot 2 3 empty body 0 3 3 3 3 0 +\n|bot 3 3 3 3 0 +\n|done 0",
    ),
];

/// Walls under each command that reads a document.
pub static COMMANDS: [Row; 11] = [
    // Walls are written in any order, and printed by rising number.
    (
        "run",
        "amoebot 2\nprogram\naction a when any p in free ( true )\nend\n\
        shape\narea 0 0 8 8\nwall 1 3\nwall 2 4\nwall 3 3\nwall 2 2\n\
        wall 1 4\nwall 3 2\nbot 2 3 2 3 0 +\nend\n{ONE_TURN}",
        Done,
        Some(0),
        "{NO_ENTRY}\
        final\narea 0 0 8 8\nwall 2 2\nwall 3 2\nwall 1 3\n\
        wall 3 3\nwall 1 4\nwall 2 4\nbot 2 3 2 3 0 +\nend\n\
        turns\nturn 0 0 idle 0\nend\n",
    ),
    // A wall is claimed as an empty node is: each caller makes as many
    // steps as in a world without walls.
    (
        "interleave",
        "{MARK_2}\
        shape\narea 0 0 8 8\nwall 2 2\nwall 3 2\nwall 1 3\nwall 1 4\n\
        wall 2 4\nbot 2 3 2 3 0 + 0\nbot 3 3 3 3 0 + 0\nend\n\
        {TWO_EACH}schedule 0 times 8 1 times 4 0 times 12 1 times 20 end\n",
        Done,
        Some(2),
        "journal\nentry 0 0 0 0 0 none body 0 2 3 2 3 0 + 1\nentry 1 1 1 1 0 none body 1 3 3 3 3 0 + 1\nend\n\
        final\narea 0 0 8 8\nwall 2 2\nwall 3 2\nwall 1 3\nwall 1 4\n\
        wall 2 4\nbot 2 3 2 3 0 + 1\nbot 3 3 3 3 0 + 1\nend\n\
        turns\nturn 0 0 done 0\nturn 0 1 idle 2\n\
        turn 1 0 busy spot 3 3 by 0 0 0 place 0\nturn 1 1 done 1\nend\n",
    ),
    // Caller 0 holds the wall between the two amoebots when caller 1 comes to it.
    (
        "interleave",
        "{MARK_2}\
        shape\narea 0 0 8 8\nwall 3 3\nbot 2 3 2 3 0 + 0\nbot 4 3 4 3 0 + 0\nend\n{ONE_EACH}\
        schedule 0 times 3 1 times 6 end\n",
        Done,
        Some(1),
        "journal\nentry 0 0 0 0 0 none body 0 2 3 2 3 0 + 1\nend\n\
        final\narea 0 0 8 8\nwall 3 3\nbot 2 3 2 3 0 + 1\nbot 4 3 4 3 0 + 0\nend\n\
        turns\nturn 0 0 done 0\nturn 1 0 busy spot 3 3 by 0 0 0 place 0\nend\n",
    ),
    // Two callers, each with walls round its amoebot. The second commits first.
    (
        "interleave",
        "{OUT_2}\
        shape\narea 0 0 8 8\nwall 3 1\nwall 1 2\nwall 5 6\n\
        wall 6 7\nbot 1 1 1 1 0 +\nbot 6 6 6 6 0 +\nend\n{ONE_EACH}\
        schedule 1 times 10 end\n",
        Done,
        Some(2),
        "{FAR_JOURNAL}\
        final\narea 0 0 8 8\nwall 3 1\nwall 1 2\nwall 5 6\nwall 6 7\nbot 2 1 1 1 0 +\nbot 7 6 6 6 0 +\nend\n\
        turns\nturn 0 0 done 1\nturn 1 0 done 0\nend\n",
    ),
    // The same document and text agree.
    (
        "replay",
        "{OUT_2}\
        shape\narea 0 0 8 8\nwall 3 1\nwall 1 2\nwall 5 6\nwall 6 7\nbot 1 1 1 1 0 +\nbot 6 6 6 6 0 +\nend\n\
        {ONE_EACH}{FAR_JOURNAL}\
        final\narea 0 0 8 8\nwall 3 1\nwall 1 2\nwall 5 6\nwall 6 7\nbot 2 1 1 1 0 +\nbot 7 6 6 6 0 +\nend\n",
        Done,
        None,
        "agrees 2\n",
    ),
    // The last shape lacks a wall.
    (
        "replay",
        "{OUT_2}\
        shape\narea 0 0 8 8\nwall 1 3\nwall 5 5\nbot 2 3 2 3 0 +\nend\n{EXPANDED}\
        final\narea 0 0 8 8\nwall 1 3\nbot 3 3 2 3 0 +\nend\n",
        Differs(1),
        None,
        "differs 1\n",
    ),
    // The last shape has one wall more.
    (
        "replay",
        "{OUT_2}{ONE}{NO_ENTRY}final\narea 0 0 8 8\nwall 5 5\nbot 2 3 2 3 0 +\nend\n",
        Differs(0),
        None,
        "differs 0\n",
    ),
    // Its walls are those of the shape, in another order.
    (
        "replay",
        "{OUT_2}\
        shape\narea 0 0 8 8\nwall 3 3\nwall 5 5\nbot 2 3 2 3 0 +\nend\n{NO_ENTRY}\
        final\narea 0 0 8 8\nwall 5 5\nwall 3 3\nbot 2 3 2 3 0 +\nend\n\
        turns\nturn 0 0 failed blocked 0\nend\n",
        Done,
        None,
        "agrees 0\n",
    ),
    // An entry cannot enter a wall.
    (
        "replay",
        "{OUT_2}\
        shape\narea 0 0 8 8\nwall 3 3\nbot 2 3 2 3 0 +\nend\n{EXPANDED}\
        final\narea 0 0 8 8\nwall 3 3\nbot 2 3 2 3 0 +\nend\n",
        Differs(0),
        None,
        "differs 0\n",
    ),
    // The version of the document is that of the printed program.
    (
        "check",
        "amoebot 02 program action a when true end\nshape area 0 0 8 8 wall 3 3 end\n",
        Done,
        None,
        "amoebot 2\nprogram\nguard off\naction a\nwhen true\nmove none\nend\n",
    ),
    // A wall does not fill the middle of a ring.
    (
        "measure",
        "{OUT_2}\
        shape\narea 0 0 8 8\nwall 3 3\nbot 4 3 4 3 0 +\nbot 3 4 3 4 0 +\n\
        bot 2 4 2 4 0 +\nbot 2 3 2 3 0 +\nbot 3 2 3 2 0 +\n\
        bot 4 2 4 2 0 +\nend\n",
        Done,
        None,
        "bots 6\nconnected yes\nhexagon no\n",
    ),
];

/// Walls that may not stand where they do, and words of version 2 in version 1.
pub static REFUSED: [Fault; 6] = [
    (
        "run",
        "{OUT_2}shape\narea 0 0 8 8\nwall 2 3\nbot 2 3 2 3 0 +\nend\n{ONE_TURN}",
        8,
        OnWall,
        "refused 8 OnWall\n",
    ),
    (
        "run",
        "{OUT_2}shape\narea 0 0 8 8\nwall 8 0\nbot 2 3 2 3 0 +\nend\n{ONE_TURN}",
        7,
        BadWall,
        "refused 7 BadWall\n",
    ),
    (
        "run",
        "{OUT_2}shape\narea 0 0 8 8\nwall 3 3\nwall 3 3\nbot 2 3 2 3 0 +\nend\n{ONE_TURN}",
        8,
        BadWall,
        "refused 8 BadWall\n",
    ),
    (
        "run",
        "{OUT}shape\narea 0 0 8 8\nwall 3 3\nbot 2 3 2 3 0 +\nend\n{ONE_TURN}",
        7,
        Unexpected,
        "refused 7 Unexpected\n",
    ),
    (
        "replay",
        "{OUT}{ONE}{NO_ENTRY}\
        final\narea 0 0 8 8\nbot 2 3 2 3 0 +\nend\n\
        turns\nturn 0 0 failed\nblocked 0\nend\n",
        17,
        Unexpected,
        "refused 17 Unexpected\n",
    ),
    (
        "run",
        "amoebot 9\nprogram\nend\n{ONE}{ONE_TURN}",
        1,
        BadRange,
        "refused 1 BadRange\n",
    ),
];

/// The three parts of a text, which have bars between them.
fn three_parts(text: &str) -> Result<(&str, &str, &str), Fail> {
    let (first, behind) = text.split_once('|').ok_or("no bar")?;
    let (second, third) = behind.split_once('|').ok_or("no second bar")?;
    Ok((first, second, third))
}

/// The turn leaves the text that its row says.
fn check_turn<R: Threads + Wait + Sync>(rt: &R, alloc: Global, turn: &Turn) -> Result<(), Fail> {
    let (before, entries, behind) = turn;
    let before = spelled_with(alloc, before, &PIECES)?;
    let behind = spelled_with(alloc, behind, &PIECES)?;
    let (program, walls, bots) = three_parts(before.as_str())?;
    let (entry, moved, mark) = three_parts(behind.as_str())?;
    let document = format!(in alloc;
        "amoebot 2
program
{program}end
shape
area 0 0 8 8
{walls}{bots}end
lists
turns 1
list 0
end
"
    )?;
    let text = format!(in alloc;
        "journal
{entry}end
final
area 0 0 8 8
{walls}{moved}end
turns
turn 0 0 {mark}
end
"
    )?;
    check(
        rt,
        alloc,
        &["run"],
        document.as_bytes(),
        Done,
        Some(*entries),
        text.as_str(),
    )
}

#[test]
fn an_amoebot_enters_no_wall_and_a_wall_is_nobody(rt: HostRuntime) -> Result<(), Fail> {
    for turn in &TURNS {
        check_turn(&rt, rt.alloc(), turn)?;
    }
    Ok(())
}

#[test]
fn walls_stay_under_each_command(rt: HostRuntime) -> Result<(), Fail> {
    check_rows(&rt, rt.alloc(), &COMMANDS)
}

#[test]
fn walls_that_may_not_stand_there_are_refused(rt: HostRuntime) -> Result<(), Fail> {
    check_faults(&rt, rt.alloc(), &REFUSED)
}
