//! Documents that are run, with what is written of them.

use amoebot_run::Status::Done;
use tests_shared::pieces::{Row, WORKED};

/// Runs whose text is decided: of at most one list, and of two lists
/// that never meet and change nothing.
/// Some turns fail.
pub static RUNS: [Row; 15] = [
    WORKED,
    // There is no list.
    (
        "run",
        "{OUT}{ONE}lists\nturns 0\nend\n",
        Done,
        Some(0),
        "{NO_ENTRY}final\narea 0 0 8 8\nbot 2 3 2 3 0 +\nend\nturns\nend\n",
    ),
    // The edge of the area is before it.
    (
        "run",
        "{OUT}shape\narea 0 0 8 8\nbot 7 3 7 3 0 +\nend\n{ONE_TURN}",
        Done,
        Some(0),
        "{NO_ENTRY}\
        final\narea 0 0 8 8\nbot 7 3 7 3 0 +\nend\n\
        turns\nturn 0 0 failed edge 0\nend\n",
    ),
    // Another amoebot is before it, and what it wrote is not kept.
    (
        "run",
        "amoebot 1\nprogram\nvar m 3\naction a when true do m := 2 move expand head 0\nend\n{TWO}{ONE_TURN}",
        Done,
        Some(0),
        "{NO_ENTRY}\
        final\narea 0 0 8 8\nbot 2 3 2 3 0 + 0\nbot 3 3 3 3 0 + 0\nend\n\
        turns\nturn 0 0 failed occupied 0\nend\n",
    ),
    // The amoebot is turned and mirrored: its direction 1 is the direction 4 of the lattice.
    (
        "run",
        "amoebot 1\nprogram\naction a when contracted move expand head 1\nend\n\
        shape\narea 0 0 8 8\nbot 2 3 2 3 5 -\nend\n{ONE_TURN}",
        Done,
        Some(1),
        "journal\nentry 0 0 0 0 0 expand head 1 spot 2 2 0 body 0 2 2 2 3 5 -\nend\n\
        final\narea 0 0 8 8\nbot 2 2 2 3 5 -\nend\n{DONE}",
    ),
    // It pushes an expanded amoebot.
    (
        "run",
        "{PUSH}shape\narea 0 0 8 8\nbot 2 3 2 3 0 +\nbot 3 3 4 3 0 +\nend\n{ONE_TURN}",
        Done,
        Some(1),
        "journal\nentry 0 0 0 0 0 push head 0 spot 3 3 0 body 0 3 3 2 3 0 + body 1 4 3 4 3 0 +\nend\n\
        final\narea 0 0 8 8\nbot 3 3 2 3 0 +\nbot 4 3 4 3 0 +\nend\n{DONE}",
    ),
    // A contracted one cannot be pushed.
    (
        "run",
        "{PUSH}shape\narea 0 0 8 8\nbot 2 3 2 3 0 +\nbot 3 3 3 3 0 +\nend\n{ONE_TURN}",
        Done,
        Some(0),
        "{NO_ENTRY}\
        final\narea 0 0 8 8\nbot 2 3 2 3 0 +\nbot 3 3 3 3 0 +\nend\n\
        turns\nturn 0 0 failed peer_not_expanded 0\nend\n",
    ),
    // It pulls a contracted amoebot.
    (
        "run",
        "{PULL}{TRAILED}{ONE_TURN}",
        Done,
        Some(1),
        "{PULLED}final\narea 0 0 8 8\nbot 3 3 3 3 0 +\nbot 2 3 1 3 0 +\nend\n{DONE}",
    ),
    // With the guard on it may not let its neighbour go.
    (
        "run",
        "{GUARDED}{TRAILED}{ONE_TURN}",
        Done,
        Some(0),
        "{NO_ENTRY}\
        final\narea 0 0 8 8\nbot 3 3 2 3 0 +\nbot 1 3 1 3 0 +\nend\n\
        turns\nturn 0 0 failed would_split 0\nend\n",
    ),
    // With the guard off it does.
    (
        "run",
        "{UNGUARDED}{TRAILED}{ONE_TURN}",
        Done,
        Some(1),
        "journal\nentry 0 0 0 0 0 contract tail spot 2 3 empty body 0 3 3 3 3 0 +\nend\n\
        final\narea 0 0 8 8\nbot 3 3 3 3 0 +\nbot 1 3 1 3 0 +\nend\n{DONE}",
    ),
    // Two of its ports lead to one neighbour, whose value is read as it was written.
    (
        "run",
        "amoebot 1\nprogram\nvar m 3\n\
        action a when true do head 2 . m := 1 ; tail 1 . m := head 2 . m + 1\nend\n\
        shape\narea 0 0 8 8\nbot 3 3 2 3 0 + 0\nbot 2 4 2 4 0 + 0\nend\n{ONE_TURN}",
        Done,
        Some(1),
        "journal\nentry 0 0 0 0 0 none body 1 2 4 2 4 0 + 2\nend\n\
        final\narea 0 0 8 8\nbot 3 3 2 3 0 + 0\nbot 2 4 2 4 0 + 2\nend\n{DONE}",
    ),
    // A value above the variable's maximum is not written.
    (
        "run",
        "amoebot 1\nprogram\nvar m 4\naction a when true do m := 5\nend\n\
        shape\narea 0 0 8 8\nbot 2 3 2 3 0 + 0\nend\n{ONE_TURN}",
        Done,
        Some(0),
        "{NO_ENTRY}\
        final\narea 0 0 8 8\nbot 2 3 2 3 0 + 0\nend\n\
        turns\nturn 0 0 failed out_of_range 0\nend\n",
    ),
    // It marks itself once, and has nothing to do in its other turns.
    (
        "run",
        "{MARK}shape\narea 0 0 8 8\nbot 2 3 2 3 0 + 0\nend\nlists\nturns 4\nlist 0\nend\n",
        Done,
        Some(1),
        "journal\nentry 0 0 0 0 0 none body 0 2 3 2 3 0 + 1\nend\n\
        final\narea 0 0 8 8\nbot 2 3 2 3 0 + 1\nend\n\
        turns\nturn 0 0 done 0\nturn 0 1 idle 1\nturn 0 2 idle 1\nturn 0 3 idle 1\nend\n",
    ),
    // Two amoebots at the border of the area, far from each other.
    (
        "run",
        "{OUT}shape\narea 0 0 8 8\nbot 7 1 7 1 0 +\nbot 7 6 7 6 0 +\nend\n{ONE_EACH}",
        Done,
        Some(0),
        "{NO_ENTRY}\
        final\narea 0 0 8 8\nbot 7 1 7 1 0 +\nbot 7 6 7 6 0 +\nend\n\
        turns\nturn 0 0 failed edge 0\nturn 1 0 failed edge 0\nend\n",
    ),
    // It makes its note, which is kept.
    // With the guard on it may not let its neighbour go, and what it wrote before is not kept.
    (
        "run",
        "{GUARDED_EIGHT}shape\narea 0 0 8 8\nbot 3 3 2 3 0 + 0 1 2 3 4 5 6 7\n\
        bot 1 3 1 3 0 + 1 2 3 4 5 6 7 8\nend\n\
        {TWO_TURNS}",
        Done,
        Some(1),
        "journal\nentry 0 0 0 0 0 none body 0 3 3 2 3 0 + 1 1 2 3 4 5 6 8\nend\n\
        final\narea 0 0 8 8\nbot 3 3 2 3 0 + 1 1 2 3 4 5 6 8\nbot 1 3 1 3 0 + 1 2 3 4 5 6 7 8\nend\n\
        turns\nturn 0 0 done 0\nturn 0 1 failed would_split 1\nend\n",
    ),
];

/// Programs of several actions, by one list or by two callers.
pub static WHOLE_PROGRAMS: [Row; 5] = [
    // Two amoebots gather round a seed.
    (
        "run",
        "# Amoebot 0 is the seed, round which the others gather.\n\
        amoebot 1\nprogram\nguard on\nvar state 4\nvar parent 6\n\
        var aim 6\naction root\nwhen contracted and ( state = 0 or state = 2 )\n\
        and any p in ports ( p . state = 1 or p . state = 4 )\ndo parent := 6 ; state := 3\naction follow\n\
        when contracted and state = 0\nand any p in ports ( p . state = 2 or p . state = 3 )\n\
        do let q := first p in ports ( p . state = 2 or p . state = 3 ) ;\n\
        parent := dir q ; state := 2\naction retire\n\
        when contracted and state = 3 and any p in ports (\n\
        ( p . state = 1 or p . state = 4 ) and p . aim = peer_dir p )\n\
        do let q := first p in ports ( ( p . state = 1 or p . state = 4 )\nand not ( linked turn p 5\n\
        and ( turn p 5 . state = 1 or turn p 5 . state = 4 ) ) ) ;\n\
        aim := dir turn q 5 ; state := 4\naction go\n\
        when contracted and state = 3 and any p in ports (\n\
        ( p . state = 1 or p . state = 4 ) and free turn p 1 )\n\
        move expand turn first p in ports (\n\
        ( p . state = 1 or p . state = 4 ) and free turn p 1 ) 1\naction drag\n\
        when expanded and ( state = 2 or state = 3 )\nand not any p in ports ( p . state = 0 )\n\
        and any p in ports ( not at_head p and p . state = 2\n\
        and not peer_expanded p and p . parent = peer_dir p )\n\
        do let q := first p in ports ( not at_head p and p . state = 2\n\
        and not peer_expanded p and p . parent = peer_dir p ) ;\n\
        q . parent := mod6 ( inner - dir q + peer_dir q + 3 )\n\
        move pull q\naction rest\nwhen expanded and ( state = 2 or state = 3 )\n\
        and not any p in ports ( p . state = 0 or not at_head p\n\
        and p . state = 2 and peer_head p and p . parent = peer_dir p )\nmove contract tail\nend\n\
        shape\narea 0 0 8 8\nbot 3 3 3 3 0 + 1 6 0\nbot 4 3 4 3 0 + 0 6 6\nbot 5 3 5 3 0 + 0 6 6\nend\n\
        lists\nturns 45\nlist 0 1 2\nend\n",
        Done,
        Some(17),
        "journal\nentry 0 0 1 1 0 none body 1 4 3 4 3 0 + 3 6 6\n\
        entry 1 0 2 2 1 none body 2 5 3 5 3 0 + 2 3 6\n\
        entry 2 0 4 1 2 none body 1 4 3 4 3 0 + 4 6 2\nentry 3 0 5 2 0 none body 2 5 3 5 3 0 + 3 6 6\n\
        entry 4 0 8 2 3 expand head 4 spot 5 2 2 body 2 5 2 5 3 0 + 3 6 6\n\
        entry 5 0 11 2 5 contract tail spot 5 3 empty body 2 5 2 5 2 0 + 3 6 6\n\
        entry 6 0 14 2 3 expand head 3 spot 4 2 2 body 2 4 2 5 2 0 + 3 6 6\n\
        entry 7 0 17 2 5 contract tail spot 5 2 empty body 2 4 2 4 2 0 + 3 6 6\n\
        entry 8 0 20 2 3 expand head 3 spot 3 2 2 body 2 3 2 4 2 0 + 3 6 6\n\
        entry 9 0 23 2 5 contract tail spot 4 2 empty body 2 3 2 3 2 0 + 3 6 6\n\
        entry 10 0 26 2 3 expand head 2 spot 2 3 2 body 2 2 3 3 2 0 + 3 6 6\n\
        entry 11 0 29 2 5 contract tail spot 3 2 empty body 2 2 3 2 3 0 + 3 6 6\n\
        entry 12 0 32 2 3 expand head 1 spot 2 4 2 body 2 2 4 2 3 0 + 3 6 6\n\
        entry 13 0 35 2 5 contract tail spot 2 3 empty body 2 2 4 2 4 0 + 3 6 6\n\
        entry 14 0 38 2 3 expand head 0 spot 3 4 2 body 2 3 4 2 4 0 + 3 6 6\n\
        entry 15 0 41 2 5 contract tail spot 2 4 empty body 2 3 4 3 4 0 + 3 6 6\n\
        entry 16 0 44 2 2 none body 2 3 4 3 4 0 + 4 6 3\nend\n\
        final\narea 0 0 8 8\nbot 3 3 3 3 0 + 1 6 0\nbot 4 3 4 3 0 + 4 6 2\nbot 3 4 3 4 0 + 4 6 3\nend\n\
        turns\nturn 0 0 idle 0\nturn 0 1 done 0\nturn 0 2 done 1\n\
        turn 0 3 idle 2\nturn 0 4 done 2\nturn 0 5 done 3\n\
        turn 0 6 idle 4\nturn 0 7 idle 4\nturn 0 8 done 4\n\
        turn 0 9 idle 5\nturn 0 10 idle 5\nturn 0 11 done 5\n\
        turn 0 12 idle 6\nturn 0 13 idle 6\nturn 0 14 done 6\n\
        turn 0 15 idle 7\nturn 0 16 idle 7\nturn 0 17 done 7\n\
        turn 0 18 idle 8\nturn 0 19 idle 8\nturn 0 20 done 8\n\
        turn 0 21 idle 9\nturn 0 22 idle 9\nturn 0 23 done 9\n\
        turn 0 24 idle 10\nturn 0 25 idle 10\nturn 0 26 done 10\n\
        turn 0 27 idle 11\nturn 0 28 idle 11\nturn 0 29 done 11\n\
        turn 0 30 idle 12\nturn 0 31 idle 12\nturn 0 32 done 12\n\
        turn 0 33 idle 13\nturn 0 34 idle 13\nturn 0 35 done 13\n\
        turn 0 36 idle 14\nturn 0 37 idle 14\nturn 0 38 done 14\n\
        turn 0 39 idle 15\nturn 0 40 idle 15\nturn 0 41 done 15\n\
        turn 0 42 idle 16\nturn 0 43 idle 16\nturn 0 44 done 16\nend\n",
    ),
    // The amoebots of a ring round an empty node stay candidates.
    (
        "run",
        "amoebot 1\nprogram\nguard off\nvar cand 1\nvar leader 1\naction lead\n\
        when cand = 1 and leader = 0 and not any p in ports ( p . cand = 1 )\ndo leader := 1\naction erode\n\
        when cand = 1 and count p in ports ( p . cand = 1\n\
        and not ( linked turn p 1 and turn p 1 . cand = 1 ) ) = 1\n\
        do cand := 0\nend\n\
        shape\narea 0 0 8 8\nbot 4 3 4 3 0 + 1 0\nbot 3 4 3 4 0 + 1 0\n\
        bot 2 4 2 4 0 + 1 0\nbot 2 3 2 3 0 + 1 0\n\
        bot 3 2 3 2 0 + 1 0\nbot 4 2 4 2 0 + 1 0\nend\n\
        lists\nturns 6\nlist 0 1 2 3 4 5\nend\n",
        Done,
        Some(0),
        "{NO_ENTRY}\
        final\narea 0 0 8 8\nbot 4 3 4 3 0 + 1 0\nbot 3 4 3 4 0 + 1 0\n\
        bot 2 4 2 4 0 + 1 0\nbot 2 3 2 3 0 + 1 0\n\
        bot 3 2 3 2 0 + 1 0\nbot 4 2 4 2 0 + 1 0\nend\n\
        turns\nturn 0 0 idle 0\nturn 0 1 idle 0\nturn 0 2 idle 0\n\
        turn 0 3 idle 0\nturn 0 4 idle 0\nturn 0 5 idle 0\nend\n",
    ),
    // Each amoebot of a ring gives up, and the one in the middle leads.
    (
        "run",
        "# Each amoebot of the ring gives up, and the one in the middle leads.\n\
        amoebot 1\nprogram\nguard off\nvar cand 1\n\
        var leader 1\naction lead\n\
        when cand = 1 and leader = 0 and not any p in ports ( p . cand = 1 )\ndo leader := 1\n\
        action erode\nwhen cand = 1 and count p in ports ( p . cand = 1\n\
        and not ( linked turn p 1 and turn p 1 . cand = 1 ) ) = 1\ndo cand := 0\nend\n\
        shape\narea 0 0 8 8\nbot 3 3 3 3 0 + 1 0\nbot 4 3 4 3 0 + 1 0\n\
        bot 3 4 3 4 0 + 1 0\nbot 2 4 2 4 0 + 1 0\n\
        bot 2 3 2 3 0 + 1 0\nbot 3 2 3 2 0 + 1 0\nbot 4 2 4 2 0 + 1 0\nend\n\
        lists\nturns 8\nlist 0 1 2 3 4 5 6\nend\n",
        Done,
        Some(7),
        "journal\nentry 0 0 1 1 1 none body 1 4 3 4 3 0 + 0 0\nentry 1 0 2 2 1 none body 2 3 4 3 4 0 + 0 0\n\
        entry 2 0 3 3 1 none body 3 2 4 2 4 0 + 0 0\nentry 3 0 4 4 1 none body 4 2 3 2 3 0 + 0 0\n\
        entry 4 0 5 5 1 none body 5 3 2 3 2 0 + 0 0\nentry 5 0 6 6 1 none body 6 4 2 4 2 0 + 0 0\n\
        entry 6 0 7 0 0 none body 0 3 3 3 3 0 + 1 1\nend\n\
        final\narea 0 0 8 8\nbot 3 3 3 3 0 + 1 1\nbot 4 3 4 3 0 + 0 0\n\
        bot 3 4 3 4 0 + 0 0\nbot 2 4 2 4 0 + 0 0\n\
        bot 2 3 2 3 0 + 0 0\nbot 3 2 3 2 0 + 0 0\nbot 4 2 4 2 0 + 0 0\nend\n\
        turns\nturn 0 0 idle 0\nturn 0 1 done 0\nturn 0 2 done 1\n\
        turn 0 3 done 2\nturn 0 4 done 3\nturn 0 5 done 4\n\
        turn 0 6 done 5\nturn 0 7 done 6\nend\n",
    ),
    // Two amoebots of one row go to the border of the area.
    (
        "run",
        "# Two amoebots of one row go to the border of the area.\namoebot 1\nprogram\nguard off\naction out\n\
        when contracted and free head 0\nmove expand head 0\n\
        action follow_up\nwhen expanded\nmove contract tail\nend\n\
        shape\narea 0 0 8 8\nbot 1 3 1 3 0 +\nbot 4 3 4 3 0 +\nend\n\
        lists\nturns 12\nlist 1 0\nend\n",
        Done,
        Some(12),
        "journal\nentry 0 0 0 1 0 expand head 0 spot 5 3 1 body 1 5 3 4 3 0 +\n\
        entry 1 0 1 0 0 expand head 0 spot 2 3 0 body 0 2 3 1 3 0 +\n\
        entry 2 0 2 1 1 contract tail spot 4 3 empty body 1 5 3 5 3 0 +\n\
        entry 3 0 3 0 1 contract tail spot 1 3 empty body 0 2 3 2 3 0 +\n\
        entry 4 0 4 1 0 expand head 0 spot 6 3 1 body 1 6 3 5 3 0 +\n\
        entry 5 0 5 0 0 expand head 0 spot 3 3 0 body 0 3 3 2 3 0 +\n\
        entry 6 0 6 1 1 contract tail spot 5 3 empty body 1 6 3 6 3 0 +\n\
        entry 7 0 7 0 1 contract tail spot 2 3 empty body 0 3 3 3 3 0 +\n\
        entry 8 0 8 1 0 expand head 0 spot 7 3 1 body 1 7 3 6 3 0 +\n\
        entry 9 0 9 0 0 expand head 0 spot 4 3 0 body 0 4 3 3 3 0 +\n\
        entry 10 0 10 1 1 contract tail spot 6 3 empty body 1 7 3 7 3 0 +\n\
        entry 11 0 11 0 1 contract tail spot 3 3 empty body 0 4 3 4 3 0 +\nend\n\
        final\narea 0 0 8 8\nbot 4 3 4 3 0 +\nbot 7 3 7 3 0 +\nend\n\
        turns\nturn 0 0 done 0\nturn 0 1 done 1\nturn 0 2 done 2\n\
        turn 0 3 done 3\nturn 0 4 done 4\nturn 0 5 done 5\n\
        turn 0 6 done 6\nturn 0 7 done 7\nturn 0 8 done 8\n\
        turn 0 9 done 9\nturn 0 10 done 10\nturn 0 11 done 11\nend\n",
    ),
    // A light spreads, and one turn is Busy.
    (
        "interleave",
        "amoebot 1\nprogram\nvar lit 1\naction light\n\
        when lit = 0 and any p in ports ( p . lit = 1 )\ndo lit := 1\nend\n\
        shape\narea 0 0 8 8\nbot 2 3 2 3 0 + 1\nbot 3 3 3 3 0 + 0\nbot 4 3 4 3 0 + 0\nend\n\
        lists\nturns 2\nlist 1\nlist 2\nend\n\
        schedule\n0 times 3\n1 times 4\n0 times 19\n1 times 20\nend\n",
        Done,
        Some(2),
        "journal\nentry 0 0 0 1 0 none body 1 3 3 3 3 0 + 1\nentry 1 1 1 2 0 none body 2 4 3 4 3 0 + 1\nend\n\
        final\narea 0 0 8 8\nbot 2 3 2 3 0 + 1\nbot 3 3 3 3 0 + 1\nbot 4 3 4 3 0 + 1\nend\n\
        turns\nturn 0 0 done 0\nturn 0 1 idle 2\n\
        turn 1 0 busy spot 4 3 by 0 0 1 place 0\nturn 1 1 done 1\nend\n",
    ),
];
