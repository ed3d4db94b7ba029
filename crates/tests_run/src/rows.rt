//! Documents of the other commands with what is written of them, programs that are shown,
//! and words that are no command.

use amoebot_run::Status::{Differs, Done};
use tests_shared::pieces::Row;

/// The name of each shipped program, and its text in the canonical form.
pub static SHOWN: [(&str, &str); 3] = [
    (
        "hexagon",
        "amoebot 1\nprogram\nguard off\nvar state 4\nvar parent 6\nvar aim 6\n\
        action root\n\
        when contracted and ( state = 0 or state = 2 ) and \
        any p in ports ( p . state = 1 or p . state = 4 )\n\
        do parent := 6 ; state := 3\n\
        move none\n\
        action follow\n\
        when contracted and state = 0 and any p in ports ( p . state = 2 or p . state = 3 )\n\
        do let q := first p in ports ( p . state = 2 or p . state = 3 ) ; parent := dir q ; state := 2\n\
        move none\n\
        action retire\n\
        when contracted and state = 3 and any p in ports ( ( p . state = 1 \
        or p . state = 4 ) and p . aim = peer_dir p )\n\
        do let q := first p in ports ( ( p . state = 1 or p . state = 4 ) \
        and not ( linked turn p 5 and ( turn p 5 . state = 1 or turn p 5 . state = 4 ) ) ) ; \
        aim := dir turn q 5 ; state := 4\n\
        move none\n\
        action go\n\
        when contracted and state = 3 and any p in ports ( ( p . state = 1 \
        or p . state = 4 ) and free turn p 1 )\n\
        move expand turn first p in ports ( ( p . state = 1 or p . state = 4 ) and free turn p 1 ) 1\n\
        action drag\n\
        when expanded and ( state = 2 or state = 3 ) and not any p in ports ( p . state = 0 ) \
        and any p in ports ( not at_head p and p . state = 2 \
        and not peer_expanded p and p . parent = peer_dir p )\n\
        do let q := first p in ports \
        ( not at_head p and p . state = 2 and not peer_expanded p and p . parent = peer_dir p ) ; \
        q . parent := mod6 ( inner - dir q + peer_dir q + 3 )\n\
        move pull q\n\
        action rest\n\
        when expanded and ( state = 2 or state = 3 ) and not any p in ports \
        ( p . state = 0 or not at_head p and p . state = 2 and peer_head p and p . parent = peer_dir p )\n\
        move contract tail\n\
        end\n",
    ),
    (
        "erosion",
        "amoebot 1\nprogram\nguard off\nvar cand 1\nvar leader 1\n\
        action lead\n\
        when cand = 1 and leader = 0 and not any p in ports ( p . cand = 1 )\n\
        do leader := 1\n\
        move none\n\
        action erode\n\
        when cand = 1 and count p in ports ( p . cand = 1 and \
        not ( linked turn p 1 and turn p 1 . cand = 1 ) ) = 1\n\
        do cand := 0\n\
        move none\n\
        end\n",
    ),
    (
        "line",
        "amoebot 1\nprogram\nguard off\n\
        action out\n\
        when contracted and free head 0\n\
        move expand head 0\n\
        action follow_up\n\
        when expanded\n\
        move contract tail\n\
        end\n",
    ),
];

/// Words that are no command, a row a line. Each word has a bar before it.
pub static NO_COMMANDS: &str = "\n\
    |\n\
    |Run\n\
    |RUN\n\
    |Interleave\n\
    |replaY\n\
    |Check\n\
    |MEASURE\n\
    | run\n\
    |run \n\
    |re play\n\
    |walk\n\
    |runs\n\
    |-\n\
    |--\n\
    |-h\n\
    |--help\n\
    |-run\n\
    |run|now\n\
    |run|run\n\
    |interleave|1\n\
    |replay|-\n\
    |check|\n\
    |measure|--help\n\
    |--|run\n\
    |show\n\
    |Show|line\n\
    |SHOW|line\n\
    |show|Hexagon\n\
    |show|EROSION\n\
    |show|\n\
    |show| line\n\
    |show|line \n\
    |show|lin\n\
    |show|shape\n\
    |show|-line\n\
    |show|--help\n\
    |show|line|erosion\n\
    |show|show\n\
    |hexagon\n\
    |line|show\n\
    |sample\n\
    |sample|\n\
    |sample|-1\n\
    |sample|12345678901\n\
    |sample|1|2\n\
    |Renew\n\
    |RENEW\n\
    |renewed\n\
    |-renew\n\
    |renew|x\n\
    |renew|-1\n\
    |renew|renew\n\
    |Rounds\n\
    |round\n\
    |rounds|1\n\
    |-rounds\n\
    |Elect\n\
    |elects\n\
    |elect|erosion\n\
    |elect|elect\n\
    |Tickets\n\
    |ticket\n\
    |-tickets\n\
    |tickets|now\n\
    |run|tickets\n";

/// Steps of two callers by schedules.
pub static INTERLEAVINGS: [Row; 4] = [
    // Caller 0 has its body and seven nodes when caller 1 wins its body and finds (3, 3) held.
    (
        "interleave",
        "{MARK}{TWO}{TWO_EACH}schedule 0 times 8 1 times 4 0 times 12 1 times 20 end\n",
        Done,
        Some(2),
        "journal\nentry 0 0 0 0 0 none body 0 2 3 2 3 0 + 1\nentry 1 1 1 1 0 none body 1 3 3 3 3 0 + 1\nend\n\
        final\narea 0 0 8 8\nbot 2 3 2 3 0 + 1\nbot 3 3 3 3 0 + 1\nend\n\
        turns\nturn 0 0 done 0\nturn 0 1 idle 2\n\
        turn 1 0 busy spot 3 3 by 0 0 0 place 0\nturn 1 1 done 1\nend\n",
    ),
    // Each finds what the other holds.
    (
        "interleave",
        "{MARK}{TWO}{ONE_EACH}schedule 0 times 2 1 times 6 0 end\n",
        Done,
        Some(0),
        "{NO_ENTRY}\
        final\narea 0 0 8 8\nbot 2 3 2 3 0 + 0\nbot 3 3 3 3 0 + 0\nend\n\
        turns\nturn 0 0 busy spot 3 3 by 1 0 1 place 0\nturn 1 0 busy spot 2 3 by 0 0 0 place 0\nend\n",
    ),
    // The second turn of caller 1 finds its amoebot expanded, with the larger zone.
    (
        "interleave",
        "{DRAG}{TRAILED_0}{TWO_EACH}schedule 1 times 19 0 times 26 1 times 26 end\n",
        Done,
        Some(2),
        "{DRAGGED_JOURNAL}{DRAGGED_FINAL}\
        turns\nturn 0 0 done 0\nturn 0 1 idle 2\nturn 1 0 idle 0\nturn 1 1 done 1\nend\n",
    ),
    // The second caller commits first.
    (
        "interleave",
        "{OUT}{FAR}{ONE_EACH}schedule 1 times 10 end\n",
        Done,
        Some(2),
        "{FAR_JOURNAL}{FAR_FINAL}turns\nturn 0 0 done 1\nturn 1 0 done 0\nend\n",
    ),
];

/// Journals that agree or differ, and programs that are printed.
pub static COMPARED_AND_CHECKED: [Row; 7] = [
    (
        "replay",
        "{OUT}{FAR}{FAR_JOURNAL}{FAR_FINAL}",
        Done,
        None,
        "agrees 2\n",
    ),
    // What is far apart may happen in either order.
    (
        "replay",
        "{OUT}{FAR}{FAR_EXCHANGED}{FAR_FINAL}",
        Done,
        None,
        "agrees 2\n",
    ),
    (
        "replay",
        "{DRAG}{TRAILED_0}{DRAGGED_EXCHANGED}{DRAGGED_FINAL}",
        Differs(0),
        None,
        "differs 0\n",
    ),
    // The last shape is that of the start.
    (
        "replay",
        "{OUT}{ONE}{EXPANDED}final\narea 0 0 8 8\nbot 2 3 2 3 0 +\nend\n",
        Differs(1),
        None,
        "differs 1\n",
    ),
    (
        "check",
        "amoebot 1 program\nvar  m 3 action a when(m=0 or m=1)and not contracted\n\
        do m:=m+1;if m>2 then m:=0 fi move contract tail end\n",
        Done,
        None,
        "amoebot 1\nprogram\nguard off\nvar m 3\naction a\nwhen ( m = 0 or m = 1 ) and not contracted\n\
        do m := m + 1 ; if m > 2 then m := 0 fi\nmove contract tail\nend\n",
    ),
    // It is canonical already.
    ("check", "{GUARDED_EIGHT}", Done, None, "{GUARDED_EIGHT}"),
    (
        "replay",
        "{GUARDED_EIGHT}shape\narea 0 0 8 8\nbot 3 3 2 3 0 + 0 1 2 3 4 5 6 7\nend\n\
        journal\nentry 0 0 0 0 0 none body 0 3 3 2 3 0 + 1 1 2 3 4 5 6 8\n\
        entry 1 0 1 0 1 contract tail spot 2 3 empty body 0 3 3 3 3 0 + 0 1 2 3 4 5 6 8\nend\n\
        final\narea 0 0 8 8\nbot 3 3 3 3 0 + 0 1 2 3 4 5 6 8\nend\n",
        Done,
        None,
        "agrees 2\n",
    ),
];

/// Shapes that are measured.
pub static MEASURED: [Row; 5] = [
    (
        "measure",
        "{OUT}{ONE}",
        Done,
        None,
        "bots 1\nconnected yes\nhexagon yes\n",
    ),
    (
        "measure",
        "{OUT}shape\narea 0 0 8 8\nend\n",
        Done,
        None,
        "bots 0\nconnected yes\nhexagon no\n",
    ),
    (
        "measure",
        "{OUT}{FAR}",
        Done,
        None,
        "bots 2\nconnected no\nhexagon no\n",
    ),
    // The last shape counts, in which the amoebot is expanded.
    (
        "measure",
        "{OUT}{ONE}{EXPANDED}final\narea 0 0 8 8\nbot 3 3 2 3 0 +\nend\n",
        Done,
        None,
        "bots 1\nconnected yes\nhexagon no\n",
    ),
    // Three that touch each other are a hexagon: one, and two of its ring in a row.
    (
        "measure",
        "{OUT}shape\narea 0 0 8 8\nbot 3 3 3 3 0 +\nbot 4 3 4 3 0 +\nbot 3 4 3 4 0 +\nend\n",
        Done,
        None,
        "bots 3\nconnected yes\nhexagon yes\n",
    ),
];
