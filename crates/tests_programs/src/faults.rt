//! Texts that the grammar refuses, with the line and the kind of the refusal.

use text_tokens::RefusalKind::{self, BadByte, TooMany, Truncated, Unexpected, WordTooLong};

/// A text that is refused, with the line and the kind.
pub type Fault = (&'static str, u32, RefusalKind);

/// Faults of whole programs and of variables.
pub static PROGRAM_FAULTS: [Fault; 27] = [
    // program
    ("", 1, Truncated),
    ("# program end", 1, Truncated),
    ("program\n\n", 3, Truncated),
    ("program # end\n", 2, Truncated),
    ("program\naction a when true\n", 3, Truncated),
    ("action a when true end", 1, Unexpected),
    ("\n3 program end", 2, Unexpected),
    ("amoebot 1 program end", 1, Unexpected),
    ("program\nprogram end", 2, Unexpected),
    ("program\naction b when true\nvar c 1 end", 3, Unexpected),
    ("program shape end", 1, Unexpected),
    ("program ( end", 1, Unexpected),
    ("program\nend_ ", 2, Unexpected),
    // guard
    ("program guard", 1, Truncated),
    ("program\nguard\nend", 3, Unexpected),
    ("program guard maybe end", 1, Unexpected),
    ("program guard on\noff end", 2, Unexpected),
    ("program guard on guard on end", 1, Unexpected),
    ("program var a 1\nguard on end", 2, Unexpected),
    // var
    ("program var 3 end", 1, Unexpected),
    ("program var a\nend", 2, Unexpected),
    ("program var a", 1, Truncated),
    ("program var a 1 2 end", 1, Unexpected),
    ("program var a b 1 end", 1, Unexpected),
    ("program var a - 1 end", 1, Unexpected),
    ("program var\non 1 end", 2, Unexpected),
    ("program var amoebot 1 end", 1, Unexpected),
];

/// Faults of actions and movements.
pub static ACTION_FAULTS: [Fault; 25] = [
    // action
    ("program action\nwhen true end", 2, Unexpected),
    ("program action a true end", 1, Unexpected),
    ("program action a when\nend", 2, Unexpected),
    ("program action a b when true end", 1, Unexpected),
    ("program action a when true\n3 end", 2, Unexpected),
    ("program action 3 when true end", 1, Unexpected),
    ("program action pull when true end", 1, Unexpected),
    ("program action a when true\ndo\nend", 3, Unexpected),
    ("program action a when true do do m := 0 end", 1, Unexpected),
    (
        "program action a when true do m := 0\ndo m := 0 end",
        2,
        Unexpected,
    ),
    ("program action a when true\nmove\nend", 3, Unexpected),
    (
        "program action a when true move none\nmove none end",
        2,
        Unexpected,
    ),
    (
        "program\nvar m 1\naction a when true move none do m := 0\nend",
        3,
        Unexpected,
    ),
    ("program action a when true do m := 0 move", 1, Truncated),
    // move
    ("program action a when true move expand end", 1, Unexpected),
    ("program action a when true move push end", 1, Unexpected),
    ("program action a when true move pull\n3 end", 2, Unexpected),
    (
        "program action a when true move push p\nq end",
        2,
        Unexpected,
    ),
    (
        "program action a when true move contract end",
        1,
        Unexpected,
    ),
    (
        "program action a when true move contract p end",
        1,
        Unexpected,
    ),
    (
        "program action a when true move contract head\n0 end",
        2,
        Unexpected,
    ),
    ("program action a when true move none p end", 1, Unexpected),
    ("program action a when true move head 0 end", 1, Unexpected),
    ("program action a when true move 3 end", 1, Unexpected),
    ("program action a when true move free end", 1, Unexpected),
];

/// Faults of statements.
pub static STATEMENT_FAULTS: [Fault; 30] = [
    // stmts
    ("program action a when true do m := 0 ; end", 1, Unexpected),
    ("program action a when true do ; m := 0 end", 1, Unexpected),
    (
        "program action a when true do m := 0\nn := 1 end",
        2,
        Unexpected,
    ),
    (
        "program action a when true do m := 0 ; ; n := 1 end",
        1,
        Unexpected,
    ),
    (
        "program action a when true do m := 0 . n := 1 end",
        1,
        Unexpected,
    ),
    // stmt: NAME := sum
    ("program action a when true do m 0 end", 1, Unexpected),
    ("program action a when true do m := end", 1, Unexpected),
    ("program action a when true do m =\n0 end", 1, Unexpected),
    ("program action a when true do m := := 0 end", 1, Unexpected),
    ("program action a when true do m := true end", 1, Unexpected),
    ("program action a when true do 3 := m end", 1, Unexpected),
    (
        "program action a when true do m\n:= - - 1 end",
        2,
        Unexpected,
    ),
    ("program action a when true do none := 1 end", 1, Unexpected),
    ("program action a when true do m :=", 1, Truncated),
    // stmt: port . NAME := sum
    ("program action a when true do p . := 0 end", 1, Unexpected),
    ("program action a when true do p . x 0 end", 1, Unexpected),
    ("program action a when true do p x := 0 end", 1, Unexpected),
    (
        "program action a when true do head 0 := 1 end",
        1,
        Unexpected,
    ),
    (
        "program action a when true do p .\n3 := 0 end",
        2,
        Unexpected,
    ),
    (
        "program action a when true do p . x . y := 0 end",
        1,
        Unexpected,
    ),
    (
        "program action a when true do turn p 1 . x := end",
        1,
        Unexpected,
    ),
    (
        "program action a when true do first p in ports ( true ) := 1 end",
        1,
        Unexpected,
    ),
    // stmt: let NAME := port
    ("program action a when true do let := p end", 1, Unexpected),
    ("program action a when true do let q p end", 1, Unexpected),
    ("program action a when true do let q := end", 1, Unexpected),
    (
        "program action a when true do let q :=\n3 end",
        2,
        Unexpected,
    ),
    (
        "program action a when true do let let q := p end",
        1,
        Unexpected,
    ),
    (
        "program action a when true do let 3 := p end",
        1,
        Unexpected,
    ),
    (
        "program action a when true do let q := p . x end",
        1,
        Unexpected,
    ),
    (
        "program action a when true do let\nhead := p end",
        2,
        Unexpected,
    ),
];

/// Faults of statements with statements inside.
pub static BLOCK_FAULTS: [Fault; 20] = [
    // stmt: if
    (
        "program action a when true do if then m := 0 fi end",
        1,
        Unexpected,
    ),
    (
        "program action a when true do if true m := 0 fi end",
        1,
        Unexpected,
    ),
    (
        "program action a when true do if true then\nfi end",
        2,
        Unexpected,
    ),
    (
        "program action a when true do if true then m := 0 end",
        1,
        Unexpected,
    ),
    (
        "program action a when true do if true then m := 0 else fi end",
        1,
        Unexpected,
    ),
    (
        "program action a when true do if true then m := 0 else m := 1\nelse m := 2 fi end",
        2,
        Unexpected,
    ),
    (
        "program action a when true do if true then m := 0 fi fi end",
        1,
        Unexpected,
    ),
    (
        "program action a when true do if m then m := 0 fi end",
        1,
        Unexpected,
    ),
    (
        "program action a when true do if true then m := 0",
        1,
        Truncated,
    ),
    // stmt: for
    (
        "program action a when true do for in ports ( true ) do m := 0 od end",
        1,
        Unexpected,
    ),
    (
        "program action a when true do for p ports ( true ) do m := 0 od end",
        1,
        Unexpected,
    ),
    (
        "program action a when true do for p in ( true ) do m := 0 od end",
        1,
        Unexpected,
    ),
    (
        "program action a when true do for p in head ( true ) do m := 0 od end",
        1,
        Unexpected,
    ),
    (
        "program action a when true do for p in ports true do m := 0 od end",
        1,
        Unexpected,
    ),
    (
        "program action a when true do for p in ports ( ) do m := 0 od end",
        1,
        Unexpected,
    ),
    (
        "program action a when true do for p in ports ( true do m := 0 od end",
        1,
        Unexpected,
    ),
    (
        "program action a when true do for p in ports ( true )\nm := 0 od end",
        2,
        Unexpected,
    ),
    (
        "program action a when true do for p in ports ( true ) do od end",
        1,
        Unexpected,
    ),
    (
        "program action a when true do for p in ports ( true ) do m := 0 end",
        1,
        Unexpected,
    ),
    (
        "program action a when true do for p q in free ( true ) do m := 0 od end",
        1,
        Unexpected,
    ),
];

/// Faults of guards.
pub static GUARD_FAULTS: [Fault; 33] = [
    // expr and conj
    ("program action a when true or end", 1, Unexpected),
    ("program action a when or true end", 1, Unexpected),
    ("program action a when true or\nor true end", 2, Unexpected),
    ("program action a when true and end", 1, Unexpected),
    ("program action a when and true end", 1, Unexpected),
    (
        "program action a when true and\nand true end",
        2,
        Unexpected,
    ),
    ("program action a when true and or true end", 1, Unexpected),
    ("program action a when true\nfalse end", 2, Unexpected),
    // unit
    ("program action a when not end", 1, Unexpected),
    ("program action a when not not end", 1, Unexpected),
    ("program action a when ( true end", 1, Unexpected),
    ("program action a when ( ) end", 1, Unexpected),
    ("program action a when true ) end", 1, Unexpected),
    ("program action a when ( true ) ) end", 1, Unexpected),
    ("program action a when 3 end", 1, Unexpected),
    ("program action a when x end", 1, Unexpected),
    ("program action a when p . x end", 1, Unexpected),
    ("program action a when ( x ) = 1 end", 1, Unexpected),
    ("program action a when not x end", 1, Unexpected),
    ("program action a when ports end", 1, Unexpected),
    ("program action a when none end", 1, Unexpected),
    ("program action a when var end", 1, Unexpected),
    ("program action a when (\n", 2, Truncated),
    // any, all
    (
        "program action a when any in ports ( true ) end",
        1,
        Unexpected,
    ),
    (
        "program action a when any p ports ( true ) end",
        1,
        Unexpected,
    ),
    ("program action a when all p in ( true ) end", 1, Unexpected),
    (
        "program action a when all p in linked ( true ) end",
        1,
        Unexpected,
    ),
    (
        "program action a when any p in ports true end",
        1,
        Unexpected,
    ),
    (
        "program action a when any p in ports\n( ) end",
        2,
        Unexpected,
    ),
    (
        "program action a when any p in free ( true end",
        1,
        Unexpected,
    ),
    (
        "program action a when any p in free free ( true ) end",
        1,
        Unexpected,
    ),
    (
        "program action a when all all in ports ( true ) end",
        1,
        Unexpected,
    ),
    (
        "program action a when any 3 in ports ( true ) end",
        1,
        Unexpected,
    ),
];

/// Faults of tests, comparisons and sums.
pub static SUM_FAULTS: [Fault; 20] = [
    // linked, free, at_head, peer_expanded, peer_head
    ("program action a when linked end", 1, Unexpected),
    ("program action a when free 3 end", 1, Unexpected),
    ("program action a when linked p p end", 1, Unexpected),
    (
        "program action a when at_head\nat_head p end",
        2,
        Unexpected,
    ),
    ("program action a when peer_head ( p ) end", 1, Unexpected),
    (
        "program action a when peer_expanded ports end",
        1,
        Unexpected,
    ),
    // cmp
    ("program action a when 1 1 end", 1, Unexpected),
    ("program action a when 1 = end", 1, Unexpected),
    ("program action a when 1 = = 1 end", 1, Unexpected),
    ("program action a when 1 = 1\n= 1 end", 2, Unexpected),
    ("program action a when 1 := 1 end", 1, Unexpected),
    ("program action a when 1 < > 1 end", 1, Unexpected),
    ("program action a when 1 != true end", 1, Unexpected),
    // sum
    ("program action a when - - 1 = 1 end", 1, Unexpected),
    ("program action a when 1 + = 1 end", 1, Unexpected),
    ("program action a when 1 +\n- 1 = 1 end", 2, Unexpected),
    ("program action a when + 1 = 1 end", 1, Unexpected),
    ("program action a when 1 - = 1 end", 1, Unexpected),
    ("program action a when - = 1 end", 1, Unexpected),
    ("program action a when 1 = 1 + ( 1 ) end", 1, Unexpected),
];

/// Faults of terms.
pub static TERM_FAULTS: [Fault; 21] = [
    // term
    ("program action a when p . = 1 end", 1, Unexpected),
    ("program action a when p .\n3 = 1 end", 2, Unexpected),
    ("program action a when p . x . y = 1 end", 1, Unexpected),
    ("program action a when p p . x = 1 end", 1, Unexpected),
    ("program action a when 3 . x = 1 end", 1, Unexpected),
    ("program action a when head 0 = 1 end", 1, Unexpected),
    ("program action a when turn p 1 = 1 end", 1, Unexpected),
    (
        "program action a when first p in ports ( true ) = 1 end",
        1,
        Unexpected,
    ),
    (
        "program action a when count in ports ( true ) = 1 end",
        1,
        Unexpected,
    ),
    (
        "program action a when count p in ports true = 1 end",
        1,
        Unexpected,
    ),
    (
        "program action a when count p in ports ( true end",
        1,
        Unexpected,
    ),
    ("program action a when dir = 1 end", 1, Unexpected),
    ("program action a when dir 3 = 1 end", 1, Unexpected),
    ("program action a when peer_dir p p = 1 end", 1, Unexpected),
    ("program action a when inner p = 1 end", 1, Unexpected),
    ("program action a when inner inner = 1 end", 1, Unexpected),
    ("program action a when 1 = inner ( end", 1, Unexpected),
    ("program action a when mod6 1 = 1 end", 1, Unexpected),
    ("program action a when mod6 ( ) = 1 end", 1, Unexpected),
    ("program action a when mod6 ( 1 = 1 end", 1, Unexpected),
    ("program action a when mod6 ( 1 ) ) = 1 end", 1, Unexpected),
];

/// Faults of ports, and of bytes that begin no token.
pub static PORT_FAULTS: [Fault; 23] = [
    // port and dirterm
    ("program action a when linked turn p end", 1, Unexpected),
    ("program action a when linked turn 5 end", 1, Unexpected),
    ("program action a when linked turn p\nq end", 2, Unexpected),
    ("program action a when linked turn p 1 1 end", 1, Unexpected),
    ("program action a when linked head end", 1, Unexpected),
    ("program action a when linked head\nhead end", 2, Unexpected),
    ("program action a when linked tail - 1 end", 1, Unexpected),
    ("program action a when linked head 0 0 end", 1, Unexpected),
    (
        "program action a when linked first in ports ( true ) end",
        1,
        Unexpected,
    ),
    (
        "program action a when linked first p in ports end",
        1,
        Unexpected,
    ),
    (
        "program action a when linked first p in ports ( p ) end",
        1,
        Unexpected,
    ),
    ("program action a when linked 0 end", 1, Unexpected),
    // bytes that begin no token, and what is too long
    ("program $ end", 1, BadByte),
    ("$", 1, BadByte),
    ("program action a when\nm : = 1 end", 2, BadByte),
    ("program action a when ! true end", 1, BadByte),
    ("program action a when true\n{ end", 2, BadByte),
    (
        "program var aaaaaaaaaaaaaaaaaaaaaaaaa 1 end",
        1,
        WordTooLong,
    ),
    ("program var a\n0000000001 end", 2, WordTooLong),
    ("program\nabcdefghijklmnopqrstuvwxy end", 2, WordTooLong),
    ("program action a when 1234567890 = 1 end", 1, WordTooLong),
    (
        "program action a when aaaaaaaaaaaaaaaaaaaaaaaa = 1\nbbbbbbbbbbbbbbbbbbbbbbbbb end",
        2,
        WordTooLong,
    ),
    ("program action a when linked p # $\n$ end", 2, BadByte),
];

/// Faults of names in force, and of a ninth variable.
pub static NAME_FAULTS: [Fault; 18] = [
    // the fifth name in force, by each kind of binding
    (
        "program action a when any p in ports ( any q in ports ( any r in ports ( any s in ports (\n\
        any p in ports ( true ) ) ) ) ) end",
        2,
        TooMany,
    ),
    (
        "program action a when any p in ports ( any q in ports ( any r in ports ( any s in ports (\n\
        all\nt in ports ( true ) ) ) ) ) end",
        3,
        TooMany,
    ),
    (
        "program action a when any p in ports ( any q in ports ( any r in ports ( any s in ports (\n\
         count t in ports ( true ) = 1 ) ) ) ) end",
        2,
        TooMany,
    ),
    (
        "program action a when any p in ports ( any q in ports ( any r in ports ( any s in ports (\n\
         linked first t in ports ( true ) ) ) ) ) end",
        2,
        TooMany,
    ),
    (
        "program action a when any p in ports ( any q in ports ( any r in ports ( any s in ports (\n\
        any in ports ( true ) ) ) ) ) end",
        2,
        Unexpected,
    ),
    (
        "program action a when true do let p := p ; let q := p ; let r := p ; let s := p ;\nlet t := p end",
        2,
        TooMany,
    ),
    (
        "program action a when true do let p := p ; let q := p ; let r := p ; let s := p ; let\np := p end",
        2,
        TooMany,
    ),
    (
        "program action a when true do let p := p ; let q := p ; let r := p ; let s := p ;\n\
        for t in ports ( true ) do m := 0 od end",
        2,
        TooMany,
    ),
    (
        "program action a when true do let p := p ; let q := p ; let r := p ; let s := p ; m :=\n\
        count t in ports ( true ) end",
        2,
        TooMany,
    ),
    (
        "program action a when true do let p := p ; let q := p ; \
        let r := p ; let s := p ; if true then\nlet t := p fi end",
        2,
        TooMany,
    ),
    (
        "program action a when true do let p := p ; let q := p ; let r := p ; let s := p\n\
        move push first t in ports ( true ) end",
        2,
        TooMany,
    ),
    (
        "program action a when true do for p in ports ( true ) do for q in ports ( true ) do \
         for r in ports ( true ) do for s in ports (\nany t in ports ( true ) ) do\nm := 0 od od od od end",
        2,
        TooMany,
    ),
    (
        "program action a when true do for p in ports ( true ) do for q in ports ( true ) do \
         for r in ports ( true ) do for s in ports (\ntrue ) do\nlet t := p od od od od end",
        3,
        TooMany,
    ),
    (
        "program action a when true do for p in ports ( true ) do for q in ports ( true ) do \
         for r in ports ( true ) do for s in ports (\ntrue ) do\n\
         for t in ports ( true ) do m := 0 od od od od od end",
        3,
        TooMany,
    ),
    (
        "program action a when true do let o := p ; for p in ports ( true ) do for q in ports ( true ) do \
         for r in ports ( true ) do for s in ports (\ntrue ) do\nm := 0 od od od od end",
        1,
        TooMany,
    ),
    // the ninth variable
    (
        "program var v0 1 var v1 1 var v2 1 var v3 1 var v4 1 var v5 1 var v6 1 var v7 1\nvar v8 1 end",
        2,
        TooMany,
    ),
    (
        "program var v0 1 var v1 1 var v2 1 var v3 1 var v4 1 var v5 1 var v6 1 var v7 1\nvar",
        2,
        TooMany,
    ),
    (
        "program var v0 1 var v1 1 var v2 1 var v3 1 var v4 1 var v5 1 var v6 1 var v7 1\nv8 1 end",
        2,
        Unexpected,
    ),
];
