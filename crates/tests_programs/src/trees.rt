//! Texts that the grammar reads, with their trees.

/// A text that is read, with its tree.
/// What stands on another line than the first has its line behind an `@`.
pub type Read = (&'static str, &'static str);

/// Programs, variables and movements.
pub static WHOLE_TEXTS: [Read; 15] = [
    ("program end", "guard off"),
    ("program end more $", "guard off"),
    ("program guard off end", "guard off"),
    (
        "program guard on\nvar a 007 var\nb 999999999 end",
        "guard on; var a@2 7@2; var b@3 999999999@3",
    ),
    (
        "program var v0 0 var v1 0 var v2 0 var v3 0 var v4 0 var v5 0 var v6 0 var v7 0 end",
        "guard off; var v0 0; var v1 0; var v2 0; var v3 0; var v4 0; var v5 0; var v6 0; var v7 0",
    ),
    (
        "program var x 1 action x when true\naction y when false end",
        "guard off; var x 1; action x when true move none; action y@2 when false move none",
    ),
    (
        "program action a when true do x := 1\nmove none end",
        "guard off; action a when true do (put x 1) move none",
    ),
    (
        "program # a comment $\naction aaaaaaaaaaaaaaaaaaaaaaaa when contracted end",
        "guard off; action aaaaaaaaaaaaaaaaaaaaaaaa@2 when contracted move none",
    ),
    (
        "program action a when expanded end",
        "guard off; action a when expanded move none",
    ),
    (
        "program action a when true move expand p end",
        "guard off; action a when true move (expand p)",
    ),
    (
        "program action a when true move push head 0 end",
        "guard off; action a when true move (push (head 0))",
    ),
    (
        "program action a when true move pull turn p 1 end",
        "guard off; action a when true move (pull (turn p 1))",
    ),
    (
        "program action a when true move contract head end",
        "guard off; action a when true move (contract head)",
    ),
    (
        "program action a when true move contract tail end",
        "guard off; action a when true move (contract tail)",
    ),
    (
        "program action a when true move none end",
        "guard off; action a when true move none",
    ),
];

/// Guards.
pub static GUARD_TEXTS: [Read; 14] = [
    (
        "program action a when true or false and not true end",
        "guard off; action a when (or true (and false (not true))) move none",
    ),
    (
        "program action a when true and false or true and false end",
        "guard off; action a when (or (and true false) (and true false)) move none",
    ),
    (
        "program action a when ( true or false ) and true end",
        "guard off; action a when (and (or true false) true) move none",
    ),
    (
        "program action a when true and ( false and true ) end",
        "guard off; action a when (and true (and false true)) move none",
    ),
    (
        "program action a when true or ( false or true ) end",
        "guard off; action a when (or true (or false true)) move none",
    ),
    (
        "program action a when true and false and true end",
        "guard off; action a when (and true false true) move none",
    ),
    (
        "program action a when ( ( true ) ) end",
        "guard off; action a when true move none",
    ),
    (
        "program action a when not ( true and false ) end",
        "guard off; action a when (not (and true false)) move none",
    ),
    (
        "program action a when not true and false end",
        "guard off; action a when (and (not true) false) move none",
    ),
    (
        "program action a when not not true end",
        "guard off; action a when (not (not true)) move none",
    ),
    (
        "program action a when any p in ports ( linked p ) end",
        "guard off; action a when (any p ports (linked p)) move none",
    ),
    (
        "program action a when all\np in free ( free tail x ) end",
        "guard off; action a when (all p@2 free (free (tail x@2))) move none",
    ),
    (
        "program action a when at_head p and peer_expanded p and peer_head p end",
        "guard off; action a when (and (at_head p) (peer_expanded p) (peer_head p)) move none",
    ),
    (
        "program action a when any p in ports ( true ) and all p in free ( true ) end",
        "guard off; action a when (and (any p ports true) (all p free true)) move none",
    ),
];

/// Comparisons and sums.
pub static SUM_TEXTS: [Read; 9] = [
    (
        "program action a when free first p in free ( free p ) end",
        "guard off; action a when (free (first p free (free p))) move none",
    ),
    (
        "program action a when linked turn turn head 0 5 9 end",
        "guard off; action a when (linked (turn (turn (head 0) 5) 9)) move none",
    ),
    (
        "program action a when 1 = 2 and 1 != 2 and 1 < 2 and 1 <= 2 and 1 > 2 and 1 >= 2 end",
        "guard off; action a when (and (1 = 2) (1 != 2) (1 < 2) (1 <= 2) (1 > 2) (1 >= 2)) move none",
    ),
    (
        "program action a when - a + b = 1 end",
        "guard off; action a when ((sum - a + b) = 1) move none",
    ),
    (
        "program action a when a - b - c = - 1 end",
        "guard off; action a when ((sum + a - b - c) = (sum - 1)) move none",
    ),
    (
        "program action a when p . x = 1 end",
        "guard off; action a when ((of p x) = 1) move none",
    ),
    (
        "program action a when head 0 . x = turn p 1 . y end",
        "guard off; action a when ((of (head 0) x) = (of (turn p 1) y)) move none",
    ),
    (
        "program action a when first p in ports ( true ) . x = x end",
        "guard off; action a when ((of (first p ports true) x) = x) move none",
    ),
    (
        "program action a when count p in free ( true ) = 1 end",
        "guard off; action a when ((count p free true) = 1) move none",
    ),
];

/// Statements.
pub static STATEMENT_TEXTS: [Read; 9] = [
    (
        "program action a when dir p + peer_dir head x = inner end",
        "guard off; action a when ((sum + (dir p) + (peer_dir (head x))) = inner) move none",
    ),
    (
        "program action a when mod6 ( - 1 + inner )\n= 1 end",
        "guard off; action a when ((mod6 (sum - 1 + inner)) = 1@2) move none",
    ),
    (
        "program action a when ( x = 1 or x = 2 ) end",
        "guard off; action a when (or (x = 1) (x = 2)) move none",
    ),
    (
        "program action a when true do x := 1 ; y := - x end",
        "guard off; action a when true do (put x 1) (put y (sum - x)) move none",
    ),
    (
        "program action a when true do p . x := 1 ; head 0 . x := 2 end",
        "guard off; action a when true do (put_of p x 1) (put_of (head 0) x 2) move none",
    ),
    (
        "program action a when true do turn p 1 . x := 1 ; first p in ports ( true ) . x := 2 end",
        "guard off; action a when true \
        do (put_of (turn p 1) x 1) (put_of (first p ports true) x 2) move none",
    ),
    (
        "program action a when true do let q := first q in ports ( true ) ; q . x := 1 end",
        "guard off; action a when true do (let q (first q ports true)) (put_of q x 1) move none",
    ),
    (
        "program action a when true do if true then x := 1 fi end",
        "guard off; action a when true do (if true then (put x 1)) move none",
    ),
    (
        "program action a when true do if true then x := 1 ; y := 2 else x := 2 fi ; z := 3 end",
        "guard off; action a when true \
        do (if true then (put x 1) (put y 2) else (put x 2)) (put z 3) move none",
    ),
];

/// Names in force, and whole programs.
pub static LONGER_TEXTS: [Read; 11] = [
    (
        "program action a when true do if true then if false then x := 1 fi else x := 2 fi end",
        "guard off; action a when true do (if true then (if false then (put x 1)) else (put x 2)) move none",
    ),
    (
        "program action a when true do for p in ports ( linked p ) do p . x := 1 ; x := 2 od end",
        "guard off; action a when true do (for p ports (linked p) do (put_of p x 1) (put x 2)) move none",
    ),
    (
        "program action a when true do for p in free ( true ) do for q in free ( true ) do x := 1 od od end",
        "guard off; action a when true do (for p free true do (for q free true do (put x 1))) move none",
    ),
    (
        "program action a when true do if true then let p := p ; \
        let q := p ; let r := p ; let s := p fi ; if true \
         then let p := p ; let q := p ; let r := p ; let s := p else let p := p ; let q := p ; let r := p ; \
         let s := p fi end",
        "guard off; action a when true \
        do (if true then (let p p) (let q p) (let r p) (let s p)) (if true then \
         (let p p) (let q p) (let r p) (let s p) else (let p p) (let q p) (let r p) (let s p)) move none",
    ),
    (
        "program action a when true do for p in ports ( any q in ports ( any r in ports ( \
         any s in ports ( true ) ) ) ) do let q := p ; \
         let r := p ; let s := p od ; let p := p ; let q := p ; \
         let r := p ; let s := p end",
        "guard off; action a when true \
        do (for p ports (any q ports (any r ports (any s ports true))) do (let q p) \
         (let r p) (let s p)) (let p p) (let q p) (let r p) (let s p) move none",
    ),
    (
        "program action a when any p in ports ( any q in ports \
        ( any r in ports ( any s in ports ( true ) ) ) ) and \
         any p in ports ( all q in ports ( count r in ports ( linked first s in ports ( true ) ) = 1 ) ) end",
        "guard off; action a \
        when (and (any p ports (any q ports (any r ports (any s ports true)))) (any p ports \
         (all q ports ((count r ports (linked (first s ports true))) = 1)))) move none",
    ),
    (
        "program action a when true do let p := p ; let q := p ; \
        let r := p move push first s in ports ( true ) end",
        "guard off; action a when true do (let p p) (let q p) (let r p) move (push (first s ports true))",
    ),
    (
        "program action a when \
        any p in ports ( any q in ports ( any r in ports ( any s in ports ( true ) ) ) ) do \
         let p := p ; let q := p ; let r := p ; let s := p move push s action b when true do let p := p end",
        "guard off; action a when (any p ports (any q ports (any r ports (any s ports true)))) do (let p p) \
         (let q p) (let r p) (let s p) move (push s); action b when true do (let p p) move none",
    ),
    (
        "program\nvar  m 3 action a when(m=0 or m=1)and not contracted\n\
        do m:=m+1;if m>2 then m:=0 fi move contract tail end",
        "guard off; var m@2 3@2; action a@2 \
        when (and (or (m@2 = 0@2) (m@2 = 1@2)) (not contracted)) do (put m@3 \
         (sum + m@3 + 1@3)) (if (m@3 > 2@3) then (put m@3 0@3)) move (contract tail)",
    ),
    (
        "program\nguard off\naction out\nwhen contracted and free head 0\n\
        move expand head 0\naction follow_up\n\
         when expanded\nmove contract tail\nend\n",
        "guard off; action out@3 when (and contracted (free (head 0@4))) move (expand \
         (head 0@5)); action follow_up@6 when expanded move (contract tail)",
    ),
    (
        "program\nguard off\nvar cand 1\nvar leader 1\naction lead\n\
         when cand = 1 and leader = 0 and not any p in ports ( p . cand = 1 )\ndo leader := 1\naction erode\n\
         when cand = 1 and count p in ports ( p . cand = 1\n \
         and not ( linked turn p 1 and turn p 1 . cand = 1 ) ) = 1\ndo cand := 0\nend",
        "guard off; var cand@3 1@3; var leader@4 1@4; action lead@5 \
        when (and (cand@6 = 1@6) (leader@6 = 0@6) (not \
         (any p@6 ports ((of p@6 cand@6) = 1@6)))) do (put leader@7 1@7) move none; action erode@8 when (and \
         (cand@9 = 1@9) ((count p@9 ports (and ((of p@9 \
         cand@9) = 1@9) (not (and (linked (turn p@10 1@10)) ((of \
         (turn p@10 1@10) cand@10) = 1@10))))) = 1@10)) do (put cand@11 0@11) move none",
    ),
];

/// The program in which amoebots gather to a hexagon round a seed.
pub static HEXAGON: &str = "\
program\n\
guard off\n\
var state 4\n\
var parent 6\n\
var aim 6\n\
action root\n\
when contracted and ( state = 0 or state = 2 )\n\
\x20and any p in ports ( p . state = 1 or p . state = 4 )\n\
do parent := 6 ; state := 3\n\
action follow\n\
when contracted and state = 0\n\
\x20and any p in ports ( p . state = 2 or p . state = 3 )\n\
do let q := first p in ports ( p . state = 2 or p . state = 3 ) ;\n\
\x20parent := dir q ; state := 2\n\
action retire\n\
when contracted and state = 3 and any p in ports (\n\
\x20( p . state = 1 or p . state = 4 ) and p . aim = peer_dir p )\n\
do let q := first p in ports ( ( p . state = 1 or p . state = 4 )\n\
\x20and not ( linked turn p 5\n\
\x20and ( turn p 5 . state = 1 or turn p 5 . state = 4 ) ) ) ;\n\
\x20aim := dir turn q 5 ; state := 4\n\
action go\n\
when contracted and state = 3 and any p in ports (\n\
\x20( p . state = 1 or p . state = 4 ) and free turn p 1 )\n\
move expand turn first p in ports (\n\
\x20( p . state = 1 or p . state = 4 ) and free turn p 1 ) 1\n\
action drag\n\
when expanded and ( state = 2 or state = 3 )\n\
\x20and not any p in ports ( p . state = 0 )\n\
\x20and any p in ports ( not at_head p and p . state = 2\n\
\x20and not peer_expanded p and p . parent = peer_dir p )\n\
do let q := first p in ports ( not at_head p and p . state = 2\n\
\x20and not peer_expanded p and p . parent = peer_dir p ) ;\n\
\x20q . parent := mod6 ( inner - dir q + peer_dir q + 3 )\n\
move pull q\n\
action rest\n\
when expanded and ( state = 2 or state = 3 )\n\
\x20and not any p in ports ( p . state = 0 or not at_head p\n\
\x20and p . state = 2 and peer_head p and p . parent = peer_dir p )\n\
move contract tail\n\
end\n\
";
