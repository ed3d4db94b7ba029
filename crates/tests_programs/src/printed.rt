use action_parser::parse_program;
use action_print::print_program;
use action_tree::Program;
use std::alloc::Global;
use std::process::Abort;
use text_tokens::{Text, Tokens};

/// Texts of programs, each with the canonical text of the same program.
static PROGRAMS: [(&str, &str); 5] = [
    // one line, no blanks but where words would touch, and a parenthesis that is not needed
    (
        "program\nvar  m 3 action a when(m=0 or(m=1))and not contracted\n\
        do m:=m+1;if m>2 then m:=0 fi move contract tail end",
        "program\nguard off\nvar m 3\naction a\nwhen ( m = 0 or m = 1 ) and not contracted\n\
         do m := m + 1 ; if m > 2 then m := 0 fi\nmove contract tail\nend\n",
    ),
    // the amoebots of one row gather at the border
    (
        "program guard off # shipped\naction out when contracted and free head 0 move expand head 0\n\
         action follow_up when expanded move contract tail end",
        "program\nguard off\naction out\nwhen contracted and free head 0\n\
        move expand head 0\naction follow_up\n\
         when expanded\nmove contract tail\nend\n",
    ),
    // a leader by erosion
    (
        "program\nguard off\nvar cand 1\nvar leader 1\naction lead\n\
         when cand = 1 and leader = 0 and not any p in ports ( p . cand = 1 )\ndo leader := 1\naction erode\n\
         when cand = 1 and count p in ports ( p . cand = 1\n \
         and not ( linked turn p 1 and turn p 1 . cand = 1 ) ) = 1\ndo cand := 0\nend\n",
        "program\nguard off\nvar cand 1\nvar leader 1\naction lead\n\
         when cand = 1 and leader = 0 and not any p in ports ( p . cand = 1 )\ndo leader := 1\nmove none\n\
         action erode\nwhen cand = 1 and count p in ports ( p . cand = 1 and not ( linked turn p 1 \
         and turn p 1 . cand = 1 ) ) = 1\ndo cand := 0\nmove none\nend\n",
    ),
    // a hexagon round a seed
    (
        "program\nguard off\nvar state 4\nvar parent 6\nvar aim 6\naction root\n\
         when contracted and ( state = 0 or state = 2 )\n and \
         any p in ports ( p . state = 1 or p . state = 4 )\n\
         do parent := 6 ; state := 3\naction follow\nwhen contracted and state = 0\n \
         and any p in ports ( p . state = 2 or p . state = 3 )\n\
         do let q := first p in ports ( p . state = 2 or p . state = 3 ) ;\n parent := dir q ; state := 2\n\
         action retire\nwhen contracted and state = 3 and any p in ports (\n \
         ( p . state = 1 or p . state = 4 ) and p . aim = peer_dir p )\n\
         do let q := first p in ports ( ( p . state = 1 or p . state = 4 )\n and not ( linked turn p 5\n \
         and ( turn p 5 . state = 1 or turn p 5 . state = 4 ) ) ) ;\n aim := dir \
         turn q 5 ; state := 4\naction go\n\
         when contracted and state = 3 and any p in ports (\n \
         ( p . state = 1 or p . state = 4 ) and free turn p 1 )\nmove expand turn first p in ports (\n \
         ( p . state = 1 or p . state = 4 ) and free turn p 1 ) 1\naction drag\n\
         when expanded and ( state = 2 or state = 3 )\n and not any p in ports ( p . state = 0 )\n \
         and any p in ports ( not at_head p and p . state = 2\n \
         and not peer_expanded p and p . parent = peer_dir p )\n\
         do let q := first p in ports ( not at_head p and p . state = 2\n \
         and not peer_expanded p and p . parent = peer_dir p ) ;\n \
         q . parent := mod6 ( inner - dir q + peer_dir q + 3 )\nmove pull q\naction rest\n\
         when expanded and ( state = 2 or state = 3 )\n and \
         not any p in ports ( p . state = 0 or not at_head p\n \
         and p . state = 2 and peer_head p and p . parent = peer_dir p )\nmove contract tail\nend\n",
        "program\nguard off\nvar state 4\nvar parent 6\nvar aim 6\naction root\n\
         when contracted and ( state = 0 or state = 2 ) and \
         any p in ports ( p . state = 1 or p . state = 4 )\n\
         do parent := 6 ; state := 3\nmove none\naction follow\n\
         when contracted and state = 0 and any p in ports ( p . state = 2 or p . state = 3 )\n\
         do let q := first p in ports ( p . state = 2 \
         or p . state = 3 ) ; parent := dir q ; state := 2\nmove none\n\
         action retire\nwhen contracted and state = 3 and \
         any p in ports ( ( p . state = 1 or p . state = 4 ) \
         and p . aim = peer_dir p )\n\
         do let q := first p in ports ( ( p . state = 1 or p . state = 4 ) and not ( linked turn p 5 \
         and ( turn p 5 . state = 1 or turn p 5 . state = 4 ) ) ) ; aim := dir \
         turn q 5 ; state := 4\nmove none\n\
         action go\n\
         when contracted and state = 3 and any p in ports ( ( p . state = 1 \
         or p . state = 4 ) and free turn p 1 )\n\
         move expand turn first p in ports ( ( p . state = 1 \
         or p . state = 4 ) and free turn p 1 ) 1\naction drag\n\
         when expanded and ( state = 2 or state = 3 ) and not any p in ports ( p . state = 0 ) and \
         any p in ports ( not at_head p and p . state = 2 and \
         not peer_expanded p and p . parent = peer_dir p )\n\
         do let q := first p in ports ( not at_head p and p . state = 2 and not peer_expanded p \
         and p . parent = peer_dir p ) ; q . parent := mod6 ( inner - dir q + peer_dir q + 3 )\nmove pull q\n\
         action rest\n\
         when expanded and ( state = 2 or state = 3 ) and \
         not any p in ports ( p . state = 0 or not at_head p \
         and p . state = 2 and peer_head p and p . parent = peer_dir p )\nmove contract tail\nend\n",
    ),
    // each form of the language
    (
        "program guard on var x 0001 action a when true and(contracted)and((expanded))and not(false)or \
         any p in ports(linked p)or(all p in free(free head 00))or at_head tail x or peer_expanded turn p 1 \
         or peer_head first p in ports(true) or -1+x-p.x+count p in ports(true)+dir p+peer_dir \
         p+inner+mod6(x)=inner and inner!=inner and inner<inner \
         and inner<=inner and inner>inner and inner>=inner \
         do x:=-1+x-p.x+count p in ports(true)+dir p+peer_dir p+inner+mod6(x);p.x:=inner;let q:=p;if true \
         then x:=inner else x:=inner fi;for p in ports(true) do x:=inner od action b when true move expand p \
         action c when true move contract head action d when true \
         move push p action e when (true) move pull p end",
        "program\nguard on\nvar x 1\naction a\n\
         when true and contracted and expanded and not false or any p in ports ( linked p ) or \
         all p in free ( free head 0 ) or at_head tail x or peer_expanded turn p 1 \
         or peer_head first p in ports ( true ) \
         or - 1 + x - p . x + count p in ports ( true ) + dir p + peer_dir p \
         + inner + mod6 ( x ) = inner and inner != inner \
         and inner < inner and inner <= inner and inner > inner \
         and inner >= inner\n\
         do x := - 1 + x - p . x + count p in ports ( true ) + dir \
         p + peer_dir p + inner + mod6 ( x ) ; p . x := \
         inner ; let q := p ; if true then x := inner else x := inner fi ; \
         for p in ports ( true ) do x := inner \
         od\nmove none\naction b\nwhen true\nmove expand p\n\
         action c\nwhen true\nmove contract head\naction d\n\
         when true\nmove push p\naction e\nwhen true\nmove pull p\nend\n",
    ),
];

/// The program of a text, behind which nothing comes.
fn read(rt: &impl Abort, alloc: Global, text: &[u8]) -> Program {
    assert!(rt; text.len() < 1_000_000);
    let mut tokens = Tokens::new(text);
    let Ok(program) = parse_program(alloc, &mut tokens) else {
        panic!(rt; "no program");
    };
    assert!(rt; tokens.next() == Ok(None));
    program
}

fn printed(rt: &impl Abort, alloc: Global, text: &[u8]) -> Text {
    let Ok(text) = print_program(alloc, &read(rt, alloc, text)) else {
        panic!(rt; "no memory");
    };
    text
}

/// Each text of a table is printed as its canonical text, which is printed as it is.
fn are_printed(rt: &impl Abort, alloc: Global, table: &[(&str, &str)]) {
    for (text, canonical) in table {
        let once = printed(rt, alloc, text.as_bytes());
        assert!(rt; once.bytes() == canonical.as_bytes(), "{text}");
        let again = printed(rt, alloc, once.bytes());
        assert!(rt; again.bytes() == canonical.as_bytes(), "{text}");
    }
}

#[test]
fn programs_are_read_printed_and_read_again(rt: HostRuntime) {
    are_printed(&rt, rt.alloc(), &PROGRAMS);
}
