//! Long texts in which two limits meet, or a limit and another fault, and which comes first.

use crate::limits::Long;
use text_tokens::RefusalKind::{BadByte, TooDeep, TooMany, Truncated, Unexpected, WordTooLong};

/// Texts of what comes first where a token passes two limits, or none.
pub static FIRST_FAULTS: [Long; 34] = [
    // what the first token of one too many is refused for
    (
        "program action a when {32:( }true\n{63:and true\n}and\n( true )",
        Some((66, TooDeep)),
    ),
    (
        "program action a when {31:( }true\n{63:and true\n}and\n( true )",
        Some((66, TooMany)),
    ),
    (
        "program action a when {32:( }true\n{63:or true\n}or\nnot true",
        Some((66, TooDeep)),
    ),
    (
        "program action a when {31:( }true\n{63:or true\n}or\nnot true",
        Some((66, TooMany)),
    ),
    (
        "program action a when {32:( }true\n{63:and true\n}and\nturn p 1 . x = 1",
        Some((66, TooDeep)),
    ),
    (
        "program action a when {31:( }true\n{63:and true\n}and\nturn p 1 . x = 1",
        Some((66, TooMany)),
    ),
    (
        "program action a when {32:( }true\n{63:and true\n}and\nany p in ports ( true )",
        Some((66, TooMany)),
    ),
    (
        "program action a when {32:( }true\n{63:or true\n}or\nmod6 ( 1 ) = 1",
        Some((66, TooMany)),
    ),
    (
        "program action a when {32:( }true\n{63:or true\n}or\n- turn p 1 . x = 1",
        Some((66, TooMany)),
    ),
    (
        "program action a when {32:( }true\n{63:and true\n}and\n)",
        Some((66, Unexpected)),
    ),
    (
        "program action a when {32:( }true\n{63:and true\n}and\nand",
        Some((66, Unexpected)),
    ),
    (
        "program action a when {32:( }true\n{63:or true\n}or\n",
        Some((66, Truncated)),
    ),
    (
        "program action a when {32:( }true\n{63:or true\n}or\n$",
        Some((66, BadByte)),
    ),
    (
        "program action a when {32:( }true\n{63:or true\n}or\naaaaaaaaaaaaaaaaaaaaaaaaa",
        Some((66, WordTooLong)),
    ),
    (
        "program action a when {32:( }1\n{63:+ 1\n}-\nturn p 1 . x",
        Some((66, TooDeep)),
    ),
    (
        "program action a when {31:( }1\n{63:+ 1\n}-\nturn p 1 . x",
        Some((66, TooMany)),
    ),
    (
        "program action a when {32:( }1\n{63:+ 1\n}-\nmod6 ( 1 )",
        Some((66, TooMany)),
    ),
    (
        "program action a when {32:( }1\n{63:+ 1\n}-\nfirst p in ports ( true ) . x",
        Some((66, TooMany)),
    ),
    (
        "program action a when {32:( }1\n{63:+ 1\n}+\n- 1",
        Some((66, Unexpected)),
    ),
    (
        "program action a when {32:( }1\n{63:+ 1\n}+\n( 1 )",
        Some((66, Unexpected)),
    ),
    (
        "program action a when {32:( }1\n{63:+ 1\n}+\n",
        Some((66, Truncated)),
    ),
    (
        "program action a when true do {32:if true then }m := 0\n{63:; m := 0\n};\nif true then m := 0 fi",
        Some((66, TooDeep)),
    ),
    (
        "program action a when true do {31:if true then }m := 0\n{63:; m := 0\n};\nif true then m := 0 fi",
        Some((66, TooMany)),
    ),
    (
        "program action a when true do {32:if true then }m := 0\n\
        {63:; m := 0\n};\nfor p in ports ( true ) do m := 0 od",
        Some((66, TooDeep)),
    ),
    (
        "program action a when true do {32:if true then }m := 0\n{63:; m := 0\n};\nturn p 1 . x := 0",
        Some((66, TooDeep)),
    ),
    (
        "program action a when true do {32:if true then }m := 0\n{63:; m := 0\n};\nhead 0 . x := 0",
        Some((66, TooMany)),
    ),
    (
        "program action a when true do {32:if true then }m := 0\n{63:; m := 0\n};\nlet q := p",
        Some((66, TooMany)),
    ),
    (
        "program action a when true do {32:if true then }m := 0\n{63:; m := 0\n};\nfi",
        Some((66, Unexpected)),
    ),
    (
        "program action a when true do {32:if true then }m := 0\n{63:; m := 0\n};\n3",
        Some((66, Unexpected)),
    ),
    (
        "program action a when true do {32:if true then }m := 0\n{63:; m := 0\n};\n",
        Some((66, Truncated)),
    ),
    // a fifth name where no level is left, and behind statements that bind none
    (
        "program action a when any p in ports ( any q in ports ( any \
        r in ports ( any s in ports ( {28:( }any\nt in ports ( true )",
        Some((2, TooMany)),
    ),
    (
        "program action a when true do let p := p ; let q := p ; \
        let r := p ; let s := p ; {32:if true then }\n\
         for t in ports ( true ) do m := 0 od",
        Some((2, TooDeep)),
    ),
    (
        "program action a when true do let p := p ; let q := p ; let r := p ; let s := p\n{60:; m := 0\n}end",
        None,
    ),
    (
        "program action a when true do let p := p ; let q := p ; let r := p ; let s := p\n\
        {59:; m := 0\n}; let\nt := p end",
        Some((62, TooMany)),
    ),
];
