//! Long texts on both sides of each limit, by what they repeat.

use text_tokens::RefusalKind::{self, TooDeep, TooMany};

/// The template of a long text, in which `{NUMBER:TEXT}` stands for a text so many times,
/// and the line and the kind of its refusal.
/// `None` is read.
pub type Long = (&'static str, Option<(u32, RefusalKind)>);

/// Texts of 32 levels and 33.
pub static LEVELS: [Long; 28] = [
    // 32 levels, by each kind of opening
    ("program action a when \n{32:(\n}true {32:) }end", None),
    (
        "program action a when \n{33:(\n}true {33:) }end",
        Some((34, TooDeep)),
    ),
    ("program action a when \n{32:not\n}true end", None),
    (
        "program action a when \n{33:not\n}true end",
        Some((34, TooDeep)),
    ),
    (
        "program action a when linked\n{32:turn\n}p {32:1 }end",
        None,
    ),
    (
        "program action a when linked\n{33:turn\n}p {33:1 }end",
        Some((34, TooDeep)),
    ),
    (
        "program action a when true do \n{32:if true then\n}m := 0 {32:fi }end",
        None,
    ),
    (
        "program action a when true do \n{33:if true then\n}m := 0 {33:fi }end",
        Some((34, TooDeep)),
    ),
    (
        "program action a when {31:( }any p in ports\n( true ) {31:) }end",
        None,
    ),
    (
        "program action a when {32:( }any p in ports\n( true ) {32:) }end",
        Some((2, TooDeep)),
    ),
    (
        "program action a when {31:( }all p in free\n( true ) {31:) }end",
        None,
    ),
    (
        "program action a when {32:( }all p in free\n( true ) {32:) }end",
        Some((2, TooDeep)),
    ),
    (
        "program action a when {31:( }count p in ports\n( true ) = 1 {31:) }end",
        None,
    ),
    (
        "program action a when {32:( }count p in ports\n( true ) = 1 {32:) }end",
        Some((2, TooDeep)),
    ),
    (
        "program action a when {31:( }1 = mod6\n( 1 ) {31:) }end",
        None,
    ),
    (
        "program action a when {32:( }1 = mod6\n( 1 ) {32:) }end",
        Some((2, TooDeep)),
    ),
    (
        "program action a when {31:( }linked first p in ports\n( true ) {31:) }end",
        None,
    ),
    (
        "program action a when {32:( }linked first p in ports\n( true ) {32:) }end",
        Some((2, TooDeep)),
    ),
    (
        "program action a when {31:( }1 =\nturn p 1 . x {31:) }end",
        None,
    ),
    (
        "program action a when {32:( }1 =\nturn p 1 . x {32:) }end",
        Some((2, TooDeep)),
    ),
    (
        "program action a when true do {31:if true then }m := mod6\n( 1 ) {31:fi }end",
        None,
    ),
    (
        "program action a when true do {32:if true then }m := mod6\n( 1 ) {32:fi }end",
        Some((2, TooDeep)),
    ),
    (
        "program action a when true do {30:if true then }for p in ports\n( true ) do m := 0 od {30:fi }end",
        None,
    ),
    (
        "program action a when true do {31:if true then }for p in ports\n( true ) do m := 0 od {31:fi }end",
        Some((2, TooDeep)),
    ),
    (
        "program action a when true do {32:if true then }\nfor p in ports ( true ) do m := 0 od {32:fi }end",
        Some((2, TooDeep)),
    ),
    (
        "program action a when true do {30:if true then }for p in ports ( true ) do\n\
        if true then m := 0 fi od {30:fi }end",
        None,
    ),
    (
        "program action a when true do {31:if true then }for p in ports ( true ) do\n\
        if true then m := 0 fi od {31:fi }end",
        Some((1, TooDeep)),
    ),
    (
        "program action a when true do {29:if true then }for p in ports ( true ) do \
         if true then if true then\nif true then m := 0 fi fi fi od {29:fi }end",
        Some((2, TooDeep)),
    ),
];

/// Texts of 64 elements and 65, 32 actions and 33.
pub static COUNTS: [Long; 21] = [
    // 64 elements of each kind
    ("program action a when true\n{63:or true\n}end", None),
    (
        "program action a when true\n{64:or true\n}end",
        Some((65, TooMany)),
    ),
    ("program action a when true\n{63:and true\n}end", None),
    (
        "program action a when true\n{64:and true\n}end",
        Some((65, TooMany)),
    ),
    ("program action a when 1\n{63:- 1\n}= 1 end", None),
    (
        "program action a when 1\n{64:- 1\n}= 1 end",
        Some((65, TooMany)),
    ),
    ("program action a when 1 = - 1\n{63:+ 1\n}end", None),
    (
        "program action a when 1 = - 1\n{64:+ 1\n}end",
        Some((65, TooMany)),
    ),
    ("program action a when 1 = mod6 ( m\n{63:+ m\n}) end", None),
    (
        "program action a when 1 = mod6 ( m\n{64:+ m\n}) end",
        Some((65, TooMany)),
    ),
    (
        "program action a when true do m := 0\n{63:; m := 0\n}end",
        None,
    ),
    (
        "program action a when true do m := 0\n{64:; m := 0\n}end",
        Some((65, TooMany)),
    ),
    (
        "program action a when true do if true then m := 0\n{63:; m := 0\n}fi end",
        None,
    ),
    (
        "program action a when true do if true then m := 0\n{64:; m := 0\n}fi end",
        Some((65, TooMany)),
    ),
    (
        "program action a when true do if true then m := 0 else m := 0\n{63:; m := 0\n}fi end",
        None,
    ),
    (
        "program action a when true do if true then m := 0 else m := 0\n{64:; m := 0\n}fi end",
        Some((65, TooMany)),
    ),
    (
        "program action a when true do for p in ports ( true ) do m := 0\n{63:; m := 0\n}od end",
        None,
    ),
    (
        "program action a when true do for p in ports ( true ) do m := 0\n{64:; m := 0\n}od end",
        Some((65, TooMany)),
    ),
    (
        "program action a when true\n{63:or true and true\n}end",
        None,
    ),
    // 32 actions
    ("program\n{32:action a when true\n}end", None),
    ("program\n{33:action a when true\n}end", Some((34, TooMany))),
];
