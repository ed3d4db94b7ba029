//! Tokens of texts, and readers of one token and of groups.

use std::alloc::Global;
use std::test::*;
use text_tokens::RefusalKind::{
    BadByte, BadEntry, BadRange, TooMany, Trailing, Truncated, Unexpected, WordTooLong,
};
use text_tokens::TokenKind::{Number, Sign, Word};
use text_tokens::groups::read_input;
use text_tokens::{ReadRefusal, Refusal, RefusalKind, Tokens, number, number_up_to, this_token};

/// A text, the line, the kind and the bytes of each of its tokens,
/// and what stands behind the last of them: `Truncated` is the end.
struct Row {
    text: &'static [u8],
    tokens: &'static str,
    line: u32,
    end: RefusalKind,
}

static ROWS: [Row; 45] = [
    Row {
        text: b"",
        tokens: "",
        line: 1,
        end: Truncated,
    },
    Row {
        text: b" \t\r\n",
        tokens: "",
        line: 2,
        end: Truncated,
    },
    Row {
        text: b"# a comment to the end",
        tokens: "",
        line: 1,
        end: Truncated,
    },
    Row {
        text: b"#\n#",
        tokens: "",
        line: 2,
        end: Truncated,
    },
    Row {
        text: b"3a",
        tokens: "1 number 3, 1 word a",
        line: 1,
        end: Truncated,
    },
    Row {
        text: b"a3",
        tokens: "1 word a3",
        line: 1,
        end: Truncated,
    },
    Row {
        text: b"a_b _",
        tokens: "1 word a_b, 1 word _",
        line: 1,
        end: Truncated,
    },
    Row {
        text: b"Az zA",
        tokens: "1 word Az, 1 word zA",
        line: 1,
        end: Truncated,
    },
    Row {
        text: b"007",
        tokens: "1 number 007",
        line: 1,
        end: Truncated,
    },
    Row {
        text: b"().;",
        tokens: "1 sign (, 1 sign ), 1 sign ., 1 sign ;",
        line: 1,
        end: Truncated,
    },
    Row {
        text: b"= != < <= > >=",
        tokens: "1 sign =, 1 sign !=, 1 sign <, 1 sign <=, 1 sign >, 1 sign >=",
        line: 1,
        end: Truncated,
    },
    Row {
        text: b"+ - :=",
        tokens: "1 sign +, 1 sign -, 1 sign :=",
        line: 1,
        end: Truncated,
    },
    Row {
        text: b":=:=",
        tokens: "1 sign :=, 1 sign :=",
        line: 1,
        end: Truncated,
    },
    Row {
        text: b"<==",
        tokens: "1 sign <=, 1 sign =",
        line: 1,
        end: Truncated,
    },
    Row {
        text: b"< =",
        tokens: "1 sign <, 1 sign =",
        line: 1,
        end: Truncated,
    },
    Row {
        text: b">=>",
        tokens: "1 sign >=, 1 sign >",
        line: 1,
        end: Truncated,
    },
    Row {
        text: b"!==",
        tokens: "1 sign !=, 1 sign =",
        line: 1,
        end: Truncated,
    },
    Row {
        text: b"a:=1",
        tokens: "1 word a, 1 sign :=, 1 number 1",
        line: 1,
        end: Truncated,
    },
    Row {
        text: b"-5",
        tokens: "1 sign -, 1 number 5",
        line: 1,
        end: Truncated,
    },
    Row {
        text: b"1.5",
        tokens: "1 number 1, 1 sign ., 1 number 5",
        line: 1,
        end: Truncated,
    },
    Row {
        text: b":",
        tokens: "",
        line: 1,
        end: BadByte,
    },
    Row {
        text: b"a :b",
        tokens: "1 word a",
        line: 1,
        end: BadByte,
    },
    Row {
        text: b": =",
        tokens: "",
        line: 1,
        end: BadByte,
    },
    Row {
        text: b"x!y",
        tokens: "1 word x",
        line: 1,
        end: BadByte,
    },
    Row {
        text: b"a\r\nb",
        tokens: "1 word a, 2 word b",
        line: 2,
        end: Truncated,
    },
    Row {
        text: b"a\rb",
        tokens: "1 word a, 1 word b",
        line: 1,
        end: Truncated,
    },
    Row {
        text: b"a\n\nb\n",
        tokens: "1 word a, 3 word b",
        line: 4,
        end: Truncated,
    },
    Row {
        text: b"a#b\nc",
        tokens: "1 word a, 2 word c",
        line: 2,
        end: Truncated,
    },
    Row {
        text: b"a # \xff:!\x00\nb",
        tokens: "1 word a, 2 word b",
        line: 2,
        end: Truncated,
    },
    Row {
        text: b"#\r\na",
        tokens: "2 word a",
        line: 2,
        end: Truncated,
    },
    Row {
        text: b"a\n,b",
        tokens: "1 word a",
        line: 2,
        end: BadByte,
    },
    Row {
        text: b"\x00",
        tokens: "",
        line: 1,
        end: BadByte,
    },
    Row {
        text: b"\x80",
        tokens: "",
        line: 1,
        end: BadByte,
    },
    Row {
        text: b"a\xc3\xa9",
        tokens: "1 word a",
        line: 1,
        end: BadByte,
    },
    Row {
        text: b"a\x0bb",
        tokens: "1 word a",
        line: 1,
        end: BadByte,
    },
    Row {
        text: b"@A",
        tokens: "",
        line: 1,
        end: BadByte,
    },
    Row {
        text: b"Z[",
        tokens: "1 word Z",
        line: 1,
        end: BadByte,
    },
    Row {
        text: b"9/",
        tokens: "1 number 9",
        line: 1,
        end: BadByte,
    },
    Row {
        text: b"z{",
        tokens: "1 word z",
        line: 1,
        end: BadByte,
    },
    Row {
        text: b"abcdefghijklmnopqrstuvwx",
        tokens: "1 word abcdefghijklmnopqrstuvwx",
        line: 1,
        end: Truncated,
    },
    Row {
        text: b"x\n\nabcdefghijklmnopqrstuvwxy z",
        tokens: "1 word x",
        line: 3,
        end: WordTooLong,
    },
    Row {
        text: b"123456789a",
        tokens: "1 number 123456789, 1 word a",
        line: 1,
        end: Truncated,
    },
    Row {
        text: b"1234567890",
        tokens: "",
        line: 1,
        end: WordTooLong,
    },
    Row {
        text: b"0000000001",
        tokens: "",
        line: 1,
        end: WordTooLong,
    },
    Row {
        text: b"turns 4000\nend",
        tokens: "1 word turns, 1 number 4000, 2 word end",
        line: 2,
        end: Truncated,
    },
];

/// Whether the next token is on this line, of this kind, and these bytes.
fn is_taken(tokens: &mut Tokens<'_>, told: &str) -> bool {
    let Some((line, kind_and_text)) = told.split_once(' ') else {
        return false;
    };
    let (kind, text) = match kind_and_text.split_once(' ') {
        Some(("number", text)) => (Number, text),
        Some(("word", text)) => (Word, text),
        Some(("sign", text)) => (Sign, text),
        _ => return false,
    };
    match tokens.take_kind(kind) {
        Ok(token) => {
            line.parse::<u32>().ok() == Some(token.line) && tokens.text(&token) == text.as_bytes()
        }
        Err(_) => false,
    }
}

/// Whether these are the row's tokens, and its fault or end comes behind them, and again.
fn reads(row: &Row) -> bool {
    if row.text.len() > 100 {
        return false;
    }
    let mut tokens = Tokens::new(row.text);
    for told in row.tokens.split(", ") {
        if !told.is_empty() && !is_taken(&mut tokens, told) {
            return false;
        }
    }
    let end = match row.end {
        Truncated => Ok(None),
        kind => Err(Refusal {
            line: row.line,
            kind,
        }),
    };
    tokens.line() == row.line && tokens.next() == end && tokens.next() == end
}

#[test]
fn texts_have_these_tokens(rt: HostRuntime) {
    for (i, row) in ROWS.iter().enumerate() {
        assert!(rt; reads(row), "row {i}");
    }
}

#[test]
fn an_expected_token_is_taken(rt: HostRuntime) {
    let mut tokens = Tokens::new(b"list 12\n)");
    assert!(rt; tokens.is_next(Word, b"list"));
    assert!(rt; tokens.take_kind(Number).is_err());
    assert!(rt; tokens.take(Word, b"list").is_ok());
    assert!(rt; tokens.is_next_kind(Number));
    assert!(rt; tokens.take_any().is_ok());
    assert!(rt; tokens.take(Sign, b"(").err() == Some(tokens.refusal(RefusalKind::Unexpected)));
    assert!(rt; tokens.take(Sign, b")").is_ok());
    assert!(rt; tokens.peek() == Ok(None));
    assert!(rt;
        tokens.take(Sign, b")").err()
            == Some(Refusal {
                line: 2,
                kind: Truncated
            })
    );
}

#[test]
fn a_kind_has_a_name_and_a_number(rt: HostRuntime) {
    assert!(rt; RefusalKind::NotAdjacent.name() == "NotAdjacent");
    assert!(rt; RefusalKind::NotAdjacent.number() == 14);
}

/// Whether bytes are groups, or refused so.
fn is_input(alloc: Global, bytes: &[u8], refusal: Option<(u32, RefusalKind)>) -> bool {
    if bytes.len() > 100 {
        return false;
    }
    match read_input(alloc, bytes) {
        Ok(_) => refusal.is_none(),
        Err(ReadRefusal::Refused(found)) => refusal == Some((found.line, found.kind)),
        Err(ReadRefusal::NoMemory) => false,
    }
}

#[test]
fn groups_are_read_or_refused(rt: HostRuntime) {
    for (bytes, refusal) in [
        (b"end".as_slice(), None),
        (b"entry 0 entry 2 pair 7 pair 9 end # \xff", None),
        (b"entry 2\npair 7 end", Some((1, BadEntry))),
        (b"entry 2\npair 7 entry", Some((1, BadEntry))),
        (b"entry 2\npair 7 foo", Some((1, BadEntry))),
        (b"entry 2\npair 7 !", Some((1, BadEntry))),
        (b"entry 2\npair 7", Some((1, BadEntry))),
        (b"entry 2\npair 7 pair !", Some((2, BadByte))),
        (b"entry 3\npair 7 pair 10", Some((2, BadRange))),
        (b"entry 3 pair 7 pair 8\npair 9 end", Some((2, TooMany))),
        (b"entry 1 pair 7 foo", Some((1, Unexpected))),
        (b"entry 1 pair 7\n", Some((2, Truncated))),
        (b"entry 1 pair 7 end\nend", Some((2, Trailing))),
        (b"entry 1 pair 7 end\n!", Some((2, BadByte))),
        (b"end\n1234567890", Some((2, WordTooLong))),
    ] {
        assert!(rt; is_input(rt.alloc(), bytes, refusal));
    }
}

#[test]
fn parts_of_one_token_are_read(rt: HostRuntime) {
    let mut tokens = Tokens::new(b"( if\n7 9");
    assert!(rt; this_token(&mut tokens, Sign, b"(").is_ok());
    assert!(rt; this_token(&mut tokens, Word, b"then").is_err());
    assert!(rt; this_token(&mut tokens, Word, b"if").is_ok());
    assert!(rt; number(&mut tokens).is_ok());
    assert!(rt; number_up_to(&mut tokens, 8, BadRange).is_err());
    assert!(rt; tokens.end(Trailing).is_ok());
}
