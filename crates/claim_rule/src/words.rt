//! The word of a node: a tag, an occupant and a stamp in one number.
ghost use Rattle.std.specs.Prelude.{◌≡◌, ◌<◌, ◌^◌};
ghost use Rattle.claim_rule.specs.Words.{node_word, word_tag, word_occ, word_stamp};

const OCC: u64 = 1 << 33;

const STAMP: u64 = 1 << 46;

const OCCS: u64 = 1 << 13;

/// The word with a tag, an occupant and a stamp.
pub(crate) fn node_word(tag: u64, occ: Option<u16>, stamp: u32) -> u64
    requires tag { tag < 2 ^ 33 }
    requires stamp { stamp < 2 ^ 17 }
    ensures { result ≡ node_word tag occ stamp }
{
    let number = match occ {
        None => 0,
        Some(id) => u64::from(id) + 1,
    };
    tag + OCC * number + STAMP * u64::from(stamp)
}

/// The tag in a word.
pub(crate) fn word_tag(word: u64) -> u64
    ensures { result ≡ word_tag word }
{
    word % OCC
}

/// The occupant in a word.
pub(crate) fn word_occ(word: u64) -> Option<u16>
    ensures { result ≡ word_occ word }
{
    let number = word / OCC % OCCS;
    if number == 0 {
        None
    } else {
        Some((number - 1) as u16)
    }
}

/// The stamp in a word.
pub(crate) fn word_stamp(word: u64) -> u32
    ensures { result ≡ word_stamp word }
{
    (word / STAMP) as u32
}
