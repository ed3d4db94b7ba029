ghost use Rattle.std.specs.Prelude.{◌≡◌, ◌<◌};
ghost use Rattle.claim_core.specs.Tags.{tag, tag_caller, tag_turn, tag_bot};

/// The most amoebots of a world.
const BOTS: u64 = 4096;

/// The most turns of all callers together.
const TURNS: u64 = 65_536;

/// The tag of a caller in a turn on an amoebot. It is not 0, which is that of a free cell.
pub fn tag(caller: u8, turn: u32, bot: u16) -> u64
    ensures { result ≡ tag caller turn bot }
{
    1 + u64::from(bot) + BOTS * (u64::from(turn) + TURNS * u64::from(caller))
}

/// The caller in a tag.
pub fn tag_caller(tag: u64) -> u8
    requires some { 0 < tag }
    requires known { tag_caller tag < 256 }
    ensures { result ≡ tag_caller tag }
{
    ((tag - 1) / BOTS / TURNS) as u8
}

/// The turn in a tag.
pub fn tag_turn(tag: u64) -> u32
    requires { 0 < tag }
    ensures { result ≡ tag_turn tag }
{
    ((tag - 1) / BOTS % TURNS) as u32
}

/// The amoebot in a tag.
pub fn tag_bot(tag: u64) -> u16
    requires { 0 < tag }
    ensures { result ≡ tag_bot tag }
{
    ((tag - 1) % BOTS) as u16
}
