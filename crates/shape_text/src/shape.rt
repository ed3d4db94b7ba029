//! The sections `shape` and `final` read.

ghost use Rattle.std.specs.Prelude.{◌≡◌, ◌<◌, ◌≤◌, ℕ, length, true, map, option_map, vec_len, IfOk, IfErr};
ghost use Rattle.std.specs.{Prelude.{IfSome}, List.{All}};
ghost use Rattle.text_tokens.specs.declared.refusal.ReadRefusal.TheVariants.{NoMemory};
ghost use Rattle.text_tokens.specs.Steps.{Gives, ReadsOf, TellsOf, another};
ghost use Rattle.amoebot_state.specs.{Limits.{most_bots, most_vars, most_walls}, Refusals.{IsBotInRange}};
ghost use Rattle.tri_lattice.specs.Extent.{most_side};
ghost use Rattle.shape_text.specs.Parts as part;
ghost use Rattle.shape_text.specs.Shapes as spec;
ghost use Rattle.shape_text.specs.Readers as reader;
ghost use Rattle.shape_text.specs.Views as view;

use crate::{Reading, may_have_walls, read_bot, read_int, read_node, read_word, read_word_within};
use amoebot_state::{Bot, World, WorldRefusal};
use std::alloc::Global;
use text_tokens::{ReadRefusal, RefusalKind, TokenKind, Tokens, refused};
use tri_lattice::{Area, Node};

const FARTHEST: u16 = 4096;

const LONGEST_SIDE: u32 = 128;

const MOST_WALLS: u32 = 16384;

const MOST_BOTS: u32 = 4096;

/// A wall as it is written, with the line of its word.
#[derive(Clone, Copy, Debug, Drop, PartialEq, Eq)]
pub(crate) struct WrittenWall {
    line: u32,
    node: Node,
}

/// An amoebot as it is written, with the line of its word.
#[derive(Clone, Copy, Debug, Drop, PartialEq, Eq)]
pub(crate) struct WrittenBot {
    line: u32,
    bot: Bot,
}

/// A shape as it is written. No world was made of it yet.
#[derive(Drop)]
pub(crate) struct WrittenShape {
    area: Area,
    walls: Vec<WrittenWall>,
    bots: Vec<WrittenBot>,
}

/// The list of a shape that has what a world refuses.
#[derive(Clone, Copy)]
pub(crate) enum Listed {
    Walls,
    Bots,
}

/// A side of an area, from 1 to 128.
#[tactic(auto, unfolding(crate::specs::Readers::a_side, text_tokens::specs::Reading::numeral))]
fn read_side(tokens: &mut Tokens<'_>) -> Reading<u16>
    ensures reads { Gives (λ n. n) reader.a_side tokens.old result tokens.new }
    ensures low { IfOk result (λ n. 1 ≤ n) }
    ensures high { IfOk result (λ n. n ≤ most_side) }
{
    let token = tokens.take_kind(TokenKind::Number)?;
    let side = tokens.number(&token);
    if side < 1 || side > LONGEST_SIDE {
        return Err(refused(token.line, RefusalKind::BadRange));
    }
    Ok(side as u16)
}

#[tactic(auto, unfolding(crate::specs::Readers::an_area))]
fn read_area(tokens: &mut Tokens<'_>) -> Reading<Area>
    ensures { Gives (λ a. a) reader.an_area tokens.old result tokens.new }
{
    let line = read_word(tokens, b"area")?;
    let x0 = read_int(tokens, FARTHEST)?;
    let y0 = read_int(tokens, FARTHEST)?;
    let w = read_side(tokens)?;
    let h = read_side(tokens)?;
    Area::new(x0, y0, w, h).ok_or(refused(line, RefusalKind::BadRange))
}

/// A wall behind so many.
#[tactic(auto, unfolding(crate::specs::Readers::a_wall_line, crate::specs::Readers::wall_word))]
fn read_wall_line(tokens: &mut Tokens<'_>, before: u32) -> Reading<WrittenWall>
    ensures reads { Gives view.wall_view (reader.a_wall_line before) tokens.old result tokens.new }
    ensures room { IfOk result (λ _. before < most_walls) }
{
    let line = read_word_within(tokens, b"wall", MOST_WALLS, before)?;
    let node = read_node(tokens)?;
    Ok(WrittenWall { line, node })
}

/// One more wall, if one comes.
fn more_wall(tokens: &mut Tokens<'_>, before: u32) -> Reading<Option<WrittenWall>>
    ensures reads { Gives (λ o. option_map view.wall_view o)
        (another spec.is_wall_word (reader.a_wall_line before))
        tokens.old result tokens.new }
    ensures room { IfOk result (λ o. IfSome o (λ _. before < most_walls)) }
{
    if !tokens.is_next(TokenKind::Word, b"wall") {
        return Ok(None);
    }
    Ok(Some(read_wall_line(tokens, before)?))
}

/// The walls, where the text may have some.
fn read_some_walls(alloc: Global, tokens: &mut Tokens<'_>) -> Reading<Vec<WrittenWall>>
    ensures reads { Gives (λ v. map view.wall_view v.items)
        (reader.all_walls true) tokens.old result tokens.new }
    ensures few { IfOk result (λ v. vec_len v ≤ most_walls) }
{
    let mut found = Vec::new(alloc);
    let mut before = 0;
    while let Some(wall) = more_wall(tokens, before)? {
        found.push(wall)?;
        before += 1;
    }
    Ok(found)
}

/// The walls of a text of this version.
fn read_walls(alloc: Global, tokens: &mut Tokens<'_>, version: u8) -> Reading<Vec<WrittenWall>>
    ensures reads { Gives (λ v. map view.wall_view v.items)
        (reader.all_walls (part.may_have_walls version)) tokens.old result tokens.new }
    ensures few { IfOk result (λ v. vec_len v ≤ most_walls) }
{
    if may_have_walls(version) {
        read_some_walls(alloc, tokens)
    } else {
        Ok(Vec::new(alloc))
    }
}

/// An amoebot behind so many.
#[tactic(auto, unfolding(crate::specs::Readers::a_bot_line, crate::specs::Readers::bot_word))]
fn read_bot_line(tokens: &mut Tokens<'_>, vars: u8, before: u32) -> Reading<WrittenBot>
    requires { vars ≤ most_vars }
    ensures reads { Gives view.bot_view (reader.a_bot_line vars before) tokens.old result tokens.new }
    ensures room { IfOk result (λ _. before < most_bots) }
    ensures in_range { IfOk result (λ b. IsBotInRange b.bot) }
{
    let line = read_word_within(tokens, b"bot", MOST_BOTS, before)?;
    let bot = read_bot(tokens, vars)?;
    Ok(WrittenBot { line, bot })
}

/// One more amoebot, if one comes.
fn more_bot(tokens: &mut Tokens<'_>, vars: u8, before: u32) -> Reading<Option<WrittenBot>>
    requires { vars ≤ most_vars }
    ensures reads { Gives (λ o. option_map view.bot_view o)
        (another spec.is_bot (reader.a_bot_line vars before))
        tokens.old result tokens.new }
    ensures room { IfOk result (λ o. IfSome o (λ _. before < most_bots)) }
    ensures in_range { IfOk result (λ o. IfSome o (λ b. IsBotInRange b.bot)) }
{
    if !tokens.is_next(TokenKind::Word, b"bot") {
        return Ok(None);
    }
    Ok(Some(read_bot_line(tokens, vars, before)?))
}

fn read_bots(alloc: Global, tokens: &mut Tokens<'_>, vars: u8) -> Reading<Vec<WrittenBot>>
    requires { vars ≤ most_vars }
    ensures reads { Gives (λ v. map view.bot_view v.items)
        (reader.all_bots vars) tokens.old result tokens.new }
    ensures few { IfOk result (λ v. vec_len v ≤ most_bots) }
    ensures in_range { IfOk result (λ v. All (λ b. IsBotInRange b.bot) v.items) }
{
    let mut found = Vec::new(alloc);
    let mut before = 0;
    while let Some(bot) = more_bot(tokens, vars, before)? {
        found.push(bot)?;
        before += 1;
    }
    Ok(found)
}

#[tactic(auto, unfolding(crate::specs::Readers::a_drawing))]
fn read_drawing(
    alloc: Global,
    tokens: &mut Tokens<'_>,
    version: u8,
    vars: u8,
) -> Reading<WrittenShape>
    requires { vars ≤ most_vars }
    ensures reads { Gives view.shape
        (reader.a_drawing (part.may_have_walls version) vars) tokens.old result tokens.new }
    ensures few_walls { IfOk result (λ s. vec_len s.walls ≤ most_walls) }
    ensures few { IfOk result (λ s. vec_len s.bots ≤ most_bots) }
    ensures in_range { IfOk result (λ s. All (λ b. IsBotInRange b.bot) s.bots.items) }
{
    let area = read_area(tokens)?;
    let walls = read_walls(alloc, tokens, version)?;
    let bots = read_bots(alloc, tokens, vars)?;
    Ok(WrittenShape { area, walls, bots })
}

/// A shape in a section with this word, up to its `end`.
#[tactic(auto, unfolding(crate::specs::Readers::a_written_shape))]
fn read_written(
    alloc: Global,
    tokens: &mut Tokens<'_>,
    text: &[u8],
    version: u8,
    vars: u8,
) -> Reading<WrittenShape>
    requires { vars ≤ most_vars }
    ensures reads { Gives view.shape
        (reader.a_written_shape (part.may_have_walls version) text.now vars) tokens.old result tokens.new }
    ensures few_walls { IfOk result (λ s. vec_len s.walls ≤ most_walls) }
    ensures few { IfOk result (λ s. vec_len s.bots ≤ most_bots) }
    ensures in_range { IfOk result (λ s. All (λ b. IsBotInRange b.bot) s.bots.items) }
{
    read_word(tokens, text)?;
    let shape = read_drawing(alloc, tokens, version, vars)?;
    read_word(tokens, b"end")?;
    Ok(shape)
}

/// The walls, without their lines.
fn walls_of(alloc: Global, written: &[WrittenWall]) -> Reading<Vec<Node>>
    ensures value { IfOk result (λ walls. walls.items ≡ map (λ w. w.node) written.now) }
    ensures err { IfErr result (λ e. e ≡ NoMemory) }
{
    let mut walls = Vec::new(alloc);
    for one in written {
        walls.push(one.node)?;
    }
    Ok(walls)
}

/// The amoebots, without their lines.
fn bots_of(alloc: Global, written: &[WrittenBot]) -> Reading<Vec<Bot>>
    ensures value { IfOk result (λ bots. bots.items ≡ map (λ b. b.bot) written.now) }
    ensures err { IfErr result (λ e. e ≡ NoMemory) }
{
    let mut bots = Vec::new(alloc);
    for one in written {
        bots.push(one.bot)?;
    }
    Ok(bots)
}

/// What is refused, by its list and its place there, and for what;
/// `None` where it was out of memory.
fn blamed(refusal: WorldRefusal) -> Option<(Listed, u32, RefusalKind)>
    ensures { result ≡ view.blamed_at refusal }
{
    match refusal {
        WorldRefusal::OutOfBox(id) => Some((Listed::Bots, u32::from(id), RefusalKind::OutOfBox)),
        WorldRefusal::NotAdjacent(id) => Some((
            Listed::Bots,
            u32::from(id),
            RefusalKind::NotAdjacent,
        )),
        WorldRefusal::Overlap(id) => Some((Listed::Bots, u32::from(id), RefusalKind::Overlap)),
        WorldRefusal::BadValue(id) => Some((Listed::Bots, u32::from(id), RefusalKind::BadValue)),
        WorldRefusal::BadWall(place) => Some((Listed::Walls, place, RefusalKind::BadWall)),
        WorldRefusal::OnWall(id) => Some((Listed::Bots, u32::from(id), RefusalKind::OnWall)),
        WorldRefusal::NoMemory => None,
    }
}

/// The refusal of what stands at a place of these lists, at its word.
fn refusal_of(refusal: WorldRefusal, walls: &[WrittenWall], bots: &[WrittenBot]) -> ReadRefusal
    requires { view.HasPlace walls.now bots.now (view.blamed_at refusal) }
    ensures { view.BlamedAs walls.now bots.now (view.blamed_at refusal) result }
{
    match blamed(refusal) {
        Some((Listed::Walls, place, kind)) => refused(walls[place as usize].line, kind),
        Some((Listed::Bots, place, kind)) => refused(bots[place as usize].line, kind),
        None => ReadRefusal::NoMemory,
    }
}

/// The world that a shape stands for, or the first rule that it breaks: first of the walls,
/// then by rising id.
fn world_of(alloc: Global, written: &WrittenShape, maxes: [u8; 8]) -> Reading<World>
    requires few_walls { vec_len written.now.walls ≤ most_walls }
    requires few { vec_len written.now.bots ≤ most_bots }
    requires in_range { All (λ b. IsBotInRange b.bot) written.now.bots.items }
    ensures judged { view.IsJudged maxes (view.shape written.now) result }
    ensures few { IfOk result (λ w. length w.bots ≤ most_bots) }
{
    let walls = walls_of(alloc, written.walls.as_slice())?;
    let bots = bots_of(alloc, written.bots.as_slice())?;
    match World::walled(
        alloc,
        written.area,
        walls.as_slice(),
        maxes,
        bots.as_slice(),
    ) {
        Ok(world) => Ok(world),
        Err(refusal) => Err(refusal_of(refusal, written.walls.as_slice(), written.bots.as_slice())),
    }
}

/// A shape in a section with this word, up to its `end`, with values for so many variables,
/// and these maxima of all eight.
fn read_under(
    alloc: Global,
    tokens: &mut Tokens<'_>,
    text: &[u8],
    version: u8,
    vars: u8,
    maxes: [u8; 8],
) -> Reading<World>
    requires { vars ≤ most_vars }
    ensures reads { Gives (λ c. c)
        (reader.shape_under (part.may_have_walls version) text.now vars maxes) tokens.old result tokens.new }
    ensures few { IfOk result (λ w. length w.bots ≤ most_bots) }
{
    let written = read_written(alloc, tokens, text, version, vars)?;
    world_of(alloc, &written, maxes)
}

/// Reads the section `shape` up to its `end`: the world that it stands for,
/// with values for so many variables, at most 8, and these maxima of all eight.
/// A document of version 1 has no walls; from version 2 on it may have some.
pub fn read_shape(
    alloc: Global,
    tokens: &mut Tokens<'_>,
    version: u8,
    vars: u8,
    maxes: [u8; 8],
) -> Reading<World>
    requires { vars ≤ most_vars }
    ensures tells { TellsOf (spec.IsShape version vars maxes) (λ c. c) tokens.old result tokens.new }
    ensures reads { ReadsOf (spec.IsShape version vars maxes) (λ c. c) tokens.old result tokens.new }
    ensures few { IfOk result (λ w. length w.bots ≤ most_bots) }
{
    read_under(alloc, tokens, b"shape", version, vars, maxes)
}

/// Reads the section `final`, as `read_shape` reads a shape.
pub fn read_final(
    alloc: Global,
    tokens: &mut Tokens<'_>,
    version: u8,
    vars: u8,
    maxes: [u8; 8],
) -> Reading<World>
    requires { vars ≤ most_vars }
    ensures tells { TellsOf (spec.IsFinal version vars maxes) (λ c. c) tokens.old result tokens.new }
    ensures reads { ReadsOf (spec.IsFinal version vars maxes) (λ c. c) tokens.old result tokens.new }
    ensures few { IfOk result (λ w. length w.bots ≤ most_bots) }
{
    read_under(alloc, tokens, b"final", version, vars, maxes)
}
