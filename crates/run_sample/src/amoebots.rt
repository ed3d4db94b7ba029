//! The amoebots of a sample.

ghost use Rattle.std.specs.Prelude.{ℕ, ◌≡◌, ◌<◌, ◌≤◌, length, IfOk, IsTrue};
ghost use Rattle.tri_lattice.specs.declared.node.Node.{Node};
ghost use Rattle.run_sample.specs.Sample.{square_bots, sample_bots, AreSample, IsNextBot, Placed};
ghost use Rattle.run_sample.specs.Sample.{IsFirstEmpty, IsInside, is_taken, node_of, bot_on, square_node};
ghost use Rattle.run_sample.specs.Sample.{seeded, draw, drawn};

use amoebot_state::{Bot, Chir, NoMemory};
use rand_core::SeedableRng;
use rand_core::utils::NextWord;
use rand_pcg::Pcg32;
use std::alloc::Global;
use tri_lattice::{Dir, Node};

/// How many amoebots fill the square, and how many there are in all.
const SQUARE: usize = 100;

const ALL: usize = 150;

/// The amoebots of a seed: 100 fill a square of 10 by 10, and 50 come beside them one by one.
pub(crate) fn amoebots(alloc: Global, seed: u32) -> Result<Vec<Bot>, NoMemory>
    ensures { IfOk result (λ bots. AreSample seed bots.items) }
{
    let mut generator = seeded(seed);
    let mut bots = Vec::new(alloc);
    for id in 0..ALL {
        let bot = next(id, bots.as_slice(), &mut generator);
        bots.push(bot)?;
    }
    Ok(bots)
}

/// The amoebot that comes next, with its id, the number of those that came.
fn next(id: usize, bots: &[Bot], generator: &mut Pcg32) -> Bot
    requires placed { (seed : ℕ) × Placed seed bots.now generator.old }
    requires behind { id ≡ length bots.now }
    requires few { id < sample_bots }
    ensures { IsNextBot bots.now generator.old result generator.new }
{
    if id < SQUARE {
        in_square(id, generator)
    } else {
        beside(id, bots, generator)
    }
}

/// The amoebot of the square with an id.
fn in_square(id: usize, generator: &mut Pcg32) -> Bot
    requires { id < square_bots }
    ensures value { result ≡ bot_on id (square_node id) (draw generator.old 6) }
    ensures left { generator.new ≡ drawn generator.old }
{
    let node = square_node(id);
    let rot = draw(generator, 6);
    bot(id, node, rot)
}

/// The next amoebot beside the earlier ones.
fn beside(id: usize, bots: &[Bot], generator: &mut Pcg32) -> Bot
    requires behind { id ≡ length bots.now }
    requires low { square_bots ≤ id }
    requires high { id < sample_bots }
    requires inside { (v : Node) → IsTrue (is_taken bots.now v) → IsInside v }
    ensures { IsNextBot bots.now generator.old result generator.new }
{
    let index = draw(generator, id as u32);
    let dir = draw_dir(generator);
    let node = first_empty(bots, index as usize, dir);
    let rot = draw(generator, 6);
    bot(id, node, rot)
}

#[tactic(auto, unfolding(crate::specs::Sample::seeded))]
fn seeded(seed: u32) -> Pcg32
    ensures { result ≡ seeded seed }
{
    Pcg32::seed_from_u64(u64::from(seed))
}

/// The generator's next word, modulo a number.
#[tactic(auto, unfolding(crate::specs::Sample::draw, crate::specs::Sample::drawn))]
fn draw(generator: &mut Pcg32, below: u32) -> u32
    requires { 1 ≤ below }
    ensures value { result ≡ draw generator.old below }
    ensures below { result < below }
    ensures left { generator.new ≡ drawn generator.old }
{
    generator.next_word() % below
}

fn draw_dir(generator: &mut Pcg32) -> Dir
    ensures value { result ≡ draw generator.old 6 }
    ensures left { generator.new ≡ drawn generator.old }
{
    let number = draw(generator, 6);
    Dir::new(number as u8).unwrap()
}

/// The contracted amoebot with an id on a node.
fn bot(id: usize, node: Node, rot: u32) -> Bot
    requires { rot < 6 }
    ensures { result ≡ bot_on id node rot }
{
    let mem = if id == 0 {
        [1, 6, 0, 0, 0, 0, 0, 0]
    } else {
        [0, 6, 6, 0, 0, 0, 0, 0]
    };
    Bot {
        head: node,
        tail: node,
        rot: rot as u8,
        chir: Chir::Plus,
        mem,
    }
}

/// The node of an amoebot in the square of 10 by 10, which is filled row by row.
fn square_node(id: usize) -> Node
    requires { id < square_bots }
    ensures { result ≡ square_node id }
{
    Node {
        x: 59 + (id % 10) as i16,
        y: 59 + (id / 10) as i16,
    }
}

/// The first node from an amoebot in a direction that no amoebot has.
fn first_empty(bots: &[Bot], index: usize, dir: Dir) -> Node
    requires there { index < length bots.now }
    requires inside { (v : Node) → IsTrue (is_taken bots.now v) → IsInside v }
    ensures { IsFirstEmpty bots.now (node_of bots.now index) dir result }
{
    let from = bots[index].head;
    let mut node = from.step(dir);
    while is_taken(bots, node) {
        node = node.step(dir);
    }
    node
}

fn is_taken(bots: &[Bot], node: Node) -> bool
    ensures { result ≡ is_taken bots.now node }
{
    bots.iter().any(|bot| bot.head == node)
}
