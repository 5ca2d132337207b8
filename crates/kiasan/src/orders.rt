//! The orders that are built, and the files that an order reads.
ghost use Rattle.std.specs.Prelude.{◌≡◌, IfOk, map, string_bytes};
ghost use Rattle.kb_words.specs.Orders.{AreOrdered, IsOrder};
ghost use Rattle.kiasan.specs.Answers.{WordsRefuse};
ghost use Rattle.kiasan.specs.Orders.{IsBuiltOrder, OrdersBuilt, blocks_of, classes_of, is_built, is_lazy, texts_of};
ghost use Rattle.kiasan.specs.Refusals.{Gives};

use crate::refusals::Stop;
use kb_picture::Init;
use kb_refusals::Refusal;
use kb_rows::Held;
use kb_words::{Order, Word, WordFault, read_words};
use std::alloc::Global;
use std::slice;

/// What the words order, where it is built.
#[tactic(auto, using(crate::proofs::WordsLaws::words_stop, crate::proofs::WordsLaws::not_built, crate::proofs::WordsLaws::built_order))]
pub fn read_built_order(alloc: Global, words: &[String]) -> Result<Held<Order>, Stop>
    ensures order { Gives ⊥ (WordsRefuse (map string_bytes words.now)) (OrdersBuilt (map string_bytes words.now)) result }
    ensures built { IfOk result IsBuiltOrder }
{
    let order = held_order(alloc, words)?;
    if !is_built(order.get()) {
        return Err(Stop::Refused(Refusal::Unbuilt));
    }
    Ok(order)
}

/// What the words order, in a box of its own.
fn held_order(alloc: Global, words: &[String]) -> Result<Held<Order>, WordFault>
    ensures order { AreOrdered (map string_bytes words.now) result }
    ensures ranges { IfOk result IsOrder }
{
    match read_words(alloc, words) {
        Ok(order) => Ok(Held::new(alloc, order)?),
        Err(fault) => Err(fault),
    }
}

fn is_built(order: &Order) -> bool
    ensures { result ≡ is_built order.now }
{
    match order {
        Order::Explore(job) | Order::Tests(job) | Order::Diagrams(job) => is_lazy(job.init),
        Order::Replay(..) | Order::Assemble(_) | Order::Sample(_) => true,
    }
}

fn is_lazy(init: Init) -> bool
    ensures { result ≡ is_lazy init }
{
    matches!(init, Init::Lazy)
}

/// How many blocks the sample has that is ordered, if one is.
pub fn blocks_of(order: &Order) -> Option<u32>
    ensures { result ≡ blocks_of order.now }
{
    match order {
        Order::Sample(blocks) => Some(*blocks),
        Order::Explore(_) | Order::Tests(_) | Order::Diagrams(_) => None,
        Order::Replay(..) | Order::Assemble(_) => None,
    }
}

/// The text files that are read for an order.
pub fn texts_of(order: &Order) -> &[Word]
    ensures { result.now ≡ texts_of order.now }
{
    match order {
        Order::Replay(tests, ..) => slice::from_ref(tests),
        Order::Assemble(text) => slice::from_ref(text),
        Order::Explore(_) | Order::Tests(_) | Order::Diagrams(_) | Order::Sample(_) => &[],
    }
}

/// The class files that are read for an order.
pub fn classes_of(order: &Order) -> &[Word]
    ensures { result.now ≡ classes_of order.now }
{
    match order {
        Order::Explore(job) | Order::Tests(job) | Order::Diagrams(job) => job.files.as_slice(),
        Order::Replay(_, files, _) => files.as_slice(),
        Order::Assemble(_) | Order::Sample(_) => &[],
    }
}
