//! Pieces dealt to workers, who take turns.

ghost use Rattle.std.specs.Prelude.{◌≡◌, ℕ, ◌-◌, ◌≤◌, List, [], ◌∷◌, replicate, IfOk, OnOk};
ghost use Rattle.kb_workers.specs.Turns.{strides};

use crate::NoMemory;
use crate::queue::Queue;
use std::alloc::Global;
use std::marker::Model;

/// A piece with its number. Contracts see the piece itself.
#[derive(Drop)]
pub struct Numbered<T> {
    pub number: usize,
    pub piece: T,
}

impl<T> Model for Numbered<T> {
    ghost Value = { T };

    ghost view = { λ numbered. numbered.piece };
}

impl<T> Numbered<T> {
    fn new(number: usize, piece: T) -> Numbered<T>
        ensures { result ≡ piece }
    {
        Numbered { number, piece }
    }
}

/// The pieces of each worker, in their order.
pub fn dealt<T: Drop>(
    mut pieces: Vec<T>,
    workers: usize,
) -> Result<Queue<Queue<Numbered<T>>>, NoMemory>
    requires { 1 ≤ workers }
    ensures { IfOk result (λ hands. hands ≡ strides (workers - 1) pieces.items) }
{
    let mut hands = empty_hands(*pieces.allocator(), workers)?;
    while let Some(piece) = pieces.pop() {
        let numbered = Numbered::new(pieces.len(), piece);
        deal_last(&mut hands, numbered)?;
    }
    Ok(hands)
}

// So many hands without a piece.
fn empty_hands<T: Drop>(
    alloc: Global,
    workers: usize,
) -> Result<Queue<Queue<Numbered<T>>>, NoMemory>
    ensures { IfOk result (λ hands. hands ≡ replicate workers []) }
{
    let mut hands = Queue::new(alloc);
    for _ in 0..workers {
        hands.push_back(Queue::new(alloc))?;
    }
    Ok(hands)
}

// Deals the piece that stands before those that are dealt: who would have the next piece behind them all has it in front of
// the others, and is then the first.
#[tactic(auto, using(crate::proofs::TurnLaws::dealt_before, crate::proofs::TurnLaws::some_hand))]
fn deal_last<T: Drop>(
    hands: &mut Queue<Queue<Numbered<T>>>,
    piece: Numbered<T>,
) -> Result<(), NoMemory>
    ensures { OnOk result ((others : ℕ) (rest : List T) → hands.old ≡ strides others rest → hands.new ≡ strides others (piece ∷ rest)) }
{
    let Some(mut hand) = hands.pop_back() else {
        return Ok(());
    };
    hand.push_front(piece)?;
    hands.push_front(hand)
}
