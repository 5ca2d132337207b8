//! The leaf of a path, by the numbers of its terms.
ghost use Rattle.std.specs.Prelude.{◌≡◌, map};
ghost use Rattle.kb_numbered.specs.Numbered.{numbered_out, numbered_outs, numbered_ending, numbered_write, numbered_made, numbered_ended, numbered_leaf};

use crate::terms::operand_of;
use kb_picture::{Ended, Leaf, Made, Out, SymEnding, Write};
use kb_rows::Row;
use kb_terms::{Node, Numbering, Operand, TermId};

/// The leaf with the numbers of the path, where its terms have their numbers in the pool. It takes no memory.
pub(crate) fn numbered_leaf(nodes: &[Node], numbering: &Numbering, leaf: Leaf) -> Leaf
    ensures { result ≡ numbered_leaf nodes.now numbering.now leaf }
{
    match leaf {
        Leaf::Ended(ended) => Leaf::Ended(numbered_ended(nodes, numbering, ended)),
        Leaf::Cut(bound, input) => Leaf::Cut(bound, input),
        Leaf::Undecided(log) => Leaf::Undecided(log),
        Leaf::Open => Leaf::Open,
    }
}

fn numbered_ended(nodes: &[Node], numbering: &Numbering, ended: Ended) -> Ended
    ensures { result ≡ numbered_ended nodes.now numbering.now ended }
{
    Ended {
        ending: numbered_ending(nodes, numbering, ended.ending),
        writes: numbered_writes(nodes, numbering, ended.writes),
        made: numbered_made(nodes, numbering, ended.made),
        input: ended.input,
    }
}

fn numbered_ending(nodes: &[Node], numbering: &Numbering, ending: SymEnding) -> SymEnding
    ensures { result ≡ numbered_ending nodes.now numbering.now ending }
{
    match ending {
        SymEnding::Returned(Some(value)) => {
            SymEnding::Returned(Some(numbered_out(nodes, numbering, value)))
        }
        SymEnding::Returned(None) => SymEnding::Returned(None),
        SymEnding::Threw(value) => SymEnding::Threw(numbered_out(nodes, numbering, value)),
        SymEnding::IllTyped(place) => SymEnding::IllTyped(place),
    }
}

#[tactic(auto, using(crate::proofs::SetLaws::set_next, crate::proofs::SetLaws::next_is, crate::proofs::SetLaws::changed_all, crate::proofs::SetLaws::changed_length))]
fn numbered_writes(nodes: &[Node], numbering: &Numbering, writes: Row<Write>) -> Row<Write>
    ensures { result ≡ map (numbered_write nodes.now numbering.now) writes }
{
    let mut writes = writes;
    let count = writes.as_slice().len();
    for i in 0..count {
        let write = numbered_write(nodes, numbering, writes.as_slice()[i]);
        writes.set(i, write);
    }
    writes
}

fn numbered_write(nodes: &[Node], numbering: &Numbering, write: Write) -> Write
    ensures { result ≡ numbered_write nodes.now numbering.now write }
{
    Write {
        slot: write.slot,
        value: numbered_out(nodes, numbering, write.value),
    }
}

#[tactic(auto, using(crate::proofs::SetLaws::set_next, crate::proofs::SetLaws::next_is, crate::proofs::SetLaws::changed_all, crate::proofs::SetLaws::changed_length))]
fn numbered_made(nodes: &[Node], numbering: &Numbering, made: Row<Made>) -> Row<Made>
    ensures { result ≡ map (numbered_made nodes.now numbering.now) made }
{
    let mut objects = made.into_vec();
    for i in 0..objects.len() {
        let object = &mut objects[i];
        number_outs(nodes, numbering, &mut object.values);
    }
    Row::from_vec(objects)
}

#[tactic(auto, using(crate::proofs::SetLaws::set_next, crate::proofs::SetLaws::next_is, crate::proofs::SetLaws::changed_all, crate::proofs::SetLaws::changed_length))]
fn number_outs(nodes: &[Node], numbering: &Numbering, values: &mut Row<Out>)
    ensures { values.new ≡ numbered_outs nodes.now numbering.now values.old }
{
    let count = values.as_slice().len();
    for i in 0..count {
        let value = numbered_out(nodes, numbering, values.as_slice()[i]);
        values.set(i, value);
    }
}

fn numbered_out(nodes: &[Node], numbering: &Numbering, value: Out) -> Out
    ensures { result ≡ numbered_out nodes.now numbering.now value }
{
    match value {
        Out::Int(Operand::Term(number)) => Out::Int(operand_of(nodes, numbering, TermId(number))),
        Out::Int(Operand::Const(_)) | Out::Int(Operand::Var(_)) => value,
        Out::Null | Out::Loc(_) | Out::Obj(_) | Out::Literal(_) | Out::New(_) => value,
    }
}
