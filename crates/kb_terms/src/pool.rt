//! The pool of terms.
ghost use Rattle.std.specs.Prelude.{◌≡◌, ◌+◌, ◌<◌, ◌≤◌, ◌^◌, ◌++◌, ◌∷◌, [], ℤ, List, length, false, Some, IfOk, OnOk, OnErr};
ghost use Rattle.std.specs.Option.{ForSome};
ghost use Rattle.kb_terms.specs.declared.node.Node.TheVariants.{Const, Var};
ghost use Rattle.kb_terms.specs.Op.{op_value};
ghost use Rattle.kb_terms.specs.Terms.{IsTerm, node_at, is_variable, variables_of, AreOperands, constant_at, second_constant, int_at, made_node, NodeFits, IsPool, Extends, HasNode, term_with, value_of, operand_value, values, node_value, AreFirstValues, CanCompute, cut_pool};

use crate::NoMemory;
use crate::node::{Node, TermId, VarKind};
use crate::op::Op;
use indexmap::IndexSet;
use std::alloc::Global;
use std::marker::Model;

/// A list of terms, each numbered by its place. Contracts see the list of their nodes.
///
/// Equal terms are one term (hash-consing, Ershov 1958), an operation whose operands are all constants is a constant,
/// and each operation's operands stand before it.
#[derive(Drop)]
pub struct Pool {
    nodes: IndexSet<Node>,
    variables: u32,
}

impl Model for Pool {
    ghost use Rattle.std.specs.Prelude.{List, ◌≡◌};
    ghost use Rattle.kb_terms.specs.declared.node.Node.{Node};
    ghost use Rattle.kb_terms.specs.Terms.{IsPool, variables_of};

    ghost Value = { List Node };

    ghost view = { λ p. p.nodes.keys };

    ghost invariant = { λ p. IsPool p.nodes.keys × (p.variables ≡ variables_of p.nodes.keys) };
}

impl Pool {
    /// A pool with no terms.
    pub fn new(alloc: Global) -> Pool
        ensures empty { result ≡ [] }
        ensures formed { IsPool result }
    {
        Pool {
            nodes: IndexSet::new(alloc),
            variables: 0,
        }
    }

    /// A pool with the same terms. Refused only where memory runs out.
    pub fn copy(&self) -> Result<Pool, NoMemory>
        ensures { IfOk result (λ p. p ≡ self.now) }
    {
        let nodes = self.nodes.clone()?;
        Ok(Pool {
            nodes,
            variables: self.variables,
        })
    }

    /// How many terms there are; they are numbered from 0.
    pub fn terms(&self) -> u32
        ensures count { result ≡ length self.now }
        ensures formed { IsPool self.now }
    {
        self.nodes.len() as u32
    }

    /// How many variables there are; they are numbered from 0.
    pub fn variables(&self) -> u32
        ensures count { result ≡ variables_of self.now }
        ensures formed { IsPool self.now }
    {
        self.variables
    }

    /// What the terms are, in the order of their numbers.
    pub fn nodes(&self) -> &[Node]
        ensures nodes { result.now ≡ self.now }
        ensures formed { IsPool result.now }
    {
        self.nodes.as_slice()
    }

    /// What a term is.
    pub fn node(&self, term: TermId) -> Node
        requires { IsTerm self.now term }
        ensures node { node_at self.now term ≡ Some result }
        ensures formed { IsPool self.now }
    {
        node_of(self.nodes(), term)
    }

    /// The int of a term that is a constant; `None` for any other term.
    pub fn is_const(&self, term: TermId) -> Option<i32>
        requires { IsTerm self.now term }
        ensures { result ≡ constant_at self.now term }
    {
        match self.node(term) {
            Node::Const(value) => Some(value),
            Node::Var(..) | Node::Op(..) => None,
        }
    }

    /// The term that is this constant. Refused only where memory runs out.
    pub fn constant(&mut self, value: i32) -> Result<TermId, NoMemory>
        ensures term { IfOk result (IsTerm self.new) }
        ensures node { IfOk result (λ t. HasNode self.old self.new t (Const value)) }
        ensures value { IfOk result (λ t. (inputs : List ℤ) → value_of self.new t inputs ≡ value) }
        ensures extends { Extends self.old self.new }
        ensures grows { length self.old ≤ length self.new }
        ensures variables { variables_of self.new ≡ variables_of self.old }
        ensures formed { IsPool self.new }
        ensures err { OnErr result (self.new ≡ self.old) }
    {
        self.intern(Node::Const(value))
    }

    /// A new variable, which has the next number. Refused only where memory runs out.
    pub fn variable(&mut self, kind: VarKind) -> Result<TermId, NoMemory>
        ensures term { IfOk result (IsTerm self.new) }
        ensures number { IfOk result (λ t. t.0 ≡ length self.old) }
        ensures node { OnOk result (self.new ≡ self.old ++ Var (variables_of self.old) kind ∷ []) }
        ensures value { IfOk result (λ t. (inputs : List ℤ) → value_of self.new t inputs ≡ int_at inputs (variables_of self.old)) }
        ensures extends { Extends self.old self.new }
        ensures grows { length self.old ≤ length self.new }
        ensures variables { OnOk result (variables_of self.new ≡ variables_of self.old + 1) }
        ensures formed { IsPool self.new }
        ensures err { OnErr result (self.new ≡ self.old) }
    {
        let next = self.variables.checked_add(1).ok_or(NoMemory)?;
        let term = term_of(&mut self.nodes, Node::Var(self.variables, kind))?;
        self.variables = next;
        Ok(term)
    }

    /// The term of an operation on terms: the constant where its operands are constants, the equal term where there is
    /// one, and else a new term. Refused only where memory runs out.
    pub fn make(&mut self, op: Op, left: TermId, right: Option<TermId>) -> Result<TermId, NoMemory>
        requires { AreOperands self.old op left right }
        ensures term { IfOk result (IsTerm self.new) }
        ensures node { IfOk result (λ t. HasNode self.old self.new t (made_node self.old op left right)) }
        ensures value { IfOk result (λ t. (inputs : List ℤ) → value_of self.new t inputs ≡ op_value op (value_of self.old left inputs) (operand_value self.old right inputs)) }
        ensures extends { Extends self.old self.new }
        ensures grows { length self.old ≤ length self.new }
        ensures variables { variables_of self.new ≡ variables_of self.old }
        ensures formed { IsPool self.new }
        ensures err { OnErr result (self.new ≡ self.old) }
    {
        let node = self.made_node(op, left, right);
        self.intern(node)
    }

    /// The term with a node, if there is one. It takes constant time.
    #[tactic(auto, unfolding(crate::specs::Terms::term_with))]
    pub fn find(&self, node: Node) -> Option<TermId>
        ensures { result ≡ term_with self.now node }
    {
        let place = self.nodes.get_index_of(&node)?;
        Some(TermId(place as u32))
    }

    /// Takes all terms away but the first so many, with the variables among those that go. It takes no memory, and time in
    /// proportion to what goes.
    pub fn cut_to(&mut self, terms: u32)
        requires { terms ≤ length self.old }
        ensures front { self.new ≡ cut_pool self.old terms }
        ensures terms { length self.new ≡ terms }
        ensures extends { Extends self.new self.old }
        ensures formed { IsPool self.new }
    {
        let left = terms as usize;
        self.variables -= variables_among(&self.nodes.as_slice()[left..]);
        self.nodes.truncate(left);
    }

    // The term of a node that is no variable, which is added unless it is there.
    fn intern(&mut self, node: Node) -> Result<TermId, NoMemory>
        requires fits { NodeFits self.old node }
        requires fixed { is_variable node ≡ false }
        ensures node { IfOk result (λ t. HasNode self.old self.new t node) }
        ensures extends { Extends self.old self.new }
        ensures grows { length self.old ≤ length self.new }
        ensures variables { variables_of self.new ≡ variables_of self.old }
        ensures formed { IsPool self.new }
        ensures err { OnErr result (self.new ≡ self.old) }
    {
        term_of(&mut self.nodes, node)
    }

    /// The value of a term, where each variable has the entry of `values` at its number. Each term up to this one is
    /// computed once, in order. Refused only where memory runs out.
    pub fn eval(&self, alloc: Global, term: TermId, values: &[i32]) -> Result<i32, NoMemory>
        requires term { IsTerm self.now term }
        requires inputs { length values.now ≡ variables_of self.now }
        ensures { IfOk result (λ v. v ≡ value_of self.now term values.now) }
    {
        let nodes = &self.nodes()[..term.0 as usize + 1];
        let computed = compute(alloc, nodes, values)?;
        Ok(computed[term.0 as usize])
    }

    /// Adds the values of the terms behind those that `computed` has, which are those of the first terms, where each variable has
    /// the entry of `inputs` at its number, and 0 past its end. It takes time in proportion to what it adds. Refused only
    /// where memory runs out: then some values may have been added.
    pub fn extend_values(&self, inputs: &[i32], computed: &mut Vec<i32>) -> Result<(), NoMemory>
        requires { AreFirstValues inputs.now self.now computed.old.items }
        ensures all { OnOk result (computed.new.items ≡ values inputs.now self.now) }
        ensures front { AreFirstValues inputs.now self.now computed.new.items }
    {
        extend(self.nodes(), inputs, computed)
    }

    // The node of an operation, folded where its operands are constants.
    #[tactic(auto, unfolding(crate::specs::Terms::made_node))]
    fn made_node(&self, op: Op, left: TermId, right: Option<TermId>) -> Node
        requires { AreOperands self.now op left right }
        ensures node { result ≡ made_node self.now op left right }
        ensures fits { NodeFits self.now result }
        ensures fixed { is_variable result ≡ false }
    {
        match (self.is_const(left), self.second_constant(right)) {
            (Some(first), Some(second)) => Node::Const(op.apply(first, second)),
            (Some(_), None) | (None, _) => Node::Op(op, left, right),
        }
    }

    // The int of a second operand that is a constant; 0 where there is no second operand.
    fn second_constant(&self, right: Option<TermId>) -> Option<i32>
        requires { ForSome right (IsTerm self.now) }
        ensures { result ≡ second_constant self.now right }
    {
        match right {
            Some(term) => self.is_const(term),
            None => Some(0),
        }
    }
}

/// The node of a term among the nodes of its pool.
pub(crate) fn node_of(nodes: &[Node], term: TermId) -> Node
    requires { IsTerm nodes.now term }
    ensures { node_at nodes.now term ≡ Some result }
{
    nodes[term.0 as usize]
}

// How many of these nodes are variables.
fn variables_among(nodes: &[Node]) -> u32
    requires { length nodes.now < 2 ^ 32 }
    ensures { result ≡ variables_of nodes.now }
{
    nodes.iter().filter(|node| node.is_variable()).count() as u32
}

// The values of the terms with these nodes, in order.
fn compute(alloc: Global, nodes: &[Node], inputs: &[i32]) -> Result<Vec<i32>, NoMemory>
    requires { IsPool nodes.now }
    ensures { IfOk result (λ computed. computed.items ≡ values inputs.now nodes.now) }
{
    let mut computed = Vec::with_capacity(alloc, nodes.len())?;
    extend(nodes, inputs, &mut computed)?;
    Ok(computed)
}

// Adds the values of the terms behind those that have one.
fn extend(nodes: &[Node], inputs: &[i32], computed: &mut Vec<i32>) -> Result<(), NoMemory>
    requires formed { IsPool nodes.now }
    requires front { AreFirstValues inputs.now nodes.now computed.old.items }
    ensures all { OnOk result (computed.new.items ≡ values inputs.now nodes.now) }
    ensures front { AreFirstValues inputs.now nodes.now computed.new.items }
{
    while let Some(node) = nodes.get(computed.len()) {
        let value = node_value(*node, inputs, computed);
        computed.push(value)?;
    }
    Ok(())
}

// The int at the number; 0 past the end.
fn int_at(ints: &[i32], number: u32) -> i32
    ensures { result ≡ int_at ints.now number }
{
    match ints.get(number as usize) {
        Some(int) => *int,
        None => 0,
    }
}

// The value of a node, from those of the terms before it.
fn node_value(node: Node, inputs: &[i32], computed: &[i32]) -> i32
    requires { CanCompute computed.now node }
    ensures { result ≡ node_value inputs.now computed.now node }
{
    match node {
        Node::Const(value) => value,
        Node::Var(number, _) => int_at(inputs, number),
        Node::Op(op, left, None) => op.apply(computed[left.0 as usize], 0),
        Node::Op(op, left, Some(right)) => {
            op.apply(computed[left.0 as usize], computed[right.0 as usize])
        }
    }
}

// The term of a node, which goes to the end of the nodes unless it is there.
fn term_of(nodes: &mut IndexSet<Node>, node: Node) -> Result<TermId, NoMemory>
    requires formed { IsPool nodes.old.keys }
    requires fits { NodeFits nodes.old.keys node }
    ensures node { IfOk result (λ t. HasNode nodes.old.keys nodes.new.keys t node) }
    ensures extends { Extends nodes.old.keys nodes.new.keys }
    ensures formed { IsPool nodes.new.keys }
    ensures err { OnErr result (nodes.new.keys ≡ nodes.old.keys) }
{
    if let Some(index) = nodes.get_index_of(&node) {
        return Ok(TermId(index as u32));
    }
    let number = nodes.len();
    if number >= u32::MAX as usize {
        return Err(NoMemory);
    }
    match nodes.insert(node) {
        Ok(_) => Ok(TermId(number as u32)),
        Err(_) => Err(NoMemory),
    }
}
