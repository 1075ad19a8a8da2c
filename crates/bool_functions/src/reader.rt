//! The tree of a list of symbols, read from left to right with a pile in place of recursion.
ghost use Rattle.std.specs.Prelude.{◌≡◌, ◌≤◌, [], ◌∷◌, Ok, None, Some, IfOk, OnOk, MatchOption, MatchBool};
ghost use Rattle.bool_functions.specs.Machine.{held, binds, binding, waiting, joined, settled, begin, closed, go_on, step};
ghost use Rattle.bool_functions.specs.Machine.{finished, run, start, Gives, Steps, Holds, IsClosed};
ghost use Rattle.bool_functions.specs.declared.tree.Pair.TheVariants as pair;

use crate::pile::Pile;
use crate::symbol::Symbol;
use crate::tree::{Node, Pair};
use sqlite_items::Boxed;
use std::alloc::{AllocError, Global};

/// How tightly an operator binds: the tighter, the greater. An open group holds all that is outside it.
const GROUP: u8 = 0;

/// How tightly `+` binds.
const OR: u8 = 1;

/// How tightly `*` binds.
const AND: u8 = 2;

/// How tightly `^` binds.
const XOR: u8 = 3;

/// How tightly inversion binds.
const INVERSION: u8 = 4;

/// What waits for its right side: an open group, an inversion, or an operator with its left side.
#[derive(Drop)]
pub(crate) enum Pending {
    Group,
    Or(Boxed<Node>),
    And(Boxed<Node>),
    Xor(Boxed<Node>),
    Not,
}

/// Takes the innermost that waits, where it binds at least so tightly.
fn pop_from(pile: &mut Pile<Pending>, least: u8) -> Option<Pending>
    ensures { MatchOption result (Holds least pile.old × (pile.new ≡ pile.old)) (λ top. (pile.old ≡ top ∷ pile.new)
        × (least ≤ binds top)) }
{
    let top = pile.top()?;
    if top.binds() < least {
        return None;
    }
    pile.pop()
}

/// Gives the operand to all that binds at least so tightly, for its right side.
fn settle(
    pile: &mut Pile<Pending>,
    alloc: Global,
    least: u8,
    operand: Boxed<Node>,
) -> Result<Boxed<Node>, AllocError>
    ensures { IfOk result (λ whole. settled least pile.old operand ≡ (pile.new, whole)) }
{
    let mut whole = operand;
    while let Some(top) = pop_from(pile, least) {
        whole = Boxed::new(alloc, top.joined(whole))?;
    }
    Ok(whole)
}

/// Closes the innermost open group, where nothing waits inside it.
fn close(pile: &mut Pile<Pending>) -> bool
    ensures { MatchBool result (IsClosed pile.old pile.new) (pile.old ≡ []) }
{
    pile.pop().is_some()
}

impl Pending {
    /// How tightly it binds.
    fn binds(&self) -> u8
        ensures { result ≡ binds self.now }
    {
        match self {
            Pending::Group => GROUP,
            Pending::Or(_) => OR,
            Pending::And(_) => AND,
            Pending::Xor(_) => XOR,
            Pending::Not => INVERSION,
        }
    }

    /// Takes its right side.
    fn joined(self, right: Boxed<Node>) -> Node
        ensures { result ≡ joined self right }
    {
        match self {
            Pending::Group => right.into_inner(),
            Pending::Or(left) => Node::Or(left, right),
            Pending::And(left) => Node::And(left, right),
            Pending::Xor(left) => Node::Xor(left, right),
            Pending::Not => Node::Not(right),
        }
    }
}

/// How tightly an operator of two parts binds.
fn binding(pair: Pair) -> u8
    ensures { result ≡ binding pair }
{
    match pair {
        Pair::Or => OR,
        Pair::And => AND,
        Pair::Xor => XOR,
    }
}

/// An operator that waits for its right side.
fn waiting(pair: Pair, left: Boxed<Node>) -> Pending
    ensures { result ≡ waiting pair left }
{
    match pair {
        Pair::Or => Pending::Or(left),
        Pair::And => Pending::And(left),
        Pair::Xor => Pending::Xor(left),
    }
}

/// What is on the pile, and the operand that stands before the next symbol.
#[derive(Drop)]
struct Reader {
    alloc: Global,
    pile: Pile<Pending>,
    operand: Option<Boxed<Node>>,
}

impl Reader {
    ghost use Rattle.bool_functions.specs.State.{state_of};

    /// Whether the symbol may stand here.
    fn step(&mut self, symbol: Symbol) -> Result<bool, AllocError>
        ensures { IfOk result (λ fits. Steps (step (state_of self.old) symbol) fits (state_of self.new)) }
    {
        match self.operand.take() {
            None => self.begin(symbol),
            Some(operand) => self.go_on(operand, symbol),
        }
    }

    /// Begins an operand, where the symbol can.
    fn begin(&mut self, symbol: Symbol) -> Result<bool, AllocError>
        requires { self.old.operand ≡ None }
        ensures { IfOk result (λ fits. Steps (begin self.old.pile symbol) fits (state_of self.new)) }
    {
        match symbol {
            Symbol::Name(i) => self.put(Node::Name(i)),
            Symbol::Zero => self.put(Node::Zero),
            Symbol::One => self.put(Node::One),
            Symbol::Bang => self.wait(Pending::Not),
            Symbol::Open => self.wait(Pending::Group),
            _ => Ok(false),
        }
    }

    /// Goes on after an operand, where the symbol can.
    fn go_on(&mut self, operand: Boxed<Node>, symbol: Symbol) -> Result<bool, AllocError>
        requires { self.old.operand ≡ None }
        ensures { IfOk result (λ fits. Steps (go_on self.old.pile operand symbol) fits (state_of self.new)) }
    {
        match symbol {
            Symbol::Quote => self.put(Node::Not(operand)),
            Symbol::Caret => self.join(Pair::Xor, operand),
            Symbol::Times => self.join(Pair::And, operand),
            Symbol::Plus => self.join(Pair::Or, operand),
            Symbol::Close => self.close(operand),
            Symbol::Stray => Ok(false),
            _ => self.multiply(operand, symbol),
        }
    }

    /// Begins the second operand of an `*` that is not written.
    fn multiply(&mut self, operand: Boxed<Node>, symbol: Symbol) -> Result<bool, AllocError>
        requires { self.old.operand ≡ None }
        ensures { IfOk result (λ fits. Steps (begin (held (waiting pair.And) (settled 2 self.old.pile operand)) symbol) fits
            (state_of self.new)) }
    {
        self.hold(Pair::And, operand)?;
        self.begin(symbol)
    }

    /// Lets a tree be the operand, which always fits.
    fn put(&mut self, tree: Node) -> Result<bool, AllocError>
        ensures { IfOk result (λ fits. Steps (Some (self.old.pile, Some tree)) fits (state_of self.new)) }
    {
        self.operand = Some(Boxed::new(self.alloc, tree)?);
        Ok(true)
    }

    /// Lets something wait for its right side, which always fits.
    fn wait(&mut self, pending: Pending) -> Result<bool, AllocError>
        requires { self.old.operand ≡ None }
        ensures { IfOk result (λ fits. Steps (Some (pending ∷ self.old.pile, None)) fits (state_of self.new)) }
    {
        self.pile.push(pending)?;
        Ok(true)
    }

    /// Lets the operand wait as the left side of an operator.
    fn hold(&mut self, pair: Pair, operand: Boxed<Node>) -> Result<(), AllocError>
        ensures held { OnOk result (self.new.pile ≡ held (waiting pair) (settled (binding pair) self.old.pile operand)) }
        ensures operand { self.new.operand ≡ self.old.operand }
    {
        let left = settle(&mut self.pile, self.alloc, binding(pair), operand)?;
        self.pile.push(waiting(pair, left))
    }

    /// The same, which always fits.
    fn join(&mut self, pair: Pair, operand: Boxed<Node>) -> Result<bool, AllocError>
        requires { self.old.operand ≡ None }
        ensures { IfOk result (λ fits. Steps (Some (held (waiting pair) (settled (binding pair) self.old.pile operand), None)) fits
            (state_of self.new)) }
    {
        self.hold(pair, operand)?;
        Ok(true)
    }

    /// Closes the innermost open group, where one is open.
    fn close(&mut self, operand: Boxed<Node>) -> Result<bool, AllocError>
        requires { self.old.operand ≡ None }
        ensures { IfOk result (λ fits. Steps (closed (settled 1 self.old.pile operand)) fits (state_of self.new)) }
    {
        let inner = settle(&mut self.pile, self.alloc, OR, operand)?;
        let is_open = close(&mut self.pile);
        if is_open {
            self.operand = Some(inner);
        }
        Ok(is_open)
    }

    /// The tree, where the symbols were a whole function text.
    fn finish(self) -> Result<Option<Boxed<Node>>, AllocError>
        ensures { IfOk result (λ tree. tree ≡ finished (state_of self)) }
    {
        let Reader {
            alloc,
            mut pile,
            operand,
        } = self;
        let Some(operand) = operand else {
            return Ok(None);
        };
        let whole = settle(&mut pile, alloc, OR, operand)?;
        if pile.is_empty() {
            Ok(Some(whole))
        } else {
            Ok(None)
        }
    }
}

/// The tree of the symbols, or the place, from 0, of the first with which no function text goes on.
pub(crate) fn run(
    alloc: Global,
    symbols: &[Symbol],
) -> Result<Result<Boxed<Node>, usize>, AllocError>
    ensures { IfOk result (λ read. Gives read symbols.now (run start symbols.now)) }
{
    let mut reader = Reader {
        alloc,
        pile: Pile::new(alloc),
        operand: None,
    };
    for (at, symbol) in symbols.iter().enumerate() {
        if !reader.step(*symbol)? {
            return Ok(Err(at));
        }
    }
    match reader.finish()? {
        Some(tree) => Ok(Ok(tree)),
        None => Ok(Err(symbols.len())),
    }
}
