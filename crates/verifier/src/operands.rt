//! The kinds of the operands with which control reaches instructions, as lists that share what is below.

ghost use Rattle.verifier.specs.Flow.{Leaves, Misses, all_popped, between, popped};
ghost use Rattle.verifier.specs.Operands.{StartsWithEmpty, above_of, bit, full_blocks, list_of, noted, on_top, packed, IsLonger};
ghost use Rattle.verifier.specs.declared.operands.Node.{Node as TheNode};
ghost use Rattle.std.specs.Prelude.{◌≡◌, ◌≢◌, ◌+◌, ◌*◌, ◌<◌, ◌≤◌, ◌^◌, ℕ, List, Some, ◌∷◌, [], IfOk, IfErr, IfNone, IfSome, OnOk, drop, length, map, set, slice_index_or};
ghost use Rattle.common.specs.declared.base_type.BaseType.{BaseType};

use crate::fault::CodeRefusalKind;
use common::BaseType;
use std::alloc::{AllocError, Global};
use std::marker::Model;

// The highest one of 64 bits.
const HIGHEST: u64 = 1 << 63;

// For how many lists there is room at first: most procedures have no more.
const FEW: usize = 16;

// How many lists may be kept from one search for another.
const MANY: usize = 1 << 16;

/// What is on top of a list: an operand of a kind, or nothing.
#[derive(Clone, Copy, Debug)]
enum Top {
    Nothing,
    Int,
    Boolean,
}

// A list: what is on top of it, the number of the list below that, and how many operands there are. So that 64 operands are popped at
// once, also the number of the list below the topmost 64, and their kinds as bits, the top the lowest. And the numbers of the lists with
// an int and with a boolean on this one, or 0 for one that is not there.
#[derive(Clone, Copy, Debug)]
struct Node {
    top: Top,
    below: u32,
    depth: u32,
    skip: u32,
    bits: u64,
    int: u32,
    boolean: u32,
}

// The empty list.
const EMPTY: Node = Node {
    top: Top::Nothing,
    below: 0,
    depth: 0,
    skip: 0,
    bits: 0,
    int: 0,
    boolean: 0,
};

fn top_of(kind: BaseType) -> Top
    ensures { (kinds : List BaseType) → on_top result kinds ≡ kind ∷ kinds }
{
    match kind {
        BaseType::Int => Top::Int,
        BaseType::Boolean => Top::Boolean,
    }
}

// Whether an operand of a kind, or of any, is taken off a list with this on top, or else what is wrong.
fn take_top(wanted: Option<BaseType>, top: Top) -> Result<(), CodeRefusalKind>
    ensures accepted { OnOk result ((kinds : List BaseType) →
        popped wanted (on_top top kinds) ≡ Leaves kinds) }
    ensures rejected { IfErr result (λ wrong. (kinds : List BaseType) →
        popped wanted (on_top top kinds) ≡ Misses wrong) }
{
    match wanted {
        Some(BaseType::Int) => match top {
            Top::Int => Ok(()),
            Top::Boolean => Err(CodeRefusalKind::OperandKind),
            Top::Nothing => Err(CodeRefusalKind::OperandDepth),
        },
        Some(BaseType::Boolean) => match top {
            Top::Boolean => Ok(()),
            Top::Int => Err(CodeRefusalKind::OperandKind),
            Top::Nothing => Err(CodeRefusalKind::OperandDepth),
        },
        None => match top {
            Top::Int | Top::Boolean => Ok(()),
            Top::Nothing => Err(CodeRefusalKind::OperandDepth),
        },
    }
}

// The number of a list that is there, where 0 stands for one that is not.
fn list_or_none(number: u32) -> Option<u32>
    ensures { result ≡ above_of number }
{
    if number == 0 { None } else { Some(number) }
}

/// A kind as a bit.
pub fn bit_of(kind: BaseType) -> u64
    ensures { result ≡ bit kind }
{
    match kind {
        BaseType::Int => 0,
        BaseType::Boolean => 1,
    }
}

// The kinds as bits, where one more kind stands before them.
fn bits_with(bits: u64, kind: BaseType) -> u64
    ensures { (kinds : List BaseType) → bits ≡ packed 64 kinds → result ≡ packed 64
        (kind ∷ kinds) }
{
    bits % HIGHEST * 2 + bit_of(kind)
}

// The last one of 64 kinds.
fn last_kind(bits: u64) -> BaseType
    ensures { (kinds : List BaseType) → 64 ≤ length kinds → bits ≡ packed 64 kinds →
        drop 63 kinds ≡ result ∷ drop 64 kinds }
{
    if bits < HIGHEST {
        BaseType::Int
    } else {
        BaseType::Boolean
    }
}

// Notes the number of the list with one more operand of a kind on a list.
fn note(nodes: &mut Vec<Node>, kind: BaseType, list: u32, above: u32)
    requires { list < length nodes.old.items }
    ensures { (d : TheNode) → nodes.new.items ≡ set nodes.old.items list
        (noted kind above (slice_index_or nodes.old.items list d)) }
{
    match kind {
        BaseType::Int => nodes[list as usize].int = above,
        BaseType::Boolean => nodes[list as usize].boolean = above,
    }
}

/// Lists of kinds, each of which is kept once and goes by a number. The list 0 is empty.
#[derive(Debug, Drop)]
pub struct Operands {
    // The node of each list.
    nodes: Vec<Node>,
}

impl Model for Operands {
    ghost use Rattle.verifier.specs.Operands.{IsShared, booleans_of, ints_of, spelled};
    ghost use Rattle.common.specs.declared.base_type.BaseType.{BaseType};
    ghost use Rattle.std.specs.Prelude.{List, []};

    ghost Value = { List (List BaseType) };

    ghost view = { λ o. spelled [] o.nodes.items };

    ghost invariant = { λ o. IsShared (spelled [] o.nodes.items) o.nodes.items (ints_of o.nodes.items)
        (booleans_of o.nodes.items) };
}

impl Operands {
    /// The empty list alone.
    pub fn new(alloc: Global) -> Result<Operands, AllocError>
        ensures { IfOk result (λ o. o ≡ [] ∷ []) }
    {
        let mut nodes = Vec::with_capacity(alloc, FEW)?;
        nodes.push_reserved(EMPTY);
        Ok(Operands { nodes })
    }

    /// The lists for another search, in which there are up to so many more: those that are there, unless there would be too many; then
    /// the empty one alone.
    pub fn restart(&mut self, more: usize)
        requires { more < 2 ^ 32 }
        ensures starts { StartsWithEmpty self.new }
        ensures room { length self.new + more ≤ 2 ^ 32 }
    {
        if more > MANY || self.nodes.len() > MANY {
            self.nodes.clear();
            self.nodes.push_reserved(EMPTY);
        }
    }

    /// The list with one more operand on it.
    pub fn push(&mut self, list: u32, kind: BaseType) -> Result<u32, AllocError>
        requires there { list < length self.old }
        requires room { length self.old < 2 ^ 32 }
        ensures longer { IsLonger self.old self.new }
        ensures few { length self.new ≤ length self.old + 1 }
        ensures there { IfOk result (λ r. r < length self.new) }
        ensures made { IfOk result (λ r. list_of self.new r ≡ kind ∷ list_of self.old list) }
        ensures alone { OnOk result ((k : ℕ) → length self.old ≤ k → k < length self.new →
            list_of self.new k ≡ kind ∷ list_of self.old list) }
    {
        match self.find_longer(list, kind) {
            Some(above) => Ok(above),
            None => self.add(list, kind),
        }
    }

    // Where the list with one more operand on it is, if it is there.
    fn find_longer(&self, list: u32, kind: BaseType) -> Option<u32>
        requires { list < length self.now }
        ensures there { IfSome result (λ r. r < length self.now) }
        ensures some { IfSome result (λ r. list_of self.now r ≡ kind ∷ list_of self.now list) }
        ensures none { IfNone result ((k : ℕ) → k < length self.now → list_of self.now k
            ≢ kind ∷ list_of self.now list) }
    {
        let node = &self.nodes[list as usize];
        match kind {
            BaseType::Int => list_or_none(node.int),
            BaseType::Boolean => list_or_none(node.boolean),
        }
    }

    // Makes the list with one more operand on it, which is not there. It is not inlined: there are few lists.
    #[inline(never)]
    fn add(&mut self, list: u32, kind: BaseType) -> Result<u32, AllocError>
        requires there { list < length self.old }
        requires room { length self.old < 2 ^ 32 }
        requires fresh { (k : ℕ) → k < length self.old → list_of self.old k
            ≢ kind ∷ list_of self.old list }
        ensures longer { IsLonger self.old self.new }
        ensures few { length self.new ≤ length self.old + 1 }
        ensures there { IfOk result (λ r. r < length self.new) }
        ensures made { IfOk result (λ r. list_of self.new r ≡ kind ∷ list_of self.old list) }
        ensures alone { OnOk result ((k : ℕ) → length self.old ≤ k → k < length self.new →
            list_of self.new k ≡ kind ∷ list_of self.old list) }
    {
        let above = self.nodes.len() as u32;
        let node = self.nodes[list as usize];
        let depth = node.depth + 1;
        let bits = bits_with(node.bits, kind);
        let skip = self.skip_with(list);
        self.nodes.push(Node {
            top: top_of(kind),
            below: list,
            depth,
            skip,
            bits,
            int: 0,
            boolean: 0,
        })?;
        note(&mut self.nodes, kind, list, above);
        Ok(above)
    }

    // The list below the topmost 64 operands, where one more operand is on a list.
    fn skip_with(&self, list: u32) -> u32
        requires { list < length self.now }
        ensures there { result < length self.now }
        ensures skip { list_of self.now result ≡ drop 63 (list_of self.now list) }
    {
        let node = self.nodes[list as usize];
        if node.depth < 64 {
            return 0;
        }
        match self.find_longer(node.skip, last_kind(node.bits)) {
            Some(skip) => skip,
            None => unreachable!(),
        }
    }

    /// Takes an operand of a kind off a list, or of any kind.
    pub fn pop(&self, list: u32, wanted: Option<BaseType>) -> Result<u32, CodeRefusalKind>
        requires { list < length self.now }
        ensures there { IfOk result (λ r. r < length self.now) }
        ensures fewer { IfOk result (λ r. length (list_of self.now r)
            ≤ length (list_of self.now list)) }
        ensures accepted { IfOk result (λ r.
            popped wanted (list_of self.now list) ≡ Leaves (list_of self.now r)) }
        ensures rejected { IfErr result (λ kind.
            popped wanted (list_of self.now list) ≡ Misses kind) }
    {
        let node = &self.nodes[list as usize];
        take_top(wanted, node.top)?;
        Ok(node.below)
    }

    /// Takes operands of some kinds off a list, the first one from the top.
    pub fn pop_all(&self, list: u32, kinds: &[Option<BaseType>]) -> Result<u32, CodeRefusalKind>
        requires { list < length self.now }
        ensures there { IfOk result (λ r. r < length self.now) }
        ensures fewer { IfOk result (λ r. length (list_of self.now r)
            ≤ length (list_of self.now list)) }
        ensures accepted { IfOk result (λ r.
            all_popped kinds.now (list_of self.now list) ≡ Leaves (list_of self.now r)) }
        ensures rejected { IfErr result (λ kind.
            all_popped kinds.now (list_of self.now list) ≡ Misses kind) }
    {
        let mut rest = list;
        for kind in kinds {
            rest = self.pop(rest, *kind)?;
        }
        Ok(rest)
    }

    // The list below the topmost 64 operands, if they are of the kinds of a block.
    fn pop_block(&self, list: u32, block: u64) -> Option<u32>
        requires { list < length self.now }
        ensures there { IfSome result (λ r. r < length self.now) }
        ensures some { IfSome result (λ r. (64 ≤ length (list_of self.now list))
            × ((block ≡ packed 64 (list_of self.now list))
            × (list_of self.now r ≡ drop 64 (list_of self.now list)))) }
    {
        let node = &self.nodes[list as usize];
        if node.depth >= 64 && node.bits == block {
            Some(node.skip)
        } else {
            None
        }
    }

    /// Takes operands off a list, a block of 64 at once, while they are of the kinds of the blocks; and how many blocks.
    pub fn pop_blocks(&self, list: u32, blocks: &[u64]) -> (u32, usize)
        requires { list < length self.now }
        ensures there { result.0 < length self.now }
        ensures few { result.1 ≤ length blocks.now }
        ensures fewer { length (list_of self.now result.0) ≤ length (list_of self.now list) }
        ensures same { (kinds : List BaseType) → blocks.now ≡ full_blocks kinds →
            all_popped (map (λ kind. Some kind) kinds) (list_of self.now list)
            ≡ all_popped (map (λ kind. Some kind) (drop (result.1 * 64) kinds))
            (list_of self.now result.0) }
    {
        let mut rest = list;
        let mut count = 0;
        for block in blocks {
            match self.pop_block(rest, *block) {
                Some(below) => rest = below,
                None => return (rest, count),
            }
            count += 1;
        }
        (rest, count)
    }

    /// How many operands a list has.
    pub fn depth(&self, list: u32) -> u32
        requires { list < length self.now }
        ensures value { result ≡ length (list_of self.now list) }
        ensures few { result ≤ list }
    {
        self.nodes[list as usize].depth
    }

    /// Whether two lists are the same, or else what is wrong where they meet.
    pub fn meet(&self, list: u32, other: u32) -> Result<(), CodeRefusalKind>
        requires list { list < length self.now }
        requires other { other < length self.now }
        ensures accepted { OnOk result (list_of self.now list ≡ list_of self.now other) }
        ensures differ { IfErr result (λ kind. list_of self.now list ≢ list_of self.now other) }
        ensures rejected { IfErr result (λ kind.
            kind ≡ between (list_of self.now list) (list_of self.now other)) }
    {
        let _ = &self.nodes;
        if list == other {
            Ok(())
        } else if self.depth(list) == self.depth(other) {
            Err(CodeRefusalKind::OperandKind)
        } else {
            Err(CodeRefusalKind::OperandDepth)
        }
    }
}
