//! Free numbers as words of flags, with words above them that say in which words flags are set.
ghost use Rattle.std.specs.Prelude.{◌≡◌, ◌<◌, ◌≤◌, ◌+◌, ◌-◌, ◌*◌, ◌^◌, ◌%◌, ℕ, [], count_ones, length, remove, replicate, slice_index, slice_index_or, slice_set, IfOk, OnOk, OnErr};
ghost use Rattle.std.specs.Int.{bit_at};
ghost use Rattle.seize_words.specs.OneMemory.FreeNumbers.{AreFlags, IsBehind, IsTree, IsTurned, numbers_in, places, set_among, with_number};

use std::alloc::{AllocError, Global};
use std::marker::Model;

/// How many flags a word has.
const FLAGS: usize = 64;

/// Turns the flag of a node over where its word was empty and is not any more, or the other way round, and so on up.
fn mend(nodes: &mut [u64], first: usize, node: usize, was: u64)
    requires within { node < length nodes.old }
    requires high { length nodes.old ≤ 64 * first + 1 }
    requires flags { AreFlags first nodes.old (slice_set nodes.old node was) }
    ensures flags { AreFlags first nodes.new nodes.new }
    ensures length { length nodes.new ≡ length nodes.old }
    ensures lowest { (k : ℕ) → first ≤ k → slice_index nodes.new k ≡ slice_index nodes.old k }
{
    let mut node = node;
    let mut was = was;
    while node > 0 {
        if (was == 0) == (nodes[node] == 0) {
            return;
        }
        let flag = (node - 1) % FLAGS;
        node = (node - 1) / FLAGS;
        was = nodes[node];
        nodes[node] = was ^ (1 << flag);
    }
}

/// Turns a flag of the lowest row over.
fn turn(nodes: &mut [u64], first: usize, node: usize, bit: usize)
    requires tree { IsTree first nodes.old }
    requires low { first ≤ node }
    requires within { node < length nodes.old }
    requires small { bit < 64 }
    ensures tree { IsTree first nodes.new }
    ensures length { length nodes.new ≡ length nodes.old }
    ensures turned { IsTurned first (64 * node + bit) nodes.old nodes.new }
{
    let was = nodes[node];
    nodes[node] = was ^ (1 << bit);
    mend(nodes, first, node, was);
}

/// The first node of the lowest row that has a flag set.
fn lowest(nodes: &[u64], first: usize) -> usize
    requires tree { IsTree first nodes.now }
    requires some { 0 < set_among nodes.now (64 * first) (places first nodes.now) }
    ensures low { first ≤ result }
    ensures within { result < length nodes.now }
    ensures some { 0 < slice_index nodes.now result }
    ensures none { (k : ℕ) → first ≤ k → k < result → slice_index nodes.now k ≡ 0 }
{
    let mut node = 0;
    while node < first {
        node = FLAGS * node + nodes[node].trailing_zeros() as usize + 1;
    }
    node
}

/// The node of the lowest row with the flag that is set behind as many others, and how many of these are in its word.
fn node_behind(nodes: &[u64], first: usize, before: u64) -> (usize, u64)
    requires tree { IsTree first nodes.now }
    requires few { before < set_among nodes.now (64 * first) (places first nodes.now) }
    ensures low { first ≤ result.0 }
    ensures within { result.0 < length nodes.now }
    ensures few { result.1 < count_ones (slice_index nodes.now result.0) }
    ensures rank { set_among nodes.now (64 * first) (64 * (result.0 - first)) + result.1 ≡ before }
{
    let mut node = first;
    let mut left = before;
    while left >= u64::from(nodes[node].count_ones()) {
        left -= u64::from(nodes[node].count_ones());
        node += 1;
    }
    (node, left)
}

/// The place of the bit of a word that is set behind as many others.
fn bit_behind(word: u64, before: u64) -> usize
    requires { before < count_ones word }
    ensures small { result < 64 }
    ensures set { bit_at word result ≡ 1 }
    ensures rank { count_ones (word % 2 ^ result) ≡ before }
{
    let mut bit = 0;
    let mut left = before;
    while left >= (word >> bit) & 1 {
        left -= (word >> bit) & 1;
        bit += 1;
    }
    bit
}

/// The flag that is set behind as many others: its node, and its place in the word there.
fn flag_behind(nodes: &[u64], first: usize, before: u64) -> (usize, usize)
    requires tree { IsTree first nodes.now }
    requires few { before < set_among nodes.now (64 * first) (places first nodes.now) }
    ensures { IsBehind first nodes.now before result.0 result.1 }
{
    if before == 0 {
        let node = lowest(nodes, first);
        return (node, nodes[node].trailing_zeros() as usize);
    }
    let (node, left) = node_behind(nodes, first, before);
    (node, bit_behind(nodes[node], left))
}

/// Copies the words of the lowest row into the lowest row of a tree with a row more, and sets the flags above.
fn copy(nodes: &[u64], first: usize, more: &mut [u64])
    requires tree { IsTree first nodes.now }
    requires full { length nodes.now ≡ 64 * first + 1 }
    requires empty { more.old ≡ replicate (length nodes.now + (length nodes.now - first) + 1) 0 }
    ensures tree { IsTree (length nodes.now) more.new }
    ensures length { length more.new ≡ length nodes.now + (length nodes.now - first) + 1 }
    ensures same { numbers_in (length nodes.now) more.new ≡ numbers_in first nodes.now }
{
    let top = nodes.len();
    for place in first..top {
        let node = top + (place - first);
        more[node] = nodes[place];
        mend(more, top, node, 0);
    }
}

/// A tree with a row more, of the same flags and those of one word more.
fn raised(alloc: Global, nodes: &[u64], first: usize) -> Result<Vec<u64>, AllocError>
    requires tree { IsTree first nodes.now }
    requires full { length nodes.now ≡ 64 * first + 1 }
    requires fits { length nodes.now < 2 ^ 63 }
    ensures tree { IfOk result (λ more. IsTree (length nodes.now) more.items) }
    ensures length { IfOk result (λ more. length more.items ≡ length nodes.now + (length nodes.now - first) + 1) }
    ensures same { IfOk result (λ more. numbers_in (length nodes.now) more.items ≡ numbers_in first nodes.now) }
{
    let top = nodes.len();
    let mut more = Vec::from_elem(alloc, 0, top + (top - first) + 1)?;
    copy(nodes, first, &mut more);
    Ok(more)
}

/// Adds a word to the lowest row, which comes to lie a row further down where it is full. On an error nothing has changed.
fn add_word(alloc: Global, nodes: &mut Vec<u64>, first: &mut usize) -> Result<(), AllocError>
    requires tree { IsTree first.old nodes.old.items }
    ensures tree { IsTree first.new nodes.new.items }
    ensures same { numbers_in first.new nodes.new.items ≡ numbers_in first.old nodes.old.items }
    ensures ok { OnOk result (places first.new nodes.new.items ≡ places first.old nodes.old.items + 64) }
    ensures err { OnErr result (places first.new nodes.new.items ≡ places first.old nodes.old.items) }
{
    let len = nodes.len();
    if (len + FLAGS - 1) / FLAGS > *first {
        let more = raised(alloc, nodes.as_slice(), *first)?;
        *nodes = more;
        *first = len;
        return Ok(());
    }
    nodes.push(0)?;
    Ok(())
}

/// The free ones among the numbers from 1 on. Clauses see them in ascending order, and up to which number there is room.
#[derive(Drop)]
pub(crate) struct FreeNumbers {
    alloc: Global,
    /// Where the lowest row of words begins.
    first: usize,
    nodes: Vec<u64>,
    /// How many flags the lowest row has.
    room: u64,
    /// How many of them are set.
    count: u64,
}

impl Model for FreeNumbers {
    ghost use Rattle.std.specs.Prelude.{◌≡◌, length};
    ghost use Rattle.seize_words.specs.OneMemory.FreeNumbers.{FreeNumbers, IsTree, numbers_in, places};

    ghost Value = { FreeNumbers };

    ghost view = { λ f. record { numbers = numbers_in f.first f.nodes.items; room = f.room } };

    ghost invariant = { λ f. IsTree f.first f.nodes.items × (f.room ≡ places f.first f.nodes.items) × (f.count ≡ length (numbers_in f.first f.nodes.items)) };
}

impl FreeNumbers {
    /// None, and no room.
    pub(crate) fn none(alloc: Global) -> Self
        ensures { result ≡ record { numbers = []; room = 0 } }
    {
        FreeNumbers {
            alloc,
            first: 0,
            nodes: Vec::new(alloc),
            room: 0,
            count: 0,
        }
    }

    /// How many there are.
    pub(crate) fn len(&self) -> u64
        ensures { result ≡ length self.now.numbers }
    {
        self.count
    }

    /// Takes the one behind as many others away, and answers it.
    pub(crate) fn take(&mut self, before: u64) -> u64
        requires { before < length self.old.numbers }
        ensures number { result ≡ slice_index_or self.old.numbers before result }
        ensures after { self.new ≡ record self.old { numbers = remove self.old.numbers before } }
    {
        let (node, bit) = flag_behind(&self.nodes, self.first, before);
        turn(&mut self.nodes, self.first, node, bit);
        self.count -= 1;
        ((node - self.first) * FLAGS + bit) as u64 + 1
    }

    /// Puts a number among them. It takes no memory.
    pub(crate) fn give(&mut self, number: u64)
        requires some { 0 < number }
        requires room { number ≤ self.old.room }
        ensures { self.new ≡ record self.old { numbers = with_number number self.old.numbers } }
    {
        let place = number as usize - 1;
        let node = self.first + place / FLAGS;
        let bit = place % FLAGS;
        if (self.nodes[node] >> bit) & 1 == 0 {
            turn(&mut self.nodes, self.first, node, bit);
            self.count += 1;
        }
    }

    /// Makes room for the next number. On an error nothing has changed.
    pub(crate) fn make_room(&mut self, number: u64) -> Result<(), AllocError>
        requires { number ≤ self.old.room + 1 }
        ensures numbers { self.new.numbers ≡ self.old.numbers }
        ensures ok { OnOk result (number ≤ self.new.room) }
        ensures err { OnErr result (self.new ≡ self.old) }
    {
        if number <= self.room {
            return Ok(());
        }
        let Some(room) = self.room.checked_add(64) else {
            return Err(AllocError);
        };
        add_word(self.alloc, &mut self.nodes, &mut self.first)?;
        self.room = room;
        Ok(())
    }
}
