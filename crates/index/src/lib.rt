// One index for every kind of entry, in links that a caller lends: blocks by number, votes, and votes by voter and slot, of a table; and the same of
// a packet. Each is a search tree over what has keys (`Keyed`), and one search finds the first row of a key.
// In a table the root is chosen by a key's lowest bits, and each row has two links, between which the digits of the key decide, mixed. Honest entries
// meet one row or two. Keys with the same first digits have to be sought, one after another, and each further digit doubles the search.
// A packet whose sections have at most 8,192 entries has such trees too. Where one has more, up to 65,535, each entry has one link, and the root is
// chosen by all words of a key, mixed with a salt of all bytes of the packet: a chain has four entries, on the average, in the longest packet, and
// nobody can tell which before the packet is whole.
// No function keeps an array: the largest call takes less than 1 KB of stack.
#![tactic(auto)]

ghost use Rattle.std.specs.Prelude.{◌≡◌, ◌+◌, ◌*◌, ◌<◌, ◌≤◌, ℕ, length, get_or};
ghost use Rattle.std.proofs.Common.{rules};
ghost use Rattle.protocol.specs.Chain.{genesis};
ghost use Rattle.protocol.specs.Words.{value, block_of, vote_of};
ghost use Rattle.protocol.specs.Packet.{packet_of};
ghost use Rattle.packets.specs.Header.{no_vote};
ghost use Rattle.protocol.specs.Lent.{rows_of, make_block, make_vote};
ghost use Rattle.bitset.specs.Bitset.{inserted};
ghost use Rattle.search_tree.specs.Tree.{links_of, child, link_of, Index, Points, Sought, Blank};
ghost use Rattle.index.specs.Keys.{number_key, vote_key, slot_key_of, shape, packet_shape};
ghost use Rattle.index.specs.Index.{row_number, row_vote, packet_number, packet_vote, Indexed, PointsBehind, BeginsBelow, Room, TableRoom, PacketRoom, Added, keys_differ};
ghost use Rattle.index.specs.Links.{link_to_number, numbers_differ, votes_differ, BlockIndex, VoteIndex, SlotIndex, PacketSlotIndex, slot_key, packet_slot_keys, known_blocks, block_keys, vote_keys, BlocksIndexed, VotesIndexed};
ghost use Rattle.index.specs.Firsts.{first_row};

use packets::Packed;
use protocol::{Block, Number, Vote};
use rows::{Entry, Table};
use search_tree::Spot;

// The links of an index of a table: its roots, and two for each row. Those of the largest tables.
const ROOTS: usize = 8192;

pub const BLOCK_LINKS: usize = ROOTS + 2 * limits::LOOM_BLOCKS;

pub const VOTE_LINKS: usize = ROOTS + 2 * limits::LOOM_VOTES;

// The links of an index of a packet's section: its roots, and two for each entry, or one where there are more than 8,192. Those of the longest.
const PACKET_ROOTS: usize = 16384;

pub const PACKET_LINKS: usize = PACKET_ROOTS + 65535;

// ---- keys

// What an index goes by: four words, of which d is the upper half of a number.
#[derive(Clone, Copy, PartialEq, Eq)]
pub struct Key {
    pub a: u64,
    pub b: u64,
    pub c: u64,
    pub d: u64,
}

// The key of a block's number.
impl From<Number> for Key {
    ghost from_gives = { λ number r. r ≡ number_key (value number) };

    fn from(number: Number) -> Key {
        Key {
            a: number.lower,
            b: number.lower,
            c: number.lower,
            d: number.upper,
        }
    }
}

// The key of a vote.
impl From<Vote> for Key {
    ghost from_gives = { λ vote r. r ≡ vote_key (vote_of vote) };

    fn from(vote: Vote) -> Key {
        Key {
            a: vote.number.lower,
            b: vote.slot,
            c: vote.voter,
            d: vote.number.upper,
        }
    }
}

// The key of a vote's voter and slot.
fn slot_key(vote: Vote) -> Key
    ensures { result ≡ slot_key_of (vote_of vote) }
{
    Key {
        a: vote.slot,
        b: vote.slot,
        c: vote.voter,
        d: 0,
    }
}

// How a tree branches: how many roots it has, and its salt. If that is 0, each row has two links, and else one.
#[derive(Clone, Copy)]
struct Tree {
    roots: usize,
    salt: u64,
}

impl Tree {
    // The root of a key.
    fn root(self, key: Key) -> usize
        requires { 8192 ≤ self.roots }
        ensures is { result ≡ (shape self.roots self.salt).root key }
        ensures among { result < self.roots }
    {
        if self.salt == 0 {
            let slot = key.b % 128 * 64 + key.b / 128 % 1024 * 8;
            return ((slot + key.c % 8192 + key.d % 8192) % 8192) as usize;
        }
        (mixing::mixed(self.salt, key.a, key.b, key.c, key.d) % self.roots as u64) as usize
    }

    // The digits of a key.
    fn digits(self, key: Key) -> u64
        ensures { result ≡ (shape self.roots self.salt).first key }
    {
        if self.salt == 0 {
            return mixing::mixed(0, key.a, key.b, key.c, key.d);
        }
        0
    }

    // The link by which a descent goes on from row j.
    fn child(self, j: usize, digits: u64) -> usize
        requires { links_of (shape self.roots self.salt) (j + 1) < 18446744073709551616 }
        ensures { result ≡ child (shape self.roots self.salt) j digits }
    {
        if self.salt == 0 {
            return self.roots + 2 * j + (digits % 2) as usize;
        }
        self.roots + j
    }
}

// The tree of a table.
const TABLE: Tree = Tree {
    roots: ROOTS,
    salt: 0,
};

// What has keys and can be indexed by them: the rows of a table, or the entries of a packet.
trait Keyed: Copy {
    ghost use Rattle.index.specs.declared.Key.{Key};
    ghost use Rattle.index.specs.declared.Tree.{Tree};

    // How many there are, the key of each, and their tree.
    ghost size: { Self → ℕ };

    ghost keys: { Self → ℕ → Key };

    ghost tree: { Self → Tree };

    // The key of row j.
    fn key(self, j: usize) -> Key
        requires { j < size self }
        ensures { result ≡ keys self j };

    fn tree(self) -> Tree
        ensures { result ≡ tree self };

    ghost enough: { (s : Self) → 8192 ≤ (tree s).roots };
}

// The blocks of a table, by number.
impl<'a> Keyed for Table<'a, Block> {
    ghost size = { λ blocks. blocks.used };

    ghost keys = { λ blocks. row_number blocks.words.now };

    ghost tree = { λ blocks. record { roots = 8192; salt = 0 } };

    ghost enough = { λ blocks. Prim.search rules };

    fn key(self, j: usize) -> Key {
        Key::from(self.row(j).entry.number)
    }

    fn tree(self) -> Tree {
        TABLE
    }
}

// The votes of a table.
impl<'a> Keyed for Table<'a, Vote> {
    ghost size = { λ votes. votes.used };

    ghost keys = { λ votes. row_vote votes.words.now };

    ghost tree = { λ votes. record { roots = 8192; salt = 0 } };

    ghost enough = { λ votes. Prim.search rules };

    fn key(self, j: usize) -> Key {
        Key::from(self.row(j).entry)
    }

    fn tree(self) -> Tree {
        TABLE
    }
}

// The votes of a table by voter and slot: the whole store, or those in view apart from those that wait.
#[derive(Clone, Copy)]
struct VoterSlots<'a> {
    votes: Table<'a, Vote>,
    whole: bool,
}

impl<'a> Keyed for VoterSlots<'a> {
    ghost size = { λ slots. slots.votes.used };

    ghost keys = { λ slots. slot_key slots.whole slots.votes.words.now };

    ghost tree = { λ slots. record { roots = 8192; salt = 0 } };

    ghost enough = { λ slots. Prim.search rules };

    fn key(self, j: usize) -> Key {
        let key = slot_key(self.votes.row(j).entry);
        if self.whole {
            return key;
        }
        // the mark stands where the number does
        Key {
            a: self.votes.words[5 * j + 4],
            ..key
        }
    }

    fn tree(self) -> Tree {
        TABLE
    }
}

// The blocks of a packet, by number.
#[derive(Clone, Copy)]
struct PacketBlocks<'a> {
    bytes: &'a [u8],
    salt: u64,
}

impl<'a> Keyed for PacketBlocks<'a> {
    ghost size = { λ blocks. length (packet_of blocks.bytes.now).blocks };

    ghost keys = { λ blocks. packet_number blocks.bytes.now };

    ghost tree = { λ blocks. record { roots = 16384; salt = blocks.salt } };

    ghost enough = { λ blocks. Prim.search rules };

    fn key(self, j: usize) -> Key {
        Key::from(Block::at(self.bytes, j).number)
    }

    fn tree(self) -> Tree {
        Tree {
            roots: PACKET_ROOTS,
            salt: self.salt,
        }
    }
}

// The votes of a packet.
#[derive(Clone, Copy)]
struct PacketVotes<'a> {
    bytes: &'a [u8],
    salt: u64,
}

impl<'a> Keyed for PacketVotes<'a> {
    ghost size = { λ votes. length (packet_of votes.bytes.now).votes };

    ghost keys = { λ votes. packet_vote votes.bytes.now };

    ghost tree = { λ votes. record { roots = 16384; salt = votes.salt } };

    ghost enough = { λ votes. Prim.search rules };

    fn key(self, j: usize) -> Key {
        Key::from(Vote::at(self.bytes, j))
    }

    fn tree(self) -> Tree {
        Tree {
            roots: PACKET_ROOTS,
            salt: self.salt,
        }
    }
}

// The votes of a packet, by voter and slot.
#[derive(Clone, Copy)]
struct PacketSlots<'a> {
    bytes: &'a [u8],
    salt: u64,
}

impl<'a> Keyed for PacketSlots<'a> {
    ghost size = { λ votes. length (packet_of votes.bytes.now).votes };

    ghost keys = { λ votes. packet_slot_keys votes.bytes.now };

    ghost tree = { λ votes. record { roots = 16384; salt = votes.salt } };

    ghost enough = { λ votes. Prim.search rules };

    fn key(self, j: usize) -> Key {
        slot_key(Vote::at(self.bytes, j))
    }

    fn tree(self) -> Tree {
        Tree {
            roots: PACKET_ROOTS,
            salt: self.salt,
        }
    }
}

// ---- the search

// Functions of the search are compiled into each place that asks for them, so that the look at a root is no call; what mixes the digits of a key is one.

// The descent for a key goes on from the row that its root leads to, which has another key, among the first n. The cost is one step for each row that
// it meets. Honest entries seldom come here.
#[inline(always)]
fn descend<K: Keyed>(keys: K, n: usize, links: &[u16], key: Key, first: usize) -> Spot
    requires { (n ≤ K.size keys) × Index (shape (K.tree keys).roots (K.tree keys).salt) (λ k. k ≡ key) (K.keys keys) n links.now
        × BeginsBelow (shape (K.tree keys).roots (K.tree keys).salt) (K.keys keys) n links.now key first }
    ensures { Sought (shape (K.tree keys).roots (K.tree keys).salt) (K.keys keys) n links.now key result.at (link_of result.row) }
{
    let tree = keys.tree();
    let mut digits = tree.digits(key);
    let mut at = tree.child(first, digits);
    digits /= 2;
    while let Some(row) = search_tree::row_at(links, at) {
        if keys.key(row) == key {
            return Spot { at, row: Some(row) };
        }
        at = tree.child(row, digits);
        digits /= 2;
    }
    Spot { at, row: None }
}

// Where the descent for a key ends, among the first n rows. The cost is a descent.
#[inline(always)]
fn seek<K: Keyed>(keys: K, n: usize, links: &[u16], key: Key) -> Spot
    requires { (n ≤ K.size keys) × Index (shape (K.tree keys).roots (K.tree keys).salt) (λ k. k ≡ key) (K.keys keys) n links.now }
    ensures { Sought (shape (K.tree keys).roots (K.tree keys).salt) (K.keys keys) n links.now key result.at (link_of result.row) }
{
    let at = keys.tree().root(key);
    let Some(row) = search_tree::row_at(links, at) else {
        return Spot { at, row: None };
    };
    if keys.key(row) == key {
        return Spot { at, row: Some(row) };
    }
    descend(keys, n, links, key, row)
}

// The first row that has the key among the first n. The cost is a descent.
#[inline(always)]
fn find<K: Keyed>(keys: K, n: usize, links: &[u16], key: Key) -> Option<usize>
    requires { (n ≤ K.size keys) × Index (shape (K.tree keys).roots (K.tree keys).salt) (λ k. k ≡ key) (K.keys keys) n links.now }
    ensures { Points (K.keys keys) n key (link_of result) }
{
    seek(keys, n, links, key).row
}

// Row n, which has this key, joins those before it; the answer is the first of these that has the key. The cost is a descent.
#[inline(always)]
fn join<K: Keyed>(keys: K, n: usize, links: &mut [u16], key: Key) -> Option<usize>
    requires { (n ≤ K.size keys) × Room (shape (K.tree keys).roots (K.tree keys).salt) (n + 1) links.old
        × Index (shape (K.tree keys).roots (K.tree keys).salt) (λ k. k ≡ key) (K.keys keys) n links.old × (key ≡ K.keys keys n) }
    ensures { Added (shape (K.tree keys).roots (K.tree keys).salt) (K.keys keys) n links.old links.new (link_of result) }
{
    let spot = seek(keys, n, links, key);
    if spot.row.is_none() {
        search_tree::put_link(links, spot.at, n + 1);
    }
    spot.row
}

// ---- the index of a table

// Row n joins those before it; the answer is the first of these that has its key. The cost is a descent.
#[inline(always)]
fn add<K: Keyed>(keys: K, n: usize, links: &mut [u16]) -> Option<usize>
    requires { (n < K.size keys) × Room (shape (K.tree keys).roots (K.tree keys).salt) (n + 1) links.old
        × Index (shape (K.tree keys).roots (K.tree keys).salt) (λ k. Unit) (K.keys keys) n links.old }
    ensures { Points (K.keys keys) n (K.keys keys n) (link_of result)
        × Index (shape (K.tree keys).roots (K.tree keys).salt) (λ k. Unit) (K.keys keys) (n + 1) links.new }
{
    let key = keys.key(n);
    join(keys, n, links, key)
}

// The index of the first n rows of a table, in links that are all free; and whether their keys differ. The cost is a lookup for each row.
fn build<K: Keyed>(keys: K, n: usize, links: &mut [u16]) -> bool
    requires { (n ≤ K.size keys) × Room (shape (K.tree keys).roots (K.tree keys).salt) n links.old × Blank links.old }
    ensures { (result ≡ keys_differ (K.keys keys) n) × Index (shape (K.tree keys).roots (K.tree keys).salt) (λ k. Unit) (K.keys keys) n links.new }
{
    let mut differ = true;
    for i in 0..n {
        if add(keys, i, links).is_some() {
            differ = false;
        }
    }
    differ
}

// The index of the blocks, in links that are all free; and whether they differ. The cost is a lookup for each row.
pub fn build_blocks(blocks: Table<'_, Block>, links: &mut [u16]) -> bool
    requires { TableRoom blocks.used links.old × Blank links.old }
    ensures { (result ≡ numbers_differ (rows_of make_block blocks.entry.words.now blocks.entry.used))
        × BlockIndex blocks.entry.words.now blocks.entry.used links.new }
{
    build(blocks, blocks.used, links)
}

// The index of the votes, in links that are all free; and whether they differ. The cost is a lookup for each row.
pub fn build_votes(votes: Table<'_, Vote>, links: &mut [u16]) -> bool
    requires { TableRoom votes.used links.old × Blank links.old }
    ensures { (result ≡ votes_differ (rows_of make_vote votes.entry.words.now votes.entry.used))
        × VoteIndex votes.entry.words.now votes.entry.used links.new }
{
    build(votes, votes.used, links)
}

// The row of the first block with the number. The cost is a lookup.
#[inline(always)]
pub fn link(blocks: Table<'_, Block>, links: &[u16], number: Number) -> Option<usize>
    requires { BlockIndex blocks.words.now blocks.used links.now }
    ensures { link_of result ≡ link_to_number (rows_of make_block blocks.entry.words.now blocks.entry.used) (value number) }
{
    find(blocks, blocks.used, links, Key::from(number))
}

// Row n joins the index of the blocks before it. The cost is a lookup.
#[inline(always)]
pub fn add_block(blocks: Table<'_, Block>, n: usize, links: &mut [u16])
    requires { (n < blocks.used) × TableRoom (n + 1) links.old × BlockIndex blocks.words.now n links.old }
    ensures { BlockIndex blocks.entry.words.now (n + 1) links.new }
{
    add(blocks, n, links);
}

// Row n joins the index by voter and slot of the rows before it; the answer is the row of the first of these with its voter and slot. Of the view, rows
// that wait are kept apart. The cost is a lookup.
#[inline(always)]
pub fn slot_add(votes: Table<'_, Vote>, n: usize, whole: bool, links: &mut [u16]) -> Option<usize>
    requires { (n < votes.used) × TableRoom (n + 1) links.old × SlotIndex whole votes.words.now n links.old }
    ensures { Points (slot_key whole votes.entry.words.now) n (slot_key whole votes.entry.words.now n) (link_of result)
        × SlotIndex whole votes.entry.words.now (n + 1) links.new }
{
    add(VoterSlots { votes, whole }, n, links)
}

// ---- the index of a packet's blocks, or of its votes

// The salt of a packet with so many blocks and votes: 0 where neither is above 8,192, so that each entry has two links.
pub fn salt_for(bytes: &[u8], blocks: usize, votes: usize) -> u64
    ensures { result ≡ 0 → (blocks ≤ 8192) × (votes ≤ 8192) }
{
    if blocks <= 8192 && votes <= 8192 {
        return 0;
    }
    mixing::salt_of(bytes)
}

// How many links an index of so many entries has.
pub fn packet_span(salt: u64, count: usize) -> usize
    requires { (count ≤ 65535) × (salt ≡ 0 → count ≤ 8192) }
    ensures { (result ≡ links_of (packet_shape salt) count) × (result ≤ 81919) }
{
    if salt == 0 {
        return PACKET_ROOTS + 2 * count;
    }
    PACKET_ROOTS + count
}

// The first vote of the packet's first n that has the voter and slot of this one. The cost is a lookup.
pub fn known_slot(bytes: &[u8], n: usize, links: &[u16], salt: u64, vote: Vote) -> Option<usize>
    requires { (n ≤ length (packet_of bytes.now).votes) × PacketSlotIndex salt bytes.now n links.now }
    ensures { Points (packet_slot_keys bytes.now) n (slot_key_of (vote_of vote)) (link_of result) }
{
    find(PacketSlots { bytes, salt }, n, links, slot_key(vote))
}

// Vote i of the packet, which is this one, joins those before it; the answer is the first of these that has its voter and slot. The cost is a lookup.
pub fn join_slot(bytes: &[u8], i: usize, links: &mut [u16], salt: u64, vote: Vote) -> Option<usize>
    requires { (i < length (packet_of bytes.now).votes) × PacketRoom salt (i + 1) links.old × PacketSlotIndex salt bytes.now i links.old
        × (vote_of vote ≡ get_or (packet_of bytes.now).votes i no_vote) }
    ensures { Points (packet_slot_keys bytes.now) i (slot_key_of (vote_of vote)) (link_of result) × PacketSlotIndex salt bytes.now (i + 1) links.new }
{
    join(PacketSlots { bytes, salt }, i, links, slot_key(vote))
}

// ---- of a table and then a packet

// The block at row j.
#[inline(always)]
pub fn block_at(blocks: Table<'_, Block>, bytes: &[u8], j: usize) -> Block
    requires { j < blocks.used + length (packet_of bytes.now).blocks }
    ensures { block_of result ≡ get_or (known_blocks blocks.entry.words.now blocks.entry.used bytes.now) j genesis }
{
    if j < blocks.used {
        blocks.row(j).entry
    } else {
        Block::at(bytes, j - blocks.used)
    }
}

// The first that has the key among `used` rows and the first i entries behind them. The cost is two lookups.
fn known_behind<R: Keyed, E: Keyed>(
    rows: R,
    used: usize,
    entries: E,
    i: usize,
    links: &[u16],
    packet_links: &[u16],
    key: Key,
) -> Option<usize>
    requires { (used ≤ R.size rows) × (i ≤ E.size entries) × (used + i < 18446744073709551616)
        × Indexed (shape (R.tree rows).roots (R.tree rows).salt) (R.keys rows) used (shape (E.tree entries).roots (E.tree entries).salt) (E.keys entries) i links.now packet_links.now }
    ensures { PointsBehind (R.keys rows) used (E.keys entries) i key (link_of result) }
{
    if let Some(row) = find(rows, used, links, key) {
        return Some(row);
    }
    let later = find(entries, i, packet_links, key)?;
    Some(used + later)
}

// Entry i, which has this key, joins those before it; the answer is the first that has the key among `used` rows and the first i entries behind them.
// The cost is two lookups.
fn join_behind<R: Keyed, E: Keyed>(
    rows: R,
    used: usize,
    entries: E,
    i: usize,
    links: &[u16],
    packet_links: &mut [u16],
    key: Key,
) -> Option<usize>
    requires { (used ≤ R.size rows) × (i < E.size entries) × (used + i < 18446744073709551616)
        × Room (shape (E.tree entries).roots (E.tree entries).salt) (i + 1) packet_links.old
        × Indexed (shape (R.tree rows).roots (R.tree rows).salt) (R.keys rows) used (shape (E.tree entries).roots (E.tree entries).salt) (E.keys entries) i links.now packet_links.old × (key ≡ E.keys entries i) }
    ensures { PointsBehind (R.keys rows) used (E.keys entries) i key (link_of result)
        × Indexed (shape (R.tree rows).roots (R.tree rows).salt) (R.keys rows) used (shape (E.tree entries).roots (E.tree entries).salt) (E.keys entries) (i + 1) links.now packet_links.new }
{
    if let Some(row) = find(rows, used, links, key) {
        return Some(row);
    }
    let later = join(entries, i, packet_links, key)?;
    Some(used + later)
}

// The first row that has the number among the table's and the packet's first i. The cost is two lookups.
pub fn known_block(
    blocks: Table<'_, Block>,
    bytes: &[u8],
    i: usize,
    links: &[u16],
    packet_links: &[u16],
    salt: u64,
    number: Number,
) -> Option<usize>
    requires { (i ≤ length (packet_of bytes.now).blocks) × (i ≤ 65535)
        × BlocksIndexed salt blocks.words.now blocks.used bytes.now i links.now packet_links.now }
    ensures { Points (block_keys blocks.entry.words.now blocks.entry.used bytes.now) (blocks.entry.used + i) (number_key (value number)) (link_of result) }
{
    let entries = PacketBlocks { bytes, salt };
    known_behind(
        blocks,
        blocks.used,
        entries,
        i,
        links,
        packet_links,
        Key::from(number),
    )
}

// Block i of the packet, which has this number, joins those before it; the answer is the first row that has the number among the table's and the
// packet's first i. The cost is two lookups.
pub fn join_block(
    blocks: Table<'_, Block>,
    bytes: &[u8],
    i: usize,
    links: &[u16],
    packet_links: &mut [u16],
    salt: u64,
    number: Number,
) -> Option<usize>
    requires { (i < length (packet_of bytes.now).blocks) × PacketRoom salt (i + 1) packet_links.old
        × BlocksIndexed salt blocks.words.now blocks.used bytes.now i links.now packet_links.old
        × (value number ≡ (get_or (packet_of bytes.now).blocks i genesis).number) }
    ensures { Points (block_keys blocks.entry.words.now blocks.entry.used bytes.now) (blocks.entry.used + i)
        (block_keys blocks.entry.words.now blocks.entry.used bytes.now (blocks.entry.used + i)) (link_of result)
        × BlocksIndexed salt blocks.entry.words.now blocks.entry.used bytes.now (i + 1) links.now packet_links.new }
{
    let entries = PacketBlocks { bytes, salt };
    join_behind(
        blocks,
        blocks.used,
        entries,
        i,
        links,
        packet_links,
        Key::from(number),
    )
}

// The same for vote i, which is this one.
pub fn join_vote(
    votes: Table<'_, Vote>,
    bytes: &[u8],
    i: usize,
    links: &[u16],
    packet_links: &mut [u16],
    salt: u64,
    vote: Vote,
) -> Option<usize>
    requires { (i < length (packet_of bytes.now).votes) × PacketRoom salt (i + 1) packet_links.old
        × VotesIndexed salt votes.words.now votes.used bytes.now i links.now packet_links.old
        × (vote_of vote ≡ get_or (packet_of bytes.now).votes i no_vote) }
    ensures { Points (vote_keys votes.entry.words.now votes.entry.used bytes.now) (votes.entry.used + i)
        (vote_keys votes.entry.words.now votes.entry.used bytes.now (votes.entry.used + i)) (link_of result)
        × VotesIndexed salt votes.entry.words.now votes.entry.used bytes.now (i + 1) links.now packet_links.new }
{
    let entries = PacketVotes { bytes, salt };
    join_behind(
        votes,
        votes.used,
        entries,
        i,
        links,
        packet_links,
        Key::from(vote),
    )
}

// The first row of an entry joins the set: the row that was found among the first n, or else n.
pub fn note_first(firsts: &mut [u64], n: usize, link: Option<usize>)
    requires { first_row n (link_of link) < 64 * length firsts.old }
    ensures { firsts.new ≡ inserted firsts.old (first_row n (link_of link)) }
{
    bitset::insert(firsts, link.unwrap_or(n));
}
