// The verdict of each call: its tests in document 01's order, for any memory that a caller may lend. Nothing is changed here.
// The first test, whether the memory is sound, takes two lookups in an index for each entry; Receive takes four more for each entry of the packet.
// The other tests look through one table at most.
#![tactic(auto)]

ghost use Rattle.std.specs.Prelude.{◌||◌, [], ◌∷◌, ◌≡◌, ◌/◌, eqb, ltb, replicate, IfOk, OnOk};
ghost use Rattle.protocol.specs.Limits.{loom};
ghost use Rattle.protocol.specs.Words.{value};
ghost use Rattle.protocol.specs.Refusal.{first, unsound};
ghost use Rattle.protocol.specs.Lent.{places_of};
ghost use Rattle.protocol.specs.Calls.Open.{open_tests};
ghost use Rattle.protocol.specs.Calls.Receive.{receive_tests};
ghost use Rattle.protocol.specs.Calls.Fit.{packet_tests};
ghost use Rattle.protocol.specs.Calls.Propose.{propose_tests};
ghost use Rattle.protocol.specs.Calls.Vote.{vote_tests};
ghost use Rattle.protocol.specs.Calls.Merge.{merge_tests};
ghost use Rattle.protocol.specs.Calls.Query.{query_tests, settled_tests};
ghost use Rattle.protocol.specs.Calls.Write.{write_tests};
ghost use Rattle.lent.specs.Memory.{memory};
ghost use Rattle.search_tree.specs.Tree.{Blank};
ghost use Rattle.index.specs.Index.{TableRoom};
ghost use Rattle.soundness.specs.Parts.{TablesIndexed};
ghost use Rattle.verdicts.specs.Firsts.{FirstsNoted};
ghost use Rattle.verdicts.specs.Verdict.{refusal_number_of, refusal_index_of, verdict_of};
ghost use Rattle.verdicts.specs.Lent.{lent_verdict, first_rows, beat_tests, due_tests};
ghost use Rattle.verdicts.specs.Counted.{CountsNew};

use fork_choice::Tables;
use lent::Lent;
use packets::Packed;
use protocol::{Block, Clock, Number, Vote, Width};
use writer::Sent;

// The words of a set with a bit for each row of the largest table and each entry of a packet, whose counts have two bytes.
pub const BLOCK_FIRSTS: usize = (limits::LOOM_BLOCKS + 65536) / 64;

pub const VOTE_FIRSTS: usize = (limits::LOOM_VOTES + 65536) / 64;

// Why a call is refused, by document 01's numbers; 9 and 20 with the index of the entry in its section, from 0.
#[derive(Clone, Copy, PartialEq, Eq)]
pub enum Refusal {
    // the settings are out of range, or a table's length
    NodesOutOfRange,
    OwnOutOfRange,
    ExpiryOutOfRange,
    DepthOutOfRange,
    LengthOutOfRange,
    // the tables are not sound
    Unsound,
    // the beat is below the one seen, or its slot above the limit
    WrongBeat,
    // a packet is longer than the node's limit
    PacketTooLong,
    // a packet's form: its length by its counts, kind or zero fields
    PacketMalformed,
    // a block of a packet, a vote or a proposal's header breaks a rule: 9, 20, 21
    BadBlock(usize),
    BadVote(usize),
    BadHeader,
    // too few free places
    TooFewPlaces,
    // another phase
    WrongPhase,
    // the beat is done already
    BeatDone,
    // not joined for the slot
    NotJoined,
    // the slot is another's
    NotProposer,
    // the new number is known
    NumberKnown,
    // an own vote for the slot is known
    AlreadyVoted,
    // a question about slot 0, a slot above the one seen, or one before the slot last merged
    SlotOutOfRange,
    // the buffer is too short
    BufferTooShort,
    // nothing was proposed at the beat seen
    NoOwnProposal,
    // narrow writing meets a number of more than 64 bits
    NumberTooWide,
    // a set of silent nodes names one that is not below n
    SilentOutOfRange,
}

// How many of a packet's entries are new.
#[derive(Clone, Copy)]
pub struct NewCounts {
    pub blocks: usize,
    pub votes: usize,
}

impl Refusal {
    // Document 01's number of a refusal.
    // One arm for each: two carry an index, so the numbers are no discriminants.
    pub fn number(self) -> u64
        ensures { result ≡ refusal_number_of self }
    {
        match self {
            Refusal::NodesOutOfRange => 1,
            Refusal::OwnOutOfRange => 2,
            Refusal::ExpiryOutOfRange => 3,
            Refusal::DepthOutOfRange => 4,
            Refusal::LengthOutOfRange => 5,
            Refusal::Unsound => 6,
            Refusal::WrongBeat => 7,
            Refusal::PacketTooLong => 24,
            Refusal::PacketMalformed => 8,
            Refusal::BadBlock(_) => 9,
            Refusal::BadVote(_) => 20,
            Refusal::BadHeader => 21,
            Refusal::TooFewPlaces => 10,
            Refusal::WrongPhase => 11,
            Refusal::BeatDone => 12,
            Refusal::NotJoined => 13,
            Refusal::NotProposer => 14,
            Refusal::NumberKnown => 15,
            Refusal::AlreadyVoted => 16,
            Refusal::SlotOutOfRange => 17,
            Refusal::BufferTooShort => 18,
            Refusal::NoOwnProposal => 19,
            Refusal::NumberTooWide => 23,
            Refusal::SilentOutOfRange => 25,
        }
    }

    // The index of the entry that Receive refused, in its section; 0 where no entry is refused, as C's structs have it (DECISIONS 11).
    pub fn index(self) -> usize
        ensures { result ≡ refusal_index_of self }
    {
        match self {
            Refusal::BadBlock(i) | Refusal::BadVote(i) => i,
            _ => 0,
        }
    }
}

// Open looks at the settings and the lengths of the tables alone.
pub fn open_verdict(lent: Lent<'_>) -> Result<(), Refusal>
    ensures { verdict_of result ≡ first (open_tests lent.entry.settings (places_of (memory lent.entry))) }
{
    let settings = lent.settings;
    let profile = settings.profile;
    if !ranges::nodes_sound(profile, settings.nodes) {
        return Err(Refusal::NodesOutOfRange);
    }
    if settings.own >= settings.nodes {
        return Err(Refusal::OwnOutOfRange);
    }
    if !ranges::within(1, limits::MAX_EXPIRY, settings.expiry) {
        return Err(Refusal::ExpiryOutOfRange);
    }
    if !ranges::within(1, limits::MAX_DEPTH, settings.depth) {
        return Err(Refusal::DepthOutOfRange);
    }
    if !ranges::places_sound(profile, lent.blocks, lent.votes) {
        return Err(Refusal::LengthOutOfRange);
    }
    Ok(())
}

// ---- what several calls begin with

// Sound memory, and a beat that is not below the one seen, of a slot within the limit. If both hold, the links, all free before, are indices of
// both tables.
fn indexed_verdict(
    lent: Lent<'_>,
    beat: u64,
    block_links: &mut [u16],
    vote_links: &mut [u16],
) -> Result<(), Refusal>
    requires { TableRoom loom.blocks block_links.old × Blank block_links.old × TableRoom loom.votes vote_links.old × Blank vote_links.old }
    ensures verdict { verdict_of result ≡ lent_verdict lent.entry.settings (beat_tests lent.entry.settings beat) (memory lent.entry) }
    ensures indexed { OnOk result (TablesIndexed lent.entry.blocks.now lent.entry.blocks_used block_links.new lent.entry.votes.now lent.entry.votes_used vote_links.new) }
{
    if !soundness::sound_indexed(lent, block_links, vote_links) {
        return Err(Refusal::Unsound);
    }
    if beat < lent.clock.seen || beat / 3 > limits::MAX_SLOT {
        return Err(Refusal::WrongBeat);
    }
    Ok(())
}

// The same with no use for the indices. Stack: 72 KiB of links.
fn beat_verdict(lent: Lent<'_>, beat: u64) -> Result<(), Refusal>
    ensures { verdict_of result ≡ lent_verdict lent.entry.settings (beat_tests lent.entry.settings beat) (memory lent.entry) }
{
    let mut block_links = [0u16; index::BLOCK_LINKS];
    let mut vote_links = [0u16; index::VOTE_LINKS];
    indexed_verdict(lent, beat, &mut block_links, &mut vote_links)
}

// And a beat of this phase that is not done.
fn due_verdict(lent: Lent<'_>, phase: u64, beat: u64) -> Result<(), Refusal>
    ensures { verdict_of result ≡ lent_verdict lent.entry.settings (due_tests lent.entry.settings phase beat) (memory lent.entry) }
{
    beat_verdict(lent, beat)?;
    if beat % 3 != phase {
        return Err(Refusal::WrongPhase);
    }
    if beat <= lent.clock.done {
        return Err(Refusal::BeatDone);
    }
    Ok(())
}

// ---- the calls

// A packet's tests, all but that of the places, and how many entries are new: for Receive and Fit. The sets, empty before, hold the first rows
// of the packet's entries if no test applies: so the entries need not be looked up again when they are stored. The cost beside soundness is
// four lookups for each block and four for each vote of the packet, however many there are. The links of the table's votes and of the packet's entries are
// lent, all free: so Receive has their place for those of a proposal's blocks afterwards, and Compare for another index. Stack: 24 KiB of links.
// Sets and links are four parameters: they are of different lengths, and some callers lend them in pairs and some apart.
pub fn packet_verdict(
    lent: Lent<'_>,
    beat: u64,
    bytes: &[u8],
    block_firsts: &mut [u64],
    vote_firsts: &mut [u64],
    vote_links: &mut [u16],
    packet_links: &mut [u16],
) -> Result<NewCounts, Refusal>
    requires { (block_firsts.old ≡ replicate 1056 0) × (vote_firsts.old ≡ replicate 1152 0) × TableRoom loom.votes vote_links.old × Blank vote_links.old
        × (packet_links.old ≡ replicate 81919 0) }
    ensures verdict { verdict_of result ≡ lent_verdict lent.entry.settings (λ p x. packet_tests lent.entry.settings p x beat bytes.now) (memory lent.entry) }
    ensures counts { IfOk result (CountsNew lent.entry.settings (memory lent.entry) bytes.now) }
    ensures firsts { OnOk result (FirstsNoted lent.entry.blocks.now lent.entry.blocks_used lent.entry.votes.now lent.entry.votes_used bytes.now block_firsts.new vote_firsts.new) }
{
    let mut block_links = [0u16; index::BLOCK_LINKS];
    indexed_verdict(lent, beat, &mut block_links, vote_links)?;
    let tables = Tables::of(lent);
    let settings = lent.settings;
    let long = limits::too_long(settings.profile, bytes.len());
    let formed = packets::well_formed(bytes);
    if long {
        return Err(Refusal::PacketTooLong);
    }
    if !formed {
        return Err(Refusal::PacketMalformed);
    }
    let block_count = Block::count(bytes);
    let vote_count = Vote::count(bytes);
    let slot = beat / 3;
    let salt = index::salt_for(bytes, block_count, vote_count);
    let block_span = index::packet_span(salt, block_count);
    let new_blocks = admission::admit_blocks(
        slot,
        tables.blocks,
        bytes,
        &block_links,
        &mut packet_links[..block_span],
        salt,
        block_firsts,
    )
    .map_err(Refusal::BadBlock)?;
    admission::admit_votes(
        settings.nodes,
        slot,
        tables.blocks,
        bytes,
        &block_links,
        &packet_links[..block_span],
        salt,
        block_firsts,
    )
    .map_err(Refusal::BadVote)?;
    if !admission::header_allowed(bytes) {
        return Err(Refusal::BadHeader);
    }
    let from = own_entries::kept_from(settings, lent.clock.merged);
    search_tree::free_all(&mut packet_links[..block_span]);
    let vote_span = index::packet_span(salt, vote_count);
    let new_votes = admission::new_votes(
        tables.votes,
        bytes,
        from,
        vote_links,
        &mut packet_links[..vote_span],
        salt,
        vote_firsts,
    );
    Ok(NewCounts {
        blocks: new_blocks,
        votes: new_votes,
    })
}

// Receive, with the links lent, all free: then the places. The sets are as above, and hold the first rows if the verdict is to pass.
fn receive_verdict_in(
    lent: Lent<'_>,
    beat: u64,
    bytes: &[u8],
    block_firsts: &mut [u64],
    vote_firsts: &mut [u64],
    vote_links: &mut [u16],
    packet_links: &mut [u16],
) -> Result<(), Refusal>
    requires { (block_firsts.old ≡ replicate 1056 0) × (vote_firsts.old ≡ replicate 1152 0) × (vote_links.old ≡ replicate 24576 0) × (packet_links.old ≡ replicate 81919 0) }
    ensures verdict { verdict_of result ≡ lent_verdict lent.entry.settings (λ p x. receive_tests lent.entry.settings p x beat bytes.now) (memory lent.entry) }
    ensures firsts { OnOk result (FirstsNoted lent.entry.blocks.now lent.entry.blocks_used lent.entry.votes.now lent.entry.votes_used bytes.now block_firsts.new vote_firsts.new) }
{
    let new = packet_verdict(
        lent,
        beat,
        bytes,
        block_firsts,
        vote_firsts,
        vote_links,
        packet_links,
    )?;
    if ranges::places::<Block>(lent.blocks) - lent.blocks_used < new.blocks {
        return Err(Refusal::TooFewPlaces);
    }
    if ranges::places::<Vote>(lent.votes) - lent.votes_used < new.votes {
        return Err(Refusal::TooFewPlaces);
    }
    Ok(())
}

// Receive. Stack: 208 KiB of links, and 24 for the tests of the packet.
pub fn receive_verdict(
    lent: Lent<'_>,
    beat: u64,
    bytes: &[u8],
    block_firsts: &mut [u64],
    vote_firsts: &mut [u64],
) -> Result<(), Refusal>
    requires { (block_firsts.old ≡ replicate 1056 0) × (vote_firsts.old ≡ replicate 1152 0) }
    ensures verdict { verdict_of result ≡ lent_verdict lent.entry.settings (λ p x. receive_tests lent.entry.settings p x beat bytes.now) (memory lent.entry) }
    ensures firsts { OnOk result (FirstsNoted lent.entry.blocks.now lent.entry.blocks_used lent.entry.votes.now lent.entry.votes_used bytes.now block_firsts.new vote_firsts.new) }
{
    let mut vote_links = [0u16; index::VOTE_LINKS];
    let mut packet_links = [0u16; index::PACKET_LINKS];
    receive_verdict_in(
        lent,
        beat,
        bytes,
        block_firsts,
        vote_firsts,
        &mut vote_links,
        &mut packet_links,
    )
}

// Receive of a packet on fresh tables with these settings, and with as many places as these tables have. If the tables are sound, their first row is block 0,
// and alone it is a fresh node's: so no memory is needed for one. The links are lent, all free.
pub fn fresh_verdict(
    lent: Lent<'_>,
    beat: u64,
    bytes: &[u8],
    vote_links: &mut [u16],
    packet_links: &mut [u16],
) -> Result<(), Refusal>
    requires { (vote_links.old ≡ replicate 24576 0) × (packet_links.old ≡ replicate 81919 0) }
    ensures { verdict_of result ≡ lent_verdict lent.entry.settings (λ p x. receive_tests lent.entry.settings p x beat bytes.now) (first_rows (memory lent.entry)) }
{
    let fresh = Lent {
        settings: lent.settings,
        clock: Clock {
            seen: 2,
            done: 2,
            merged: 0,
            proposed: 0,
        },
        blocks: lent.blocks,
        blocks_used: 1,
        votes: lent.votes,
        votes_used: 0,
    };
    let mut block_firsts = [0u64; BLOCK_FIRSTS];
    let mut vote_firsts = [0u64; VOTE_FIRSTS];
    receive_verdict_in(
        fresh,
        beat,
        bytes,
        &mut block_firsts,
        &mut vote_firsts,
        vote_links,
        packet_links,
    )
}

pub fn propose_verdict(lent: Lent<'_>, beat: u64, number: Number) -> Result<(), Refusal>
    ensures { verdict_of result ≡ lent_verdict lent.entry.settings (λ p x. propose_tests lent.entry.settings p x beat (value number)) (memory lent.entry) }
{
    due_verdict(lent, 0, beat)?;
    let tables = Tables::of(lent);
    let joined = own_entries::joined(lent.clock, beat);
    let proposer = own_entries::is_proposer(lent.settings, beat);
    if !joined {
        return Err(Refusal::NotJoined);
    }
    if !proposer {
        return Err(Refusal::NotProposer);
    }
    if tables.blocks.find(number).is_some() {
        return Err(Refusal::NumberKnown);
    }
    if ranges::places::<Block>(lent.blocks) <= lent.blocks_used {
        return Err(Refusal::TooFewPlaces);
    }
    Ok(())
}

pub fn vote_verdict(lent: Lent<'_>, beat: u64) -> Result<(), Refusal>
    ensures { verdict_of result ≡ lent_verdict lent.entry.settings (λ p x. vote_tests lent.entry.settings p x beat) (memory lent.entry) }
{
    due_verdict(lent, 1, beat)?;
    let tables = Tables::of(lent);
    if !own_entries::joined(lent.clock, beat) {
        return Err(Refusal::NotJoined);
    }
    if own_entries::has_voted(tables.votes, lent.settings.own, beat / 3) {
        return Err(Refusal::AlreadyVoted);
    }
    if ranges::places::<Vote>(lent.votes) <= lent.votes_used {
        return Err(Refusal::TooFewPlaces);
    }
    Ok(())
}

pub fn merge_verdict(lent: Lent<'_>, beat: u64) -> Result<(), Refusal>
    ensures { verdict_of result ≡ lent_verdict lent.entry.settings (λ p x. merge_tests lent.entry.settings p x beat) (memory lent.entry) }
{
    due_verdict(lent, 2, beat)
}

// Whether a slot cannot be asked for: of slots before the one last merged, votes may be gone.
fn slot_out_of_range(clock: Clock, slot: u64) -> bool
    ensures { result ≡ (eqb slot 0 || (ltb (clock.seen / 3) slot || ltb slot clock.merged)) }
{
    slot == 0 || clock.seen / 3 < slot || slot < clock.merged
}

// Head, Deep and Fast.
pub fn query_verdict(lent: Lent<'_>, slot: u64) -> Result<(), Refusal>
    ensures { verdict_of result ≡ lent_verdict lent.entry.settings (λ p x. query_tests lent.entry.settings p x slot) (memory lent.entry) }
{
    sound_verdict(lent)?;
    if slot_out_of_range(lent.clock, slot) {
        return Err(Refusal::SlotOutOfRange);
    }
    Ok(())
}

// Settled: the tests of the other questions, and then whether the set names a node that is not below n.
// Both tests are made before the first refusal: the edit silent_before_slot is about their order.
pub fn settled_verdict(lent: Lent<'_>, slot: u64, silent: u64) -> Result<(), Refusal>
    ensures { verdict_of result ≡ lent_verdict lent.entry.settings (λ p x. settled_tests lent.entry.settings p x slot silent) (memory lent.entry) }
{
    sound_verdict(lent)?;
    let late = slot_out_of_range(lent.clock, slot);
    let beyond = masks::has_from(silent, lent.settings.nodes);
    if late {
        return Err(Refusal::SlotOutOfRange);
    }
    if beyond {
        return Err(Refusal::SilentOutOfRange);
    }
    Ok(())
}

// Compare, before it looks at a packet, and what the questions begin with: whether the memory is sound.
pub fn sound_verdict(lent: Lent<'_>) -> Result<(), Refusal>
    ensures { verdict_of result ≡ lent_verdict lent.entry.settings (λ p x. unsound lent.entry.settings p x ∷ []) (memory lent.entry) }
{
    if !soundness::lent_sound(lent) {
        return Err(Refusal::Unsound);
    }
    Ok(())
}

// The buffer is looked at for its length alone.
pub fn write_verdict(
    lent: Lent<'_>,
    proposal: bool,
    width: Width,
    buffer: &[u8],
) -> Result<(), Refusal>
    ensures { verdict_of result ≡ lent_verdict lent.entry.settings (λ p x. write_tests lent.entry.settings p x proposal width buffer.now) (memory lent.entry) }
{
    sound_verdict(lent)?;
    let tables = Tables::of(lent);
    if proposal && !own_entries::proposed_now(lent.settings, lent.clock, tables.blocks) {
        return Err(Refusal::NoOwnProposal);
    }
    let named = own_entries::header_block(tables.blocks, proposal);
    let sent = Sent {
        blocks: tables.blocks,
        votes: tables.votes,
        proposal,
        width,
    };
    if writer::too_wide(sent, named.number) {
        return Err(Refusal::NumberTooWide);
    }
    if buffer.len() < writer::written_length(sent) {
        return Err(Refusal::BufferTooShort);
    }
    Ok(())
}
