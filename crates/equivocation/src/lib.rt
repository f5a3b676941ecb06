// The first equivocation among the votes of two packets: of the lowest voter with two different votes of one slot, in its earliest such slot, with the
// first two different blocks that it voted for there. It is found by three passes: the votes of the first packet among themselves, those of the second
// against the first's, those of the second among themselves. Each vote is held against the first one of its voter and slot alone, which an index finds.
#![tactic(auto)]

ghost use Rattle.std.specs.Prelude.{[], ◌++◌, ◌≡◌, ◌≤◌, Some, length, replicate};
ghost use Rattle.protocol.specs.Words.{vote_of};
ghost use Rattle.protocol.specs.Packet.{packet_of};
ghost use Rattle.protocol.specs.Equivocation.{ranks_before, first_equivocation};
ghost use Rattle.protocol.specs.EquivocationPasses.{lower_ranked, meet, among_themselves, against_others};
ghost use Rattle.search_tree.specs.Tree.{Blank, link_of};
ghost use Rattle.index.specs.Index.{PacketRoom};
ghost use Rattle.index.specs.Links.{PacketSlotIndex};
ghost use Rattle.equivocation.specs.First.{equivocation_of, first_of, met_at};

use packets::Packed;
use protocol::{Number, Vote};

// Two different votes of a voter in one slot: the first is for `block`, and the first that is not is for `other`.
#[derive(Clone, Copy)]
pub struct Equivocation {
    pub voter: u64,
    pub slot: u64,
    pub block: Number,
    pub other: Number,
}

// Whether voter v's slot s ranks before voter u's slot t: by a lower voter, or an earlier slot of the same.
fn ranks_before(v: u64, s: u64, u: u64, t: u64) -> bool
    ensures { result ≡ ranks_before v s u t }
{
    (v, s) < (u, t)
}

// The one of these that ranks before; the one found already, if neither does.
fn lower_ranked(best: Option<Equivocation>, e: Equivocation) -> Equivocation
    ensures { first_of (Some result) ≡ lower_ranked (first_of best) (equivocation_of e) }
{
    let Some(f) = best else {
        return e;
    };
    if ranks_before(e.voter, e.slot, f.voter, f.slot) {
        e
    } else {
        f
    }
}

// Vote a has met b, the first one of its voter and slot.
fn meet(best: Option<Equivocation>, b: Vote, a: Vote) -> Option<Equivocation>
    ensures { first_of result ≡ meet (first_of best) (vote_of b) (vote_of a) }
{
    let block = b.number;
    let other = a.number;
    if block == other {
        return best;
    }
    let e = Equivocation {
        voter: a.voter,
        slot: a.slot,
        block,
        other,
    };
    Some(lower_ranked(best, e))
}

// Vote a has met the vote of the packet that was found, if one was.
fn meet_at(
    best: Option<Equivocation>,
    bytes: &[u8],
    found: Option<usize>,
    a: Vote,
) -> Option<Equivocation>
    requires { link_of found ≤ length (packet_of bytes.now).votes }
    ensures { first_of result ≡ met_at (first_of best) (packet_of bytes.now).votes (link_of found) (vote_of a) }
{
    match found {
        None => best,
        Some(i) => meet(best, Vote::at(bytes, i), a),
    }
}

// A packet's votes, each held against those before it. The links, all free before, are an index of them afterwards. The cost is a lookup for each vote.
// Apart from `against_others`: this writes the links, that reads those of another packet.
fn among_themselves(
    best: Option<Equivocation>,
    bytes: &[u8],
    links: &mut [u16],
    salt: u64,
) -> Option<Equivocation>
    requires { PacketRoom salt (length (packet_of bytes.now).votes) links.old × Blank links.old }
    ensures { (first_of result ≡ among_themselves [] (first_of best) (packet_of bytes.now).votes)
        × PacketSlotIndex salt bytes.now (length (packet_of bytes.now).votes) links.new }
{
    let mut best = best;
    for i in 0..Vote::count(bytes) {
        let vote = Vote::at(bytes, i);
        let earlier = index::join_slot(bytes, i, links, salt, vote);
        best = meet_at(best, bytes, earlier, vote);
    }
    best
}

// The votes of packet two, each held against those of packet one, of which the links are an index. The cost is a lookup for each vote of packet two.
fn against_others(
    best: Option<Equivocation>,
    one: &[u8],
    two: &[u8],
    links: &[u16],
    salt: u64,
) -> Option<Equivocation>
    requires { PacketSlotIndex salt one.now (length (packet_of one.now).votes) links.now }
    ensures { first_of result ≡ against_others (packet_of one.now).votes (first_of best) (packet_of two.now).votes }
{
    let n = Vote::count(one);
    let mut best = best;
    for i in 0..Vote::count(two) {
        let vote = Vote::at(two, i);
        let other = index::known_slot(one, n, links, salt, vote);
        best = meet_at(best, one, other, vote);
    }
    best
}

// The first equivocation among the votes of packet one and then of packet two, in their order. Any bytes will do: what is not there counts as 0. The
// cost is a lookup for each vote of packet one and two for each of packet two, and one pass over the bytes of a packet with more than 8,192 votes.
// The links of a packet's votes are lent, all free, and used for one packet after the other.
pub fn first_equivocation(one: &[u8], two: &[u8], links: &mut [u16]) -> Option<Equivocation>
    requires { links.old ≡ replicate 81919 0 }
    ensures { first_of result ≡ first_equivocation ((packet_of one.now).votes ++ (packet_of two.now).votes) }
{
    let count = Vote::count(one);
    let salt = index::salt_for(one, 0, count);
    let span = index::packet_span(salt, count);
    let among_one = among_themselves(None, one, &mut links[..span], salt);
    let across = against_others(among_one, one, two, &links[..span], salt);
    search_tree::free_all(&mut links[..span]);
    let later_count = Vote::count(two);
    let later_salt = index::salt_for(two, 0, later_count);
    let later_span = index::packet_span(later_salt, later_count);
    among_themselves(across, two, &mut links[..later_span], later_salt)
}
