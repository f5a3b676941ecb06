// The filters of votes: which voters equivocate, and which vote of each voter is kept.
#![tactic(auto)]

ghost use Rattle.std.specs.Prelude.{◌||◌, ◌&&◌, ◌≡◌, ◌+◌, ◌<◌, ◌≤◌, length, replicate, None};
ghost use Rattle.protocol.specs.Limits.{loom};
ghost use Rattle.protocol.specs.Filters.{window};
ghost use Rattle.index.specs.Index.{TableRoom};
ghost use Rattle.index.specs.Links.{SlotIndex};
ghost use Rattle.vote_filters.specs.Latest.{votes_of, VotersFit, equivocators_of, Latest, Kept};

use protocol::Vote;
use rows::{Row, Table};

// Which votes count for slot t: those of the whole store or of the view, of the slots before t that have not expired.
#[derive(Clone, Copy)]
struct Window {
    whole: bool,
    expiry: u64,
    t: u64,
}

impl Window {
    // Whether a row is selected, and its slot is in the window.
    #[tactic(auto, using(crate::proofs::Latest::window_span), unfolding(protocol::specs::Filters::window))]
    fn counts(self, row: Row<Vote>) -> bool
        ensures { result ≡ ((self.whole || row.viewed) && window self.expiry self.t row.entry.slot) }
    {
        let slot = row.entry.slot;
        rows::selects(self.whole, row.viewed)
            && 0 < slot
            && slot < self.t
            && self.t - slot <= self.expiry
    }
}

// The equivocators of one row more, which joins the index: its vote is held against the first one of its voter and slot.
fn equivocators_next(
    votes: Table<'_, Vote>,
    i: usize,
    window: Window,
    links: &mut [u16],
    mask: u64,
) -> u64
    requires { (i < votes.used) × TableRoom (i + 1) links.old × VotersFit votes.words.now (i + 1) × SlotIndex window.whole votes.words.now i links.old
        × (mask ≡ equivocators_of (votes_of window.whole votes.words.now i) window.expiry window.t) }
    ensures { (result ≡ equivocators_of (votes_of window.whole votes.entry.words.now (i + 1)) window.expiry window.t)
        × SlotIndex window.whole votes.entry.words.now (i + 1) links.new }
{
    let Some(link) = index::slot_add(votes, i, window.whole, links) else {
        return mask;
    };
    let new = votes.row(i);
    if window.counts(new) {
        let first = votes.row(link);
        if first.entry.number != new.entry.number {
            return masks::with(mask, new.entry.voter);
        }
    }
    mask
}

// The latest votes of one row more.
fn latest_next(votes: Table<'_, Vote>, i: usize, window: Window, kept: &mut [Option<Vote>])
    requires { (i < votes.used) × VotersFit votes.words.now (i + 1) × (length kept.old ≡ loom.nodes)
        × Latest (votes_of window.whole votes.words.now i) window.expiry window.t kept.old }
    ensures { Latest (votes_of window.whole votes.entry.words.now (i + 1)) window.expiry window.t kept.new }
{
    let row = votes.row(i);
    if window.counts(row) {
        let v = row.entry.voter as usize;
        match kept[v] {
            Some(held) if row.entry.slot <= held.slot => {}
            _ => kept[v] = Some(row.entry),
        }
    }
}

// The latest vote of each voter in the window, and the voters with two votes of one slot of the window for different blocks.
// One pass over the votes, with a lookup for each. Stack: 48 KiB for the links.
fn gather(votes: Table<'_, Vote>, window: Window, kept: &mut [Option<Vote>]) -> u64
    requires { (votes.used ≤ loom.votes) × VotersFit votes.words.now votes.used × (length kept.old ≡ loom.nodes)
        × Latest (votes_of window.whole votes.words.now 0) window.expiry window.t kept.old }
    ensures { (result ≡ equivocators_of (votes_of window.whole votes.entry.words.now votes.entry.used) window.expiry window.t)
        × Latest (votes_of window.whole votes.entry.words.now votes.entry.used) window.expiry window.t kept.new }
{
    let mut links = [0u16; index::VOTE_LINKS];
    let mut mask: u64 = 0;
    for i in 0..votes.used {
        mask = equivocators_next(votes, i, window, &mut links, mask);
        latest_next(votes, i, window, kept);
    }
    mask
}

// The kept vote of each voter.
// One pass over the votes, with a lookup in an index for each. Stack: 48 KiB.
pub fn kept_votes(
    votes: Table<'_, Vote>,
    whole: bool,
    expiry: u64,
    t: u64,
    kept: &mut [Option<Vote>],
)
    requires { (votes.used ≤ loom.votes) × VotersFit votes.words.now votes.used × (kept.old ≡ replicate loom.nodes None) }
    ensures { Kept (votes_of whole votes.entry.words.now votes.entry.used) expiry t kept.new }
{
    let window = Window { whole, expiry, t };
    let dropped = gather(votes, window, kept);
    for v in 0..limits::LOOM_NODES {
        if masks::has(dropped, v as u64) {
            kept[v] = None;
        }
    }
}
