// The rules of sound tables that look at numbers alone: settings, clock, places, and the marks, voters and slots of rows.
// No function keeps an array: the largest call takes less than 1 KB of stack.
#![tactic(auto)]

ghost use Rattle.std.specs.Prelude.{true, ◌&&◌, ◌≡◌, ◌↔◌, IsSome, IfSome, leb};
ghost use Rattle.protocol.specs.Limits.{limits_of};
ghost use Rattle.protocol.specs.Lists.{all_pass};
ghost use Rattle.protocol.specs.Sound.{settings_sound, clock_sound, places_sound, in_range};
ghost use Rattle.protocol.specs.Lent.{block_words, vote_words, places_in, marks_sound, rows_of, make_block, make_vote};
ghost use Rattle.ranges.specs.Rows.{block_in_range, vote_in_range};

use protocol::{Block, Clock, Profile, Settings, Vote};
use rows::{Entry, Table};

#[tactic(auto, unfolding(protocol::specs::Sound::in_range))]
pub fn within(low: u64, high: u64, x: u64) -> bool
    ensures { result ≡ in_range low high x }
{
    low <= x && x <= high
}

// Whether the profile allows so many nodes.
pub fn nodes_sound(profile: Profile, nodes: u64) -> bool
    ensures { result ≡ in_range 1 (limits_of profile).nodes nodes }
{
    within(1, limits::limits_of(profile).nodes, nodes)
}

#[tactic(auto, unfolding(protocol::specs::Sound::settings_sound))]
pub fn settings_sound(settings: Settings) -> bool
    ensures { result ≡ settings_sound settings }
{
    nodes_sound(settings.profile, settings.nodes)
        && settings.own < settings.nodes
        && within(1, limits::MAX_EXPIRY, settings.expiry)
        && within(1, limits::MAX_DEPTH, settings.depth)
}

// No product is formed that could pass the width of a word.
#[tactic(auto, unfolding(protocol::specs::Sound::clock_sound))]
pub fn clock_sound(clock: Clock) -> bool
    ensures { result ≡ clock_sound clock }
{
    let slot = clock.seen / 3;
    slot <= limits::MAX_SLOT
        && clock.done <= clock.seen
        && clock.merged <= slot
        && clock.merged * 3 + 2 <= clock.done
        && clock.proposed <= slot
}

// How many rows the words can hold.
pub fn places<E: Entry>(words: &[u64]) -> usize
    ensures { result ≡ places_in E.make.words words.now }
{
    let n = words.len();
    if n % E::WORDS == 0 { n / E::WORDS } else { 0 }
}

// The table of the used rows, if as many can stand in the words.
pub fn table<'a, E: Entry>(words: &'a [u64], used: usize) -> Option<Table<'a, E>>
    ensures fits { IsSome result ↔ (leb used (places_in E.make.words words.entry.now) ≡ true) }
    ensures table { IfSome result (λ t. (t.words ≡ words.entry) × (t.used ≡ used)) }
{
    if used <= places::<E>(words) {
        Some(Table::new(words, used))
    } else {
        None
    }
}

// Whether both tables have a number of places that the profile allows.
#[tactic(auto, unfolding(protocol::specs::Sound::places_sound))]
pub fn places_sound(profile: Profile, blocks: &[u64], votes: &[u64]) -> bool
    ensures { result ≡ places_sound (limits_of profile) (record { blocks = places_in block_words blocks.entry.now; votes = places_in vote_words votes.now }) }
{
    let most = limits::limits_of(profile);
    within(1, most.blocks, places::<Block>(blocks) as u64)
        && within(1, most.votes, places::<Vote>(votes) as u64)
}

// Whether the marks of the used rows are 0 or 1, and no slot is above `slot`. One pass over the rows.
pub fn blocks_in_range(blocks: Table<'_, Block>, slot: u64) -> bool
    ensures { result ≡ (marks_sound make_block blocks.entry.words.now blocks.entry.used && all_pass (block_in_range slot) (rows_of make_block blocks.entry.words.now blocks.entry.used)) }
{
    (0..blocks.used).all(|i| blocks.is_clean(i) && blocks.row(i).entry.slot <= slot)
}

// Whether the marks of the used rows are 0 or 1, every voter is below `nodes` and every slot from 1 to `slot`. One pass over the rows.
pub fn votes_in_range(votes: Table<'_, Vote>, nodes: u64, slot: u64) -> bool
    ensures { result ≡ (marks_sound make_vote votes.entry.words.now votes.entry.used && all_pass (vote_in_range nodes slot) (rows_of make_vote votes.entry.words.now votes.entry.used)) }
{
    (0..votes.used).all(|i| {
        if !votes.is_clean(i) {
            return false;
        }
        let vote = votes.row(i).entry;
        vote.voter < nodes && within(1, slot, vote.slot)
    })
}
