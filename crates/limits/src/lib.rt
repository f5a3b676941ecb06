// The limits that a node keeps to: those of every node, and two sets, of which its profile names one. Their numbers stand here alone.
#![tactic(auto)]

ghost use Rattle.std.specs.Prelude.{◌≡◌};
ghost use Rattle.protocol.specs.Limits.{limits_of};

use protocol::Profile;

// ---- of every node: the largest that is allowed

pub const MAX_SLOT: u64 = 1000000000;

pub const MAX_EXPIRY: u64 = 4096;

pub const MAX_DEPTH: u64 = 4096;

// ---- by the profile

// A loom's: no other profile's are above them, so what is kept beside the tables is sized by these.
pub const LOOM_NODES: usize = 64;

pub const LOOM_BLOCKS: usize = 2048;

pub const LOOM_VOTES: usize = 8192;

// A rack's.
const RACK_NODES: usize = 16;

const RACK_BLOCKS: usize = 64;

const RACK_VOTES: usize = 256;

const RACK_BYTES: usize = 4096;

// The largest number of nodes, and of places in each table.
#[derive(Clone, Copy)]
pub struct Limits {
    pub nodes: u64,
    pub blocks: u64,
    pub votes: u64,
}

#[tactic(auto, unfolding(protocol::specs::Limits::limits_of))]
pub fn limits_of(profile: Profile) -> Limits
    ensures { (result.nodes ≡ (limits_of profile).nodes) × (result.blocks ≡ (limits_of profile).blocks) × (result.votes ≡ (limits_of profile).votes) }
{
    match profile {
        Profile::Loom => Limits {
            nodes: LOOM_NODES as u64,
            blocks: LOOM_BLOCKS as u64,
            votes: LOOM_VOTES as u64,
        },
        Profile::Rack => Limits {
            nodes: RACK_NODES as u64,
            blocks: RACK_BLOCKS as u64,
            votes: RACK_VOTES as u64,
        },
    }
}

// Whether a packet of so many bytes is too long to be read.
#[tactic(auto, unfolding(protocol::specs::Limits::limits_of))]
pub fn too_long(profile: Profile, length: usize) -> bool
    ensures { result ≡ (limits_of profile).too_long length }
{
    match profile {
        Profile::Loom => false,
        Profile::Rack => length > RACK_BYTES,
    }
}
