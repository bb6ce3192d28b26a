// Bench profiles (2026-11): how long a machine waits. A profile is a number, so that one that is neither can be refused.
ghost use Rattle.std.specs.Prelude.{◌≡◌};
ghost use Rattle.link.specs.Profile.{known_profile, receiver_interval, sender_interval};

const PROFILE_1: u8 = 1;

const PROFILE_2: u8 = 2;

// Milliseconds. Profile 1's are the source's, with its names.
const REASSEMBLY_MS: u64 = 300_000;

const SEGMENT_INTERVAL_MS: u64 = 330_000;

const REASSEMBLY_2_MS: u64 = 120_000;

const SEGMENT_INTERVAL_2_MS: u64 = 150_000;

#[tactic(auto, unfolding(crate::specs::Profile::known_profile))]
pub fn known_profile(profile: u8) -> bool
    ensures { result ≡ known_profile profile }
{
    profile == PROFILE_1 || profile == PROFILE_2
}

// One for each machine: a function over both would take the machine as an argument, which is no plainer.
// How long a receiver of this profile waits for the next segment.
#[tactic(auto, unfolding(crate::specs::Profile::receiver_interval))]
pub fn receiver_interval(profile: u8) -> u64
    ensures { result ≡ receiver_interval profile }
{
    if profile == PROFILE_2 {
        REASSEMBLY_2_MS
    } else {
        REASSEMBLY_MS
    }
}

// How long a sender of this profile waits after a submission.
#[tactic(auto, unfolding(crate::specs::Profile::sender_interval))]
pub fn sender_interval(profile: u8) -> u64
    ensures { result ≡ sender_interval profile }
{
    if profile == PROFILE_2 {
        SEGMENT_INTERVAL_2_MS
    } else {
        SEGMENT_INTERVAL_MS
    }
}
