//! What is sent: numbers that rise, with priorities that follow from them.

/// How the priorities of messages come.
#[derive(Clone, Copy)]
pub enum Load {
    Random,
    Equal,
    Rising,
}

pub const LOADS: [(&str, Load); 3] = [
    ("random", Load::Random),
    ("equal", Load::Equal),
    ("rising", Load::Rising),
];

impl Load {
    pub fn priority(self, number: u64) -> i64 {
        match self {
            Load::Random => (mixed(number) >> 1) as i64,
            Load::Equal => 7,
            Load::Rising => (number % (1 << 63)) as i64,
        }
    }
}

// The last steps of the generator SplitMix64.
fn mixed(number: u64) -> u64 {
    let first = number.wrapping_mul(0x9E37_79B9_7F4A_7C15);
    let second = (first ^ (first >> 30)).wrapping_mul(0xBF58_476D_1CE4_E5B9);
    let third = (second ^ (second >> 27)).wrapping_mul(0x94D0_49BB_1331_11EB);
    third ^ (third >> 31)
}
