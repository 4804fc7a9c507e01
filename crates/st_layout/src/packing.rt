//! Two numbers below 2^32 in one word.
ghost use Rattle.std.specs.Prelude.{◌≡◌, ◌^◌, ◌<◌};
ghost use Rattle.st_layout.specs.Packed.{packed, high_half, low_half};

/// How many values a half has.
const HALF_VALUES: u64 = 1 << 32;

/// The word with `hi` as its high half and `lo` as its low half.
pub fn pack(hi: u64, lo: u64) -> u64
    requires high_fits { hi < 2 ^ 32 }
    requires low_fits { lo < 2 ^ 32 }
    ensures word { result ≡ packed hi lo }
    ensures high { high_half result ≡ hi }
    ensures low { low_half result ≡ lo }
{
    hi * HALF_VALUES + lo
}

/// The high half of `w`.
pub fn hi(w: u64) -> u64
    ensures half { result ≡ high_half w }
    ensures fits { result < 2 ^ 32 }
    ensures whole { packed result (low_half w) ≡ w }
{
    w / HALF_VALUES
}

/// The low half of `w`.
pub fn lo(w: u64) -> u64
    ensures half { result ≡ low_half w }
    ensures fits { result < 2 ^ 32 }
    ensures whole { packed (high_half w) result ≡ w }
{
    w % HALF_VALUES
}
