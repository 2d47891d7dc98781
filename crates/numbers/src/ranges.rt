// How many values the data of a kind are, and their range.
ghost use Rattle.std.specs.Prelude.{◌≡◌};
ghost use Rattle.numbers.specs.Ranges.{count_of, limits_of, in_range, all_in_range};

use commands::request::Row;
use commands::table::Kind;

// The least and the greatest value of a kind.
#[derive(Clone, Copy)]
pub struct Limits {
    pub low: i32,
    pub high: i32,
}

// How many values the data of a kind are.
pub fn count_of(kind: Kind) -> usize
    ensures { result ≡ count_of kind }
{
    match kind {
        Kind::Row => 4,
        Kind::Timer | Kind::Register | Kind::Signal | Kind::Port => 1,
    }
}

// The range of each value of a kind.
pub fn limits_of(kind: Kind) -> Limits
    ensures { result ≡ limits_of kind }
{
    match kind {
        Kind::Timer => Limits { low: 0, high: 999 },
        Kind::Register => Limits { low: 0, high: 9999 },
        Kind::Row => Limits {
            low: -999999,
            high: 999999,
        },
        Kind::Signal => Limits { low: 0, high: 1 },
        Kind::Port => Limits { low: 0, high: 255 },
    }
}

// Whether a value is in its kind's range.
#[tactic(auto, unfolding(crate::specs::Ranges::in_range))]
fn in_range(kind: Kind, v: i32) -> bool
    ensures { result ≡ in_range kind v }
{
    let limits = limits_of(kind);
    limits.low <= v && v <= limits.high
}

// Whether every value of the data is.
#[tactic(auto, unfolding(crate::specs::Ranges::all_in_range, crate::specs::Ranges::each_in_range))]
pub fn all_in_range(kind: Kind, row: Row) -> bool
    ensures { result ≡ all_in_range kind row }
{
    let values: [i32; 4] = row.into();
    values[..count_of(kind)].iter().all(|v| in_range(kind, *v))
}
