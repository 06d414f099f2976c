ghost use Rattle.std.specs.Prelude.{◌≡◌, slice_index_or};
ghost use Rattle.std.specs.List.Sorted.{IsNonDecreasing, IsPermutation};
ghost use Rattle.drive_counter.specs.Spread.{spread_in};

/// The least, the middle and the greatest of some numbers, 0 where there are none.
#[derive(Clone, Copy, Debug, PartialEq, Eq)]
pub struct Spread {
    /// The least number.
    pub least: u32,
    /// Of the two numbers in the middle the lower.
    pub median: u32,
    /// The greatest number.
    pub most: u32,
}

/// The number at a place, or 0 past the end.
fn number_at(numbers: &[u32], place: usize) -> u32
    ensures { result ≡ slice_index_or numbers.now place 0 }
{
    if place < numbers.len() {
        return numbers[place];
    }
    0
}

impl Spread {
    /// The spread of these numbers, which are brought in ascending order. It allocates nothing.
    pub fn of(numbers: &mut Vec<u32>) -> Spread
        ensures same { IsPermutation numbers.old.items numbers.new.items }
        ensures ascend { IsNonDecreasing numbers.new.items }
        ensures value { result ≡ spread_in numbers.new.items }
    {
        numbers.sort_unstable();
        let last = numbers.len().saturating_sub(1);
        Spread {
            least: number_at(numbers, 0),
            median: number_at(numbers, last / 2),
            most: number_at(numbers, last),
        }
    }
}
