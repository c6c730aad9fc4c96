// Words of 64 bits as a set of small numbers.
ghost use Rattle.std.specs.Prelude.{◌≡◌, ◌≤◌, ◌*◌, length};
ghost use Rattle.table_sets.specs.Sets.{bit_of, numbers_below};

// How many numbers below 64 times the words have their bits set.
pub(crate) fn count_members(words: &[u64]) -> u32
    requires { length words.now ≤ 16 }
    ensures { result ≡ length (numbers_below (bit_of words.now) (64 * length words.now)) }
{
    let mut count = 0;
    for word in words {
        count += word.count_ones();
    }
    count
}
