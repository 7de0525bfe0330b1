// The items of one table, in the order in which they were made.
ghost use Rattle.std.specs.Prelude.{◌≡◌, ◌≤◌, length};
ghost use Rattle.layout.specs.Limits.{most_items};
ghost use Rattle.write_numbers.specs.Fill.{Fit, has_items, Collected};

use build_memory::fields::{ITEMS, TABLE, TABLES, item_word};

// Whether table t has an item. A table past the last has none.
pub fn has_items(words: &[usize], t: usize) -> bool
    requires { Fit words.now }
    ensures { result ≡ has_items words.now t }
{
    if words[TABLES] <= t {
        return false;
    }
    (0..words[ITEMS]).any(|k| item_word(words, k, TABLE) == t)
}

// Puts the items of table t to the front of `out`, in the order in which they were made. Answers how many there are.
pub fn collect(words: &[usize], t: usize, out: &mut [usize]) -> usize
    requires { Fit words.now × (most_items ≤ length out.old) }
    ensures { Collected words.now t result out.old out.new }
{
    let most = words[ITEMS];
    let mut n = 0;
    for i in 0..most {
        let table = item_word(words, i, TABLE);
        if table == t {
            out[n] = i;
            n += 1;
        }
    }
    n
}
