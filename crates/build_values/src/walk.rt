// The dry walk of an insert: it reads and counts, and writes nothing.
ghost use Rattle.std.specs.Prelude.{◌≡◌, ◌≤◌, length, take};
ghost use Rattle.key_hash.specs.Hash.{hash_of};
ghost use Rattle.key_order.specs.Prefix.{ends_past};
ghost use Rattle.layout.specs.Limits.{longest_key, most_items};
ghost use Rattle.build_memory.specs.Memory.{Valid};
ghost use Rattle.build_values.specs.Walk.{way, descend, sum};

use build_memory::fields::{ITEMS, KIND, item_word};
use build_memory::find::find_hashed;
use key_hash::hash::{Form, HASH_START, hash_on};
use key_order::prefix::next_end;
use layout::kind::CONTAINER_KIND;

// How far the containers of a key are there. clear: nothing but containers stands on the way; from: the length of the last one's key;
// parent: its index plus 1, or 0.
#[derive(Clone, Copy)]
pub struct Way {
    pub clear: bool,
    pub from: usize,
    pub parent: usize,
}

// A way, and the hash of the key up to where it ends: hashes go on from there.
#[derive(Clone, Copy)]
pub struct Walked {
    pub way: Way,
    pub hash: u32,
}

// What the rest of a key costs: items, and bytes of their keys.
#[derive(Clone, Copy)]
pub struct Cost {
    pub items: usize,
    pub room: usize,
}

// A walk that ends here.
fn ended(clear: bool, from: usize, parent: usize, hash: u32) -> Walked
    ensures { (result.way ≡ way clear from parent) × (result.hash ≡ hash) }
{
    Walked {
        way: Way {
            clear,
            from,
            parent,
        },
        hash,
    }
}

// Goes down the containers of the key that are there.
pub fn descend_to(words: &[usize], arena: &[u8], table: usize, key: &[u8], sep: usize) -> Walked
    requires { Valid words.now (length arena.now) }
    ensures way_value { result.way ≡ descend words.now arena.now table key.now (ends_past sep key.now 0) 0 0 }
    ensures within { (result.way.from ≤ length key.now) × (result.way.parent ≤ most_items) }
    ensures hashed { result.hash ≡ hash_of (take result.way.from key.now) }
{
    let n = words[ITEMS];
    let mut from = 0;
    let mut parent = 0;
    let mut hash = HASH_START;
    // A `loop`: `from` goes from one prefix's end to the next, by separators.
    loop {
        let e = next_end(key, from, sep);
        if key.len() <= e {
            return ended(true, from, parent, hash);
        }
        let further = hash_on(hash, &key[from..e], Form::Plain);
        let i = find_hashed(words, arena, table, &key[..e], further as usize);
        if n <= i {
            return ended(true, from, parent, hash);
        }
        if item_word(words, i, KIND) != CONTAINER_KIND {
            return ended(false, from, parent, hash);
        }
        from = e;
        parent = i + 1;
        hash = further;
    }
}

// What it costs to make the prefixes of the key that end past `from`.
pub fn cost_of(key: &[u8], from: usize, sep: usize) -> Cost
    requires { (from ≤ length key.now) × (length key.now ≤ longest_key) }
    ensures { (result.items ≡ length (ends_past sep key.now from)) × (result.room ≡ sum (ends_past sep key.now from)) }
{
    let mut at = from;
    let mut items = 0;
    let mut room = 0;
    // A `loop`: `at` goes from one prefix's end to the next, by separators.
    loop {
        let e = next_end(key, at, sep);
        items += 1;
        room += e;
        if key.len() <= e {
            return Cost { items, room };
        }
        at = e;
    }
}
