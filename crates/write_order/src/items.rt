// Of items: the hash of one under a form, and the index of each.
ghost use Rattle.std.specs.Prelude.{◌≡◌, ◌≤◌, ◌<◌, length};
ghost use Rattle.layout.specs.Limits.{most_items};
ghost use Rattle.build_memory.specs.Memory.{least_words};
ghost use Rattle.write_order.specs.Items.{AllBelow, hash_for, indices_put};

use build_memory::fields::{HASH, item_word, key_of};
use key_hash::hash::{Form, HASH_START, hash_on};

// The hash of item i under a form: the base form's is in its record, the other is made from its key.
#[tactic(auto, unfolding(crate::specs::Items::hash_for, key_hash::specs::Hash::hash_by))]
pub fn hash_of(words: &[usize], arena: &[u8], i: usize, form: Form) -> usize
    requires { (least_words ≤ length words.now) × (i < most_items) }
    ensures { result ≡ hash_for form words.now arena.now i }
{
    match form {
        Form::Plain => item_word(words, i, HASH),
        Form::Signed => hash_on(HASH_START, key_of(words, arena, i), Form::Signed) as usize,
    }
}

// gvdb-rs: HashItemBuilder::set_assigned_index.
// Stores the index of each item of `items` at the item in `indices`.
#[tactic(auto, unfolding(crate::specs::Items::indices_put, crate::specs::Items::AllBelow))]
pub fn index_items(items: &[usize], indices: &mut [usize])
    requires { AllBelow (length indices.old) items.now }
    ensures { indices.new ≡ indices_put indices.old items.now (length items.now) }
{
    for (k, &item) in items.iter().enumerate() {
        indices[item] = k;
    }
}
