// Indices bucket by bucket. A chain runs from the head of its bucket through `links`, and ends with the empty mark. `index_all` takes chains apart, whatever stands
// in them; `index_by_bucket` chains ranks, each at the front of its bucket: `hashes` has the hash of each rank.
ghost use Rattle.std.specs.Prelude.{◌≡◌, ℕ, ◌≤◌, ◌<◌, List, length};
ghost use Rattle.words.specs.Store.{put_at};
ghost use Rattle.layout.specs.Limits.{most_items};
ghost use Rattle.image.specs.Index.{bucket_of, by_bucket};
ghost use Rattle.write_order.specs.Chain.{Chained, Chains, HasChains, Indexed, Ended, Drained, Empty, EmptyFrom, Rooms, starts};

use build_memory::fields::EMPTY;
use layout::limits::MOST_ITEMS;

// The bucket of a rank.
#[tactic(auto, unfolding(image::specs::Index::bucket_of))]
fn bucket_of(hashes: &[usize], place: usize) -> usize
    requires { place < length hashes.now }
    ensures { (result ≡ bucket_of hashes.now place) × (result < length hashes.now) }
{
    hashes[place] % hashes.len()
}

// Puts each rank, in ascending order, at the front of its bucket's chain.
fn chain_all(hashes: &[usize], heads: &mut [usize], links: &mut [usize])
    requires hashes_len_bound { (length hashes.now ≤ most_items) × (length hashes.now ≤ length heads.old) × (length hashes.now ≤ length links.old) }
    requires empty { Empty heads.old × Empty links.old }
    ensures chained { Chained hashes.now (length hashes.now) heads.new links.new }
    ensures empty_from { EmptyFrom (length hashes.now) links.new }
{
    for p in 0..hashes.len() {
        let b = bucket_of(hashes, p);
        links[p] = heads[b];
        heads[b] = p;
    }
}

// gvdb-rs: SimpleHashTable::iter_bucket.
// Writes what stands in a chain to `order` from `at` on and takes the chain apart. Answers the end.
fn drain_chain(head: usize, links: &mut [usize], order: &mut [usize], at: usize) -> usize
    requires { Ended links.old head (length order.old) at }
    ensures { Drained links.old links.new order.old order.new head at result }
{
    let mut p = head;
    let mut end = at;
    // A `while`: p goes from link to link, and the chain's end is known only when it is met.
    while p != EMPTY {
        order[end] = p;
        let next = links[p];
        links[p] = EMPTY;
        p = next;
        end += 1;
    }
    end
}

// gvdb-rs: SimpleHashTable::iter.
// Takes n chains apart, one after the other: `order` gets what stood in them, `firsts` where each starts.
pub fn index_all(
    n: usize,
    heads: &[usize],
    links: &mut [usize],
    order: &mut [usize],
    firsts: &mut [usize],
)
    requires n_in_bounds { (n ≤ length heads.now) × Rooms n order.old firsts.old }
    requires has_chains { HasChains n heads.now links.old }
    ensures by_index { (lists : ℕ → List ℕ) → Chains lists n heads.now links.old → Indexed lists n order.old order.new firsts.old firsts.new }
    ensures empty { Empty links.new }
{
    let mut end = 0;
    for b in 0..n {
        let next = drain_chain(heads[b], links, order, end);
        firsts[b] = end;
        end = next;
    }
}

// Gives ranks their indices, bucket by bucket. The links hold the empty mark before and after.
pub fn index_by_bucket(
    hashes: &[usize],
    links: &mut [usize],
    order: &mut [usize],
    firsts: &mut [usize],
)
    requires { Rooms (length hashes.now) order.old firsts.old × (length hashes.now ≤ length links.old) × Empty links.old }
    ensures order_after { order.new ≡ put_at order.old 0 (by_bucket hashes.now) }
    ensures firsts_after { firsts.new ≡ put_at firsts.old 0 (starts hashes.now) }
    ensures links_unchanged { links.new ≡ links.old }
{
    // A fixed array, of which each bucket has a word: there is no heap.
    let mut heads = [EMPTY; MOST_ITEMS];
    chain_all(hashes, &mut heads, links);
    index_all(hashes.len(), &heads, links, order, firsts);
}
