// Elements stored in a lent slice: bytes and words alike.
ghost use Rattle.std.specs.Prelude.{◌≡◌, ◌+◌, ◌≤◌, length};
ghost use Rattle.words.specs.Store.{put_at, copies};

// Copies all of `src` into `out` from `at` on. A loop: of `copy_from_slice` the compiler makes a call of `memmove`, which the archive for C does not ask for.
pub fn put<T: Copy>(out: &mut [T], at: usize, src: &[T])
    requires { at + length src.now ≤ length out.old }
    ensures { out.new ≡ put_at out.old at src.now }
{
    for j in 0..src.len() {
        out[at + j] = src[j];
    }
}

// Writes n times `v` into `out` from `at` on.
pub fn fill<T: Copy>(out: &mut [T], at: usize, n: usize, v: T)
    requires { at + n ≤ length out.old }
    ensures { out.new ≡ put_at out.old at (copies n v) }
{
    for i in at..at + n {
        out[i] = v;
    }
}
