// A list by position at the front of a lent slice: its first n elements, at positions 1 to n.
// kept: a number beside the slice, since the memory is the caller's, and what lies behind the n elements is room
#![tactic(auto)]

ghost use Rattle.std.specs.Prelude.{◌≡◌, ◌+◌, ◌-◌, ◌<◌, ◌≤◌, true, false, ◌∷◌, ◌++◌, length, take, drop};
ghost use Rattle.positions.specs.Positions.{fits_insert, fits_cut, fits_change, inserted_at, changed_at, cut_out};

// Whether a new element fits at position p of n, with room for so many.
pub fn fits_insert(room: usize, n: usize, p: usize) -> bool
    ensures { result ≡ fits_insert room n p }
{
    1 <= p && p - 1 <= n && n < room
}

// Whether position p of n is taken.
pub fn fits_change(room: usize, n: usize, p: usize) -> bool
    ensures { result ≡ fits_change room n p }
{
    1 <= p && p <= n && n <= room
}

// Whether positions p to q of n are taken.
pub fn fits_cut(room: usize, n: usize, p: usize, q: usize) -> bool
    ensures { result ≡ fits_cut room n p q }
{
    1 <= p && p <= q && q <= n && n <= room
}

// Puts x in front of the element at place k of the n, as one block move; k counts from 0.
fn put_in<T: Copy>(table: &mut [T], n: usize, k: usize, x: T)
    requires { (k ≤ n) × (n < length table.old) }
    ensures list { take (n + 1) table.new ≡ take k (take n table.old) ++ (x ∷ drop k (take n table.old)) }
    ensures rest { drop (n + 1) table.new ≡ drop (n + 1) table.old }
{
    table.copy_within(k..n, k + 1);
    table[k] = x;
}

// Takes away the elements from place k to before place q of the n, as one block move.
fn take_out<T: Copy>(table: &mut [T], n: usize, k: usize, q: usize)
    requires { (k ≤ q) × (q ≤ n) × (n ≤ length table.old) }
    ensures list { take (k + (n - q)) table.new ≡ take k (take n table.old) ++ drop q (take n table.old) }
    ensures rest { drop n table.new ≡ drop n table.old }
{
    table.copy_within(q..n, k);
}

// Puts x in the place of the element at place k of the n.
fn set_at<T: Copy>(table: &mut [T], n: usize, k: usize, x: T)
    requires { (k < n) × (n ≤ length table.old) }
    ensures list { take n table.new ≡ take k (take n table.old) ++ (x ∷ drop (k + 1) (take n table.old)) }
    ensures rest { drop n table.new ≡ drop n table.old }
{
    table[k] = x;
}

// Puts x at position p of the n elements, where it fits; those from p on move down.
pub fn insert<T: Copy>(table: &mut [T], n: usize, p: usize, x: T) -> bool
    ensures fits { result ≡ fits_insert (length table.old) n p }
    ensures list { result ≡ true → take (n + 1) table.new ≡ inserted_at (take n table.old) p x }
    ensures rest { result ≡ true → drop (n + 1) table.new ≡ drop (n + 1) table.old }
    ensures refused { result ≡ false → table.new ≡ table.old }
{
    if !fits_insert(table.len(), n, p) {
        return false;
    }
    put_in(table, n, p - 1, x);
    true
}

// Puts x in the place of the element at position p of the n, where there is one.
pub fn change<T: Copy>(table: &mut [T], n: usize, p: usize, x: T) -> bool
    ensures fits { result ≡ fits_change (length table.old) n p }
    ensures list { result ≡ true → take n table.new ≡ changed_at (take n table.old) p x }
    ensures rest { result ≡ true → drop n table.new ≡ drop n table.old }
    ensures refused { result ≡ false → table.new ≡ table.old }
{
    if !fits_change(table.len(), n, p) {
        return false;
    }
    set_at(table, n, p - 1, x);
    true
}

// Takes away the elements at positions p to q of the n, where there are such; those behind move up.
pub fn cut<T: Copy>(table: &mut [T], n: usize, p: usize, q: usize) -> bool
    ensures fits { result ≡ fits_cut (length table.old) n p q }
    ensures list { result ≡ true → take (p - 1 + (n - q)) table.new ≡ cut_out (take n table.old) p q }
    ensures rest { result ≡ true → drop n table.new ≡ drop n table.old }
    ensures refused { result ≡ false → table.new ≡ table.old }
{
    if !fits_cut(table.len(), n, p, q) {
        return false;
    }
    take_out(table, n, p - 1, q);
    true
}
