// The trial methods, as pairs from `at` on: the number of each among old's methods, and 64 numbers on its number among new's.
ghost use Rattle.std.specs.Prelude.{◌≡◌, ◌+◌, ◌≤◌, ◌<◌, length};
ghost use Rattle.text.specs.Texts.{part};
ghost use Rattle.trials.specs.Trials.{joined};
ghost use Rattle.grants.specs.Sides.{PairedUp};
ghost use Rattle.numbers.specs.Writes.{BothLent, PairsWritten, MethodsWritten, put_pair};

use reading::held::View;

// One pair, behind n others.
pub fn put_pair(w: &mut [u32], at: usize, n: usize, a: usize, b: usize)
    requires { ((at + 128 ≤ length w.old) × (n < 64)) × ((a < 4294967296) × (b < 4294967296)) }
    ensures { w.new ≡ put_pair at n a b w.old }
{
    w[at + n] = a as u32;
    w[at + 64 + n] = b as u32;
}

// Those of new.
pub fn pair_new(old: &View, new: &View, w: &mut [u32], at: usize)
    requires { BothLent old.now new.now at 128 w.old }
    ensures { PairsWritten old.now.methods new.now.methods new.now.methods at w.old w.new }
{
    for i in 0..new.method_count() {
        put_pair(w, at, i, old.method_index(new.method(i)), i);
    }
}

// Then further ones of old; how many there are with them.
pub fn pair_old(old: &View, new: &View, w: &mut [u32], at: usize) -> usize
    requires { BothLent old.now new.now at 128 w.old × PairedUp old.now.methods new.now.methods new.now.methods (part at (at + 128) w.old) }
    ensures paired { PairsWritten old.now.methods new.now.methods (joined new.now.methods old.now.methods) at w.old w.new }
    ensures count { result ≡ length (joined new.now.methods old.now.methods) }
{
    let own = new.method_count();
    let mut count = own;
    for j in 0..old.method_count() {
        if own <= new.method_index(old.method(j)) {
            put_pair(w, at, count, j, own);
            count += 1;
        }
    }
    count
}

// The filler method, behind the `count` that are paired; how many there are with it.
pub fn pair_last(old: &View, new: &View, w: &mut [u32], at: usize, count: usize) -> usize
    requires { BothLent old.now new.now at 128 w.old × (PairedUp old.now.methods new.now.methods (joined new.now.methods old.now.methods) (part at (at + 128) w.old) × (count ≡ length (joined new.now.methods old.now.methods))) }
    ensures { MethodsWritten old.now.methods new.now.methods at w.old w.new result }
{
    put_pair(w, at, count, old.method_count(), new.method_count());
    count + 1
}

// All of them; how many there are.
pub fn pair_up(old: &View, new: &View, w: &mut [u32], at: usize) -> usize
    requires { BothLent old.now new.now at 128 w.old }
    ensures { MethodsWritten old.now.methods new.now.methods at w.old w.new result }
{
    pair_new(old, new, w, at);
    let count = pair_old(old, new, w, at);
    pair_last(old, new, w, at, count)
}
