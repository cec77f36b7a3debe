// What two best lines come to: the first trial method and the first caller that old denies and new grants.
ghost use Rattle.std.specs.Prelude.{◌≡◌, ◌≤◌, ◌<◌, length};
ghost use Rattle.grants.specs.Sides.{PairsFit};
ghost use Rattle.grants.specs.Catches.{caught_from, caught_in};

use crate::rosters;

// The number of a trial method and the number of a caller.
#[derive(Clone, Copy)]
pub struct Catch {
    pub method: usize,
    pub caller: usize,
}

// Of two rosters.
pub fn judge(ro: &[u64], rn: &[u64], pairs: &[u32], count: usize) -> Option<Catch>
    requires { ((length ro.now ≡ 32) × (length rn.now ≡ 32)) × (((length pairs.now ≡ 128) × (count ≤ 63)) × PairsFit pairs.now count) }
    ensures { result ≡ caught_from ro.now rn.now pairs.now count 0 }
{
    for method in 0..count {
        let a = pairs[method] as usize;
        let b = pairs[64 + method] as usize;
        let fresh = rn[b] & !ro[a];
        if fresh != 0 {
            let caller = fresh.trailing_zeros() as usize;
            return Some(Catch { method, caller });
        }
    }
    None
}

// Of two best lines: u of old, with o lines, and v of new, with n.
pub fn judge_lines(
    so: &[u32],
    o: usize,
    sn: &[u32],
    n: usize,
    pairs: &[u32],
    count: usize,
    u: usize,
    v: usize,
) -> Option<Catch>
    requires { (((length so.now ≡ 512) × (o ≤ 128)) × ((length sn.now ≡ 512) × (n ≤ 128))) × (((length pairs.now ≡ 128) × (count ≤ 63)) × PairsFit pairs.now count) }
    ensures { result ≡ caught_in so.now o sn.now n pairs.now count u v }
{
    // Kept: fixed memory, no heap: a set for each of 31 methods, as many as there can be, and one for all others.
    let mut ro = [0; 32];
    let mut rn = [0; 32];
    rosters::fill_roster(so, o, u, &mut ro);
    rosters::fill_roster(sn, n, v, &mut rn);
    judge(&ro, &rn, pairs, count)
}
