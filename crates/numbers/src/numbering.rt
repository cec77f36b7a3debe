// Texts become numbers: all that comparing needs of both views, in the scratch of the work table. After this no text is looked at until the answer is written.
ghost use Rattle.std.specs.Prelude.{◌≡◌, ◌≤◌, length, take, drop};
ghost use Rattle.reading.specs.Views.{texts};
ghost use Rattle.grants.specs.Scratch.{Numbered};
ghost use Rattle.numbers.specs.Numbering.{FirstsStand, SidesLent, SidesWritten, TablesWritten, NumbersWritten, counts_of};
ghost use Rattle.numbers.specs.Stemming.{AllStems};

use crate::{methods, sides, stems};
use firsts::entering;
use grants::scratch;
use grants::scratch::Counts;
use reading::held::View;

// The first line with each text; how many lines new has.
pub fn write_firsts<'s, 'w>(old: &View<'s, 'w>, new: &View<'s, 'w>, w: &mut [u32]) -> usize
    requires { 2048 ≤ length w.old }
    ensures { FirstsStand old.now new.now result w.old w.new }
{
    let o = old.pattern_count();
    let n = new.pattern_count();
    entering::write_firsts(old, new, w, n + o);
    n
}

// The sides of old and new.
pub fn write_sides<'s, 'w>(old: &View<'s, 'w>, new: &View<'s, 'w>, w: &mut [u32], n: usize)
    requires { SidesLent old.now new.now n w.old }
    ensures { SidesWritten old.now new.now w.old w.new }
{
    let (tables, firsts) = w.split_at_mut(scratch::SORTS);
    sides::fill_side(new, old, &firsts[n..n + 128], tables, scratch::OLD_SIDE);
    sides::fill_side(new, new, &firsts[..128], tables, scratch::NEW_SIDE);
}

// The sides and the trial methods; how many methods there are.
pub fn write_tables<'s, 'w>(
    old: &View<'s, 'w>,
    new: &View<'s, 'w>,
    w: &mut [u32],
    n: usize,
) -> usize
    requires { SidesLent old.now new.now n w.old }
    ensures { TablesWritten old.now new.now w.old w.new result }
{
    write_sides(old, new, w, n);
    methods::pair_up(old, new, w, scratch::METHODS)
}

// The stems behind m trial methods, and the counts of all.
pub fn write_lines<'s, 'w>(
    old: &View<'s, 'w>,
    new: &View<'s, 'w>,
    w: &mut [u32],
    n: usize,
    m: usize,
) -> Counts
    requires { SidesLent old.now new.now n w.old }
    ensures stems { AllStems (texts old.now) (texts new.now) w.old w.new }
    ensures counts { result ≡ counts_of old.now new.now m }
{
    let o = old.pattern_count();
    stems::write_stems(old, new, w, n + o);
    Counts {
        old: o,
        new: n,
        methods: m,
    }
}

// All else; new has n lines.
pub fn write_rest<'s, 'w>(old: &View<'s, 'w>, new: &View<'s, 'w>, w: &mut [u32], n: usize) -> Counts
    requires { SidesLent old.now new.now n w.old }
    ensures { NumbersWritten old.now new.now w.old w.new result }
{
    let m = write_tables(old, new, w, n);
    write_lines(old, new, w, n, m)
}

// All of it.
pub fn write_numbers<'s, 'w>(old: &View<'s, 'w>, new: &View<'s, 'w>, w: &mut [u32]) -> Counts
    requires { 2048 ≤ length w.old }
    ensures { NumbersWritten old.now new.now w.old w.new result }
{
    let n = write_firsts(old, new, w);
    write_rest(old, new, w, n)
}

// The scratch, which w begins with, is filled; all that stands behind stays.
pub fn number<'s, 'w>(old: &View<'s, 'w>, new: &View<'s, 'w>, w: &mut [u32]) -> Counts
    requires { 2048 ≤ length w.old }
    ensures numbers { Numbered old.now new.now (take 2048 w.new) result }
    ensures rest { drop 2048 w.new ≡ drop 2048 w.old }
    ensures size { length w.new ≡ length w.old }
{
    write_numbers(old, new, w)
}
