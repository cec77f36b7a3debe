// Who the caller is, and which of the listing's roles it has.
#![tactic(auto)]

ghost use Rattle.std.specs.Prelude.{◌≡◌};
ghost use Rattle.text.specs.Lines.{lines_of};
ghost use Rattle.callers.specs.RoleSets.{check_caller, check_names, with_role};

use reading::held::View;
use reading::lines;
use text::texts;

// A caller as the listing sees it: not logged in, or logged in with those of the listing's roles, as the digits of a number.
#[derive(Clone, Copy)]
pub enum Who {
    Nobody,
    Roles(u64),
}

// The set with a role of the listing put in, where the name is one.
pub fn with_role(view: &View, set: u64, name: &[u8]) -> u64
    ensures { result ≡ with_role view.now set name.now }
{
    let i = view.role_index(name);
    if i < view.role_count() {
        return set | (1 << (i % 64) as u32);
    }
    set
}

// The roles of a caller who is logged in, or nothing where the names are bad.
pub fn logged_in(view: &View, names: &[u8]) -> Option<Who>
    ensures { result ≡ check_names view.now 0 0 (lines_of names.now) }
{
    let mut set = 0;
    let mut count: usize = 0;
    let mut at = 0;
    // Kept: `scan` finds a name's end and looks at its bytes at once; `split_inclusive` would go over them twice.
    while at < names.len() {
        let name = texts::scan(names, at);
        if !lines::ends_at(names, name.end) {
            return None;
        }
        if !names::is_role_name(&names[at..name.end], name.clean) {
            return None;
        }
        if 32 <= count {
            return None;
        }
        set = with_role(view, set, &names[at..name.end]);
        count += 1;
        at = name.end + 1;
    }
    Some(Who::Roles(set))
}

// The caller of a login number and a text of names, or nothing where they are bad.
#[tactic(auto, unfolding(crate::specs::RoleSets::check_caller))]
pub fn caller(view: &View, login: u32, names: &[u8]) -> Option<Who>
    ensures { result ≡ check_caller view.now login names.now }
{
    match login {
        0 if names.is_empty() => Some(Who::Nobody),
        1 => logged_in(view, names),
        _ => None,
    }
}
