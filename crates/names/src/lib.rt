// What role names, methods and patterns have to be. `clean` says that the text's bytes are all text bytes.
#![tactic(auto)]

ghost use Rattle.std.specs.Prelude.{◌≡◌};
ghost use Rattle.text.specs.Texts.{all};
ghost use Rattle.text.specs.Bytes.{is_text};
ghost use Rattle.names.specs.Names.{is_star, is_name, is_role_name, is_method_name, is_pattern, is_constraint_kind};
ghost use Rattle.names.specs.Patterns.{is_extension, kind_of, is_permitted};

use text::texts;

// Whether t is `*`.
#[tactic(auto, unfolding(crate::specs::Names::is_star))]
pub fn is_star(t: &[u8]) -> bool
    ensures { result ≡ is_star t.now }
{
    texts::are_same(t, b"*")
}

// Whether t is a name that `allow` takes: 1 to 64 text bytes, no space first or last.
#[tactic(auto, unfolding(crate::specs::Names::is_name))]
pub fn is_name(t: &[u8], clean: bool) -> bool
    requires { clean ≡ all is_text t.now }
    ensures { result ≡ is_name t.now }
{
    (1..=64).contains(&t.len())
        && clean
        && !texts::starts_with(b" ", t)
        && !texts::ends_with(b" ", t)
}

// Whether t is a role's name: such a name, and not `*`.
#[tactic(auto, unfolding(crate::specs::Names::is_role_name))]
pub fn is_role_name(t: &[u8], clean: bool) -> bool
    requires { clean ≡ all is_text t.now }
    ensures { result ≡ is_role_name t.now }
{
    is_name(t, clean) && !is_star(t)
}

// Whether t is a method: 1 to 24 token bytes.
#[tactic(auto, unfolding(crate::specs::Names::is_method_name))]
pub fn is_method_name(t: &[u8]) -> bool
    ensures { result ≡ is_method_name t.now }
{
    (1..=24).contains(&t.len()) && texts::all_token(t)
}

// Whether t is a constraint's kind.
#[tactic(auto, unfolding(crate::specs::Names::is_constraint_kind))]
pub fn is_constraint_kind(t: &[u8]) -> bool
    ensures { result ≡ is_constraint_kind t.now }
{
    texts::are_same(t, b"open") || texts::are_same(t, b"auth")
}

// Whether t can stand behind `*.`: at least one byte, and none of them '.', '/' or '*'.
#[tactic(auto, unfolding(crate::specs::Patterns::is_extension))]
pub fn is_extension(t: &[u8]) -> bool
    ensures { result ≡ is_extension t.now }
{
    !t.is_empty()
        && !texts::has_byte(b'.', t)
        && !texts::has_byte(b'/', t)
        && !texts::has_byte(b'*', t)
}

// Whether t is of a kind that 01 permits: empty, or it starts with `/`, or it is `*.` and an extension.
#[tactic(auto, unfolding(crate::specs::Patterns::kind_of))]
pub fn is_permitted(t: &[u8]) -> bool
    ensures { result ≡ is_permitted (kind_of t.now) }
{
    t.is_empty()
        || texts::starts_with(b"/", t)
        || texts::starts_with(b"*.", t) && is_extension(&t[2..])
}

// Whether t is a pattern: 0 to 255 text bytes, no space last, no ';', and of a kind that 01 permits.
#[tactic(auto, unfolding(crate::specs::Names::is_pattern))]
pub fn is_pattern(t: &[u8], clean: bool) -> bool
    requires { clean ≡ all is_text t.now }
    ensures { result ≡ is_pattern t.now }
{
    let is_formed = (..=255).contains(&t.len()) && clean && !texts::ends_with(b" ", t);
    is_formed && !texts::has_byte(b';', t) && is_permitted(t)
}
