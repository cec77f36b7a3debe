// The records of a listing, and which may follow which.
ghost use Rattle.std.specs.Prelude.{◌≡◌, ◌<◌, IfSome};
ghost use Rattle.listings.specs.Records.{may_follow};
ghost use Rattle.listings.specs.Heads.{headed, head_of};

use text::texts;

// The kinds of record.
#[derive(Clone, Copy, PartialEq, Eq)]
pub enum Kind {
    Role,
    Constraint,
    Allow,
    Collection,
    Pattern,
    Method,
    Omit,
    End,
}

// Where a record leaves the reader.
#[derive(Clone, Copy, PartialEq, Eq)]
pub enum Stage {
    AfterFirst,
    AfterRole,
    AfterOpen,
    AfterAuth,
    AfterAllow,
    AfterCollection,
    AfterPattern,
    AfterMethod,
    AfterOmit,
    AfterEnd,
}

// How a line begins: the record that it names, and how many bytes stand before its field. A name standing alone has an empty field,
// which the byte 10 behind it ends.
#[derive(Clone, Copy)]
pub struct Headed {
    pub kind: Kind,
    pub size: usize,
}

// The head of a line of that kind, whose field begins behind so many bytes.
fn of_kind(kind: Kind, size: usize) -> Option<Headed>
    ensures { result ≡ headed kind size }
{
    Some(Headed { kind, size })
}

// The head of a line, the commonest first; none where its name is unknown.
#[tactic(auto, using(text::proofs::Truths::ladder), unfolding(crate::specs::Heads::head_of, crate::specs::Heads::head_of_part))]
pub fn head(t: &[u8]) -> Option<Headed>
    ensures is { result ≡ head_of t.now }
    ensures small { IfSome result (λ h. h.size < 100) }
{
    match t {
        [b'm', b'e', b't', b'h', b'o', b'd', b'\t', ..] => of_kind(Kind::Method, 7),
        [b'o', b'm', b'i', b't', b'\t', ..] => of_kind(Kind::Omit, 5),
        [b'p', b'a', b't', b't', b'e', b'r', b'n', b'\t', ..] => of_kind(Kind::Pattern, 8),
        [b'a', b'l', b'l', b'o', b'w', b'\t', ..] => of_kind(Kind::Allow, 6),
        [b'r', b'o', b'l', b'e', b'\t', ..] => of_kind(Kind::Role, 5),
        [
            b'c',
            b'o',
            b'n',
            b's',
            b't',
            b'r',
            b'a',
            b'i',
            b'n',
            b't',
            b'\t',
            ..
        ] => of_kind(Kind::Constraint, 11),
        [
            b'c',
            b'o',
            b'l',
            b'l',
            b'e',
            b'c',
            b't',
            b'i',
            b'o',
            b'n',
            b'\n',
            ..
        ] => of_kind(Kind::Collection, 10),
        [b'e', b'n', b'd', b'\n', ..] => of_kind(Kind::End, 3),
        _ => None,
    }
}

// Whether a record of kind k may stand at stage p.
#[tactic(auto, unfolding(crate::specs::Records::may_follow, crate::specs::Records::is_among))]
pub fn may_follow(p: Stage, k: Kind) -> bool
    ensures { result ≡ may_follow p k }
{
    match k {
        Kind::Role => matches!(p, Stage::AfterFirst | Stage::AfterRole),
        Kind::Constraint | Kind::End => matches!(
            p,
            Stage::AfterFirst
                | Stage::AfterRole
                | Stage::AfterPattern
                | Stage::AfterMethod
                | Stage::AfterOmit
        ),
        Kind::Allow => matches!(p, Stage::AfterAuth | Stage::AfterAllow),
        Kind::Collection => matches!(
            p,
            Stage::AfterOpen
                | Stage::AfterAuth
                | Stage::AfterAllow
                | Stage::AfterPattern
                | Stage::AfterMethod
                | Stage::AfterOmit
        ),
        Kind::Pattern => matches!(p, Stage::AfterCollection | Stage::AfterPattern),
        Kind::Method => matches!(p, Stage::AfterPattern | Stage::AfterMethod),
        Kind::Omit => matches!(p, Stage::AfterPattern | Stage::AfterOmit),
    }
}
