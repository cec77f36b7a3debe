// What a first tag comes to, by where it stands.
ghost use Rattle.std.specs.Prelude.{◌≡◌, not, ◌||◌};
ghost use Rattle.portals.specs.Elements.{sort_of, text_sort, refused_or, opening, is_complete};
ghost use Rattle.elements.specs.Rows.{phase_at, sort_at, opening_of, FittingRow};

use ledger::items::Item;
use text::texts;

// Where one stands in an element: in `web-app`, in a `security-role` before its `role-name` and behind it, in a `security-constraint` before its collections,
// behind one of them and behind its `auth-constraint`, in a `web-resource-collection` before its patterns, behind one of them, behind an `http-method` and
// behind an `http-method-omission`, in an `auth-constraint`, and in an element that is passed over.
#[derive(Clone, Copy, PartialEq, Eq)]
pub enum Phase {
    InApp,
    InRole,
    InRoleNamed,
    InConstraint,
    InCollected,
    InGuarded,
    InCollection,
    InPatterned,
    InMethods,
    InOmissions,
    InAuth,
    PassedOver,
}

// The elements by their names: the eight that are wanted where they belong, those that are refused anywhere, and all others.
#[derive(Clone, Copy, PartialEq, Eq)]
pub enum Sort {
    SecurityRole,
    SecurityConstraint,
    WebResourceCollection,
    AuthConstraint,
    UrlPattern,
    HttpMethod,
    HttpMethodOmission,
    RoleName,
    Unwanted,
    Other,
}

// What an element does where it begins: nothing, it opens a constraint or a collection, or it makes the last constraint one with an authorization constraint.
#[derive(Clone, Copy, PartialEq, Eq)]
pub enum Effect {
    Nothing,
    Opens,
    Collects,
    Guards,
}

// An element whose content is read: where that leaves the element round it, where its own content begins, and what it does.
#[derive(Clone, Copy)]
pub struct Holder {
    pub next: Phase,
    pub first: Phase,
    pub effect: Effect,
}

// An element whose text is the field of a record: where that leaves the element round it, and the record's kind.
#[derive(Clone, Copy)]
pub struct Leaf {
    pub next: Phase,
    pub item: Item,
}

// What a first tag comes to.
#[derive(Clone, Copy)]
pub enum Opening {
    Misplaced,
    Refused,
    Holds(Holder),
    Says(Leaf),
}

// The sort of an element that is wanted nowhere: refused, or passed over.
#[tactic(auto, using(text::proofs::Truths::ladder))]
pub fn other_sort(n: &[u8]) -> Sort
    ensures { sort_at result ≡ refused_or n.now }
{
    if texts::are_same(n, b"user-data-constraint") {
        return Sort::Unwanted;
    }
    if texts::are_same(n, b"deny-uncovered-http-methods") {
        return Sort::Unwanted;
    }
    Sort::Other
}

// The sort of an element that holds no others where it is wanted.
#[tactic(auto, using(text::proofs::Truths::ladder))]
pub fn text_sort(n: &[u8]) -> Sort
    ensures { sort_at result ≡ text_sort n.now }
{
    if texts::are_same(n, b"url-pattern") {
        return Sort::UrlPattern;
    }
    if texts::are_same(n, b"http-method") {
        return Sort::HttpMethod;
    }
    if texts::are_same(n, b"http-method-omission") {
        return Sort::HttpMethodOmission;
    }
    if texts::are_same(n, b"role-name") {
        return Sort::RoleName;
    }
    other_sort(n)
}

// Kept: the three ladders of names stay three, as `portals` defines them (`sort_of`, `text_sort`, `refused_or`); a `match` on the bytes tests them one by one, and leaves forty goals and more open for two names.
// The sort of an element by its name.
#[tactic(auto, using(text::proofs::Truths::ladder), unfolding(portals::specs::Elements::sort_of))]
pub fn sort_of(n: &[u8]) -> Sort
    ensures { sort_at result ≡ sort_of n.now }
{
    if texts::are_same(n, b"security-role") {
        return Sort::SecurityRole;
    }
    if texts::are_same(n, b"security-constraint") {
        return Sort::SecurityConstraint;
    }
    if texts::are_same(n, b"web-resource-collection") {
        return Sort::WebResourceCollection;
    }
    if texts::are_same(n, b"auth-constraint") {
        return Sort::AuthConstraint;
    }
    text_sort(n)
}

// What a first tag of that sort comes to at a phase.
#[tactic(auto, using(crate::proofs::Tables::no_role, crate::proofs::Tables::no_constraint, crate::proofs::Tables::no_collection, crate::proofs::Tables::no_auth, crate::proofs::Tables::no_pattern, crate::proofs::Tables::no_method, crate::proofs::Tables::no_omission, crate::proofs::Tables::no_name), unfolding(portals::specs::Elements::opening, portals::specs::Elements::found))]
pub fn row_of(phase: Phase, sort: Sort) -> Opening
    ensures is { opening_of result ≡ opening (phase_at phase) (sort_at sort) }
    ensures fitting { FittingRow result }
{
    match (phase, sort) {
        (_, Sort::Unwanted) => Opening::Refused,
        (_, Sort::Other) | (Phase::PassedOver, _) => {
            Opening::Holds(Holder {
                next: phase,
                first: Phase::PassedOver,
                effect: Effect::Nothing,
            })
        }
        (Phase::InApp, Sort::SecurityRole) => {
            Opening::Holds(Holder {
                next: Phase::InApp,
                first: Phase::InRole,
                effect: Effect::Nothing,
            })
        }
        (Phase::InApp, Sort::SecurityConstraint) => {
            Opening::Holds(Holder {
                next: Phase::InApp,
                first: Phase::InConstraint,
                effect: Effect::Opens,
            })
        }
        (Phase::InRole, Sort::RoleName) => {
            Opening::Says(Leaf {
                next: Phase::InRoleNamed,
                item: Item::Role,
            })
        }
        (Phase::InConstraint, Sort::WebResourceCollection)
        | (Phase::InCollected, Sort::WebResourceCollection) => {
            Opening::Holds(Holder {
                next: Phase::InCollected,
                first: Phase::InCollection,
                effect: Effect::Collects,
            })
        }
        (Phase::InCollected, Sort::AuthConstraint) => {
            Opening::Holds(Holder {
                next: Phase::InGuarded,
                first: Phase::InAuth,
                effect: Effect::Guards,
            })
        }
        (Phase::InCollection, Sort::UrlPattern) | (Phase::InPatterned, Sort::UrlPattern) => {
            Opening::Says(Leaf {
                next: Phase::InPatterned,
                item: Item::Pattern,
            })
        }
        (Phase::InPatterned, Sort::HttpMethod) | (Phase::InMethods, Sort::HttpMethod) => {
            Opening::Says(Leaf {
                next: Phase::InMethods,
                item: Item::Method,
            })
        }
        (Phase::InPatterned, Sort::HttpMethodOmission)
        | (Phase::InOmissions, Sort::HttpMethodOmission) => {
            Opening::Says(Leaf {
                next: Phase::InOmissions,
                item: Item::Omit,
            })
        }
        (Phase::InAuth, Sort::RoleName) => {
            Opening::Says(Leaf {
                next: Phase::InAuth,
                item: Item::Allow,
            })
        }
        _ => Opening::Misplaced,
    }
}

// Whether nothing is missing where an element ends at that phase.
#[tactic(auto, using(crate::proofs::Tables::whole))]
pub fn is_whole(phase: Phase) -> bool
    ensures { result ≡ is_complete (phase_at phase) }
{
    !matches!(
        phase,
        Phase::InRole | Phase::InConstraint | Phase::InCollection
    )
}

// Whether a tag without content lacks some: what its content would have to begin with is missing.
pub fn lacks(full: bool, first: Phase) -> bool
    ensures { result ≡ not (full || is_complete (phase_at first)) }
{
    !full && !is_whole(first)
}
