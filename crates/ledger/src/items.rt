// What the records of a web.xml are: those of a listing, a constraint of either kind.
ghost use Rattle.std.specs.Prelude.{◌≡◌, ◌%◌};
ghost use Rattle.ledger.specs.Places.{number_of};

// The records, in the order of their numbers in the work table. `Auth` is a constraint with an authorization constraint, `Open` one without.
#[derive(Clone, Copy, PartialEq, Eq)]
pub enum Item {
    Role,
    Open,
    Auth,
    Allow,
    Collection,
    Pattern,
    Method,
    Omit,
}

// The number of a record's kind in the work table.
impl From<Item> for u32 {
    ghost from_gives = { λ k n. n ≡ number_of k };

    fn from(item: Item) -> u32 {
        match item {
            Item::Role => 0,
            Item::Open => 1,
            Item::Auth => 2,
            Item::Allow => 3,
            Item::Collection => 4,
            Item::Pattern => 5,
            Item::Method => 6,
            Item::Omit => 7,
        }
    }
}

// What the record of that number is.
pub fn item_of(x: u32) -> Item
    ensures { number_of result ≡ x % 8 }
{
    match x % 8 {
        0 => Item::Role,
        1 => Item::Open,
        2 => Item::Auth,
        3 => Item::Allow,
        4 => Item::Collection,
        5 => Item::Pattern,
        6 => Item::Method,
        _ => Item::Omit,
    }
}
