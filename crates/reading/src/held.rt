// What the crates above ask of what the work table holds. To them it is a view, a value of specs/Views: how it stands in the table is this crate's own affair.
ghost use Rattle.std.specs.Prelude.{◌≡◌, ◌<◌, [], length, get_or};
ghost use Rattle.text.specs.Texts.{index_of};
ghost use Rattle.reading.specs.Holds.{Holds};
ghost use Rattle.reading.specs.Views.{texts, cover_at, access_at, view_at, ProperView};

use entries::tables;
use entries::tables::Tally;
use std::marker::Model;

// What a constraint says: nothing is asked, nobody may, or the roles that may, as the digits of a number.
#[derive(Clone, Copy)]
pub enum Access {
    Open,
    Closed,
    ByRole(u64),
}

// A view, as the work table holds it: the text, lent for 's, the numbers that stand for it, lent for 'w, and how much of each list is filled.
// A text that it hands out lives as long as 's, whatever becomes of the table. In a clause it is the view alone.
#[derive(Drop)]
pub struct View<'s, 'w> {
    text: &'s [u8],
    table: &'w [u32],
    tally: Tally,
}

impl<'s, 'w> Model for View<'s, 'w> {
    ghost use Rattle.reading.specs.Views.{View, view_at};
    ghost use Rattle.reading.specs.Holds.{Holds};

    ghost Value = { View };

    ghost view = { λ v. view_at v.text.now v.tally v.table.now };

    ghost invariant = { λ v. Holds v.text.now v.tally v.table.now };
}

impl<'s, 'w> View<'s, 'w> {
    // The view that a table holds.
    pub fn new(text: &'s [u8], table: &'w [u32], tally: Tally) -> View<'s, 'w>
        requires { Holds text.now tally table.now }
        ensures { result ≡ view_at text.now tally table.now }
    {
        View { text, table, tally }
    }

    // How many `pattern` lines there are.
    pub fn pattern_count(&self) -> usize
        ensures count { result ≡ length (texts self.now) }
        ensures proper { ProperView self.now }
    {
        self.tally.patterns
    }

    // The text of `pattern` line k.
    pub fn pattern(&self, k: usize) -> &'s [u8]
        requires { k < length (texts self.now) }
        ensures { result.now ≡ get_or (texts self.now) k [] }
    {
        tables::span_at(self.text, self.table[tables::PATTERNS + k])
    }

    // The methods that the collection of `pattern` line k covers, as the digits of a number.
    pub fn cover(&self, k: usize) -> u32
        requires { k < length (texts self.now) }
        ensures { result ≡ cover_at self.now k }
    {
        let table = self.table;
        let c = table[tables::OWNERS + k] as usize;
        table[tables::COVERS + c]
    }

    // What the constraint of `pattern` line k says.
    pub fn access(&self, k: usize) -> Access
        requires { k < length (texts self.now) }
        ensures { result ≡ access_at self.now k }
    {
        let table = self.table;
        let c = table[tables::PARENTS + k] as usize;
        match table[tables::ACCESSES + c] {
            0 => Access::Open,
            1 => Access::Closed,
            _ => Access::ByRole(table[tables::ALLOWS + c] as u64),
        }
    }

    // How many roles there are.
    pub fn role_count(&self) -> usize
        ensures count { result ≡ length self.now.roles }
        ensures proper { ProperView self.now }
    {
        self.tally.roles
    }

    // Role i, by first appearance.
    pub fn role(&self, i: usize) -> &'s [u8]
        requires { i < length self.now.roles }
        ensures { result.now ≡ get_or self.now.roles i [] }
    {
        tables::text_at(self.text, self.table[tables::ROLES + i])
    }

    // The index of a name among the roles, or their number where it is none of them.
    // Kept: no Option, since the clause `index` promises that number, as `with_role` and `Mapped` above are stated with it.
    pub fn role_index(&self, name: &[u8]) -> usize
        ensures index { result ≡ index_of name.now self.now.roles }
        ensures proper { ProperView self.now }
    {
        tables::index(self.text, self.table, tables::ROLES, self.tally.roles, name).unwrap_or(
            self.tally.roles,
        )
    }

    // How many methods there are.
    pub fn method_count(&self) -> usize
        ensures count { result ≡ length self.now.methods }
        ensures proper { ProperView self.now }
    {
        self.tally.methods
    }

    // Method i, by first appearance.
    pub fn method(&self, i: usize) -> &'s [u8]
        requires { i < length self.now.methods }
        ensures { result.now ≡ get_or self.now.methods i [] }
    {
        tables::text_at(self.text, self.table[tables::METHODS + i])
    }

    // The index of a method among them, or their number where it is none of them.
    // Kept: no Option: that number is the digit of all methods that nothing names, in a cover and in `is_line_for`.
    pub fn method_index(&self, name: &[u8]) -> usize
        ensures index { result ≡ index_of name.now self.now.methods }
        ensures proper { ProperView self.now }
    {
        tables::index(
            self.text,
            self.table,
            tables::METHODS,
            self.tally.methods,
            name,
        )
        .unwrap_or(self.tally.methods)
    }
}
