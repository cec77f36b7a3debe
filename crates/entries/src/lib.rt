// A record entered in the lent work table: what the table holds, how one of its lists is searched and grows, and what each record does to it.
#![tactic(auto)]

pub mod tables; // the lent work table
pub mod steps; // what one record does
