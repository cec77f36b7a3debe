// Texts become numbers: what comparing two views that the lent work table holds needs of their texts, written once into its scratch.
#![tactic(auto)]

pub mod sides; // the table of a view: what its pattern lines say, in the numbers of new's roles
pub mod methods; // the trial methods, by their numbers in both views
pub mod searching; // the strongest pattern of a listing at a stem
pub mod stems; // the stems of both listings, and their best lines
pub mod numbering; // all of it
