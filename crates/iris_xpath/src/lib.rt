//! Queries: their syntax trees, and reading and printing them. The language is a part of XPath 1.0
//! (sections 2 to 3.4, abbreviated syntax).
#![tactic(auto)]

mod anchor;
mod anchor_laws;
mod bytes;
mod copying;
mod error;
mod expression;
mod number;
mod operands;
mod outside;
mod parser;
mod printing;
mod query;
mod stack;
mod state;
mod steps;
mod tally;
mod thin;
mod turn;
mod units;
mod value;
mod word;

pub use anchor::{lca, lca_name};
pub use anchor_laws::selected_lies_under_lca_name;
pub use error::{OutsidePart, QueryError, QueryLimit};
pub use expression::{
    Attribute, Comparison, Expression, NameTest, Operand, Part, Path, Separator, Step,
};
pub use parser::parse;
pub use printing::print;
pub use query::Query;
pub use tally::depth;
pub use value::{Value, some_compare};
