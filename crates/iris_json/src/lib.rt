//! The lines of a script, read, and the lines of its run, written, as JSON (RFC 8259).
#![tactic(auto)]

mod changes;
mod city;
mod city_fault;
mod city_keys;
mod city_line;
mod city_nodes;
mod city_place;
mod city_plains;
mod city_text;
mod extent;
mod find;
mod item;
mod keys;
mod laws;
mod line;
mod node;
mod out;
mod out_text;
mod part;
mod plain;
mod row;
mod summary;
mod word;
mod zone;

pub use changes::read_changes;
pub use city::{City, CityError, CityWhy, Show};
pub use city_line::read_city;
pub use city_text::write_city;
pub use find::{Arrival, Find, Offer};
pub use iris_tree::{Cite, Element, Item};
pub use item::{write_items, write_tree};
pub use laws::{keys_of_lines_rise, moment_is_one_arrival, text_is_one_city, text_is_one_line};
pub use line::{Line, LineError, LineWhy, read_line};
pub use out::{Out, QueryFault, Which, Why};
pub use out_text::write_out;
pub use summary::Summary;
pub use word::Word;
pub use zone::{Zone, ZoneError};
