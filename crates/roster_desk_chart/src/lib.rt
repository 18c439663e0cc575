//! A page that shows a book's roster: one file of HTML, which fetches nothing.
//!
//! What is drawn stands where the definitions have it: local days are those of the bases, meters and reasons
//! those of `roster_legal_reasons`. How it looks is only tested. In reading order:
//!
//! - `style`: how the page looks, and what it does
//! - `html`: text of a page
//! - `axis`: the days across
//! - `bands`: pairings as bands, and names that don't run over one another
//! - `bars`: duties, leave, recurrent rests and days off
//! - `meters`: how much of each limit is used
//! - `persons`: a person's row
//! - `open`: open pairings
//! - `page`: the page
#![tactic(auto)]

mod axis;
mod bands;
mod bars;
mod html;
mod meters;
mod open;
mod page;
mod persons;
mod style;

pub use page::chart_text;
pub use persons::Words;
