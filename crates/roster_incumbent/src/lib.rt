//! What the workers of a search share: the best roster that they have found so far, behind a lock; who shows it
//! to them; whether what is shown is a legal roster with its cost; and where they can be met.
//!
//! Who finds a roster raises the incumbent to it, and who searches looks at it now and then. No answer
//! rests on what a look shows: a search checks each roster that it is shown. In reading order:
//!
//! - `checked`: whether a roster is legal and has its cost
//! - `sight`: who shows rosters to a search
//! - `incumbent`: the locked roster, how it is raised, and its look as a search's sight
//! - `gate`: where workers can be met
#![tactic(auto)]

mod checked;
mod gate;
mod incumbent;
mod sight;

pub use checked::{all_left, check, is_held};
pub use gate::{Gate, Open, Point};
pub use incumbent::{Incumbent, Looker, keep_less};
pub use sight::Sight;
