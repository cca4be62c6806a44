// What a panel says of an image, of counts and of a text.
#![tactic(auto)]

// Which kinds a level knows.
mod levels;

// An image whose layout is good.
mod laid_out;

// The verdict on an image.
mod verdicts;

pub use verdicts::verdict;

// An image that a panel accepts.
mod accepted;

// The reading of an image.
mod readings;

pub use readings::reading;

// The gauge of an image.
mod identities;

pub use identities::{Identified, identity};

// The load of a text.
mod loads;

pub use loads::{keep_accepted, load};
